// How a picture is looked at: what stands outside it, how it is read between its pixels, and the colour of output
// pixels that have no source point. Assumes nothing.
use picture::colour::Rgba;
use policies::policy::Policy;
use taps::interpolation::Interpolation;

#[derive(Clone, Copy)]
pub struct Look {
    pub policy: Policy,
    pub interpolation: Interpolation,
    pub background: Rgba,
    pub matte: Rgba,
}
