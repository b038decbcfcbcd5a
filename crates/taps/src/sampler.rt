// A picture with its surroundings, the Rust's `Sampler`: a colour for every index. Assumes nothing.
ghost use Rattle.std.specs.Prelude.{◌≡◌};
ghost use Rattle.taps.specs.Sampler.{plane_of};

use picture::colour::Rgba;
use picture::picture::Picture;
use policies::policy::Policy;

#[derive(Clone, Copy)]
pub struct Sampler<'a> {
    pub picture: Picture<'a>,
    pub policy: Policy,
    pub background: Rgba,
}

impl<'a> Sampler<'a> {
    pub fn at(self, x: i64, y: i64) -> Rgba
        ensures { result ≡ plane_of self.entry x y }
    {
        self.picture.at(self.policy, self.background, x, y)
    }
}
