// From a source point to a colour: the nine interpolations' definition (specs/Interpolate), the plain way over any
// square of taps (`several`), and the ways for speed alone: `Bilinear` written out (`fast_bilinear`), and taps that lie
// inside (`fast_two_by_two`, `fast_four_by_four`, `fast_sixteen`). Read by `band`, `fast_colours`, `fast_cubic`,
// `distort`, `chain`, `cards` and `probe_sampler`.
#![tactic(auto)]

mod apart;
pub mod fast_bilinear;
pub mod fast_four_by_four;
pub mod fast_sixteen;
pub mod fast_two_by_two;
pub mod interpolate;
pub mod several;
