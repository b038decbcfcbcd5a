// A picture in bytes: the tests of its sizes, pixels and colours read from it, the pixel at any index by a policy, and
// a colour stored in a band. Pictures are lent bytes, little-endian f32 samples row by row; nothing is converted up
// front. Read by `taps`, `sampler`, `band`, `fast_colours`, `fast_cubic`, `rows`, `distort`, `dihyravo`, `chain`,
// `cards`, `replay`, `probe_fit` and `probe_sampler`.
#![tactic(auto)]

pub mod at;
pub mod colour;
pub mod picture;
pub mod pixel;
pub mod shape;
pub mod size;
pub mod store;
