// The definition of the band: rows of output pixels in bytes, and how many are matte; and the plain way to store its
// pixels, one after another. Read by `fast_colours`, `fast_cubic`, `rows`, `distort`, `dihyravo`, `cards` and `replay`;
// `chain` cites its definitions.
#![tactic(auto)]

pub mod any;
pub mod look;
pub mod pixel;
pub mod rows;
pub mod span;
