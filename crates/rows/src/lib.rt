// Rows of output pixels, worked in spans: the one place that chooses between the plain way and the ways for speed. Read
// by `distort`.
#![tactic(auto)]

mod ahead;
pub mod inside;
pub mod rows;
pub mod span;
