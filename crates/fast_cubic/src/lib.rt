// For speed alone: spans whose taps lie inside, by `Catrom` and `Spline`: weights first (`kernels`), then colours
// (`spans`). Read by `rows`.
#![tactic(auto)]

pub mod kernels;
pub mod spans;
