// For speed alone: spans whose taps lie inside, by one tap and by `Bilinear`; three channels go four samples at a time
// (`broad`). Read by `fast_cubic` and `rows`.
#![tactic(auto)]

pub mod broad;
pub mod one_by_one;
