// For speed alone: the source points of a span of a row, worked out at once by loops that call the mappings of
// `inverse`. Read by `rows` and `probe_points`.
#![tactic(auto)]

pub mod barrels;
pub mod keep;
pub mod pixel;
pub mod points;
