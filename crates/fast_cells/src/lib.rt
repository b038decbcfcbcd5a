// For speed alone: the cells and fractions of a span's points, worked out before its colours. Read by `fast_colours`,
// `fast_cubic` and `rows`.
#![tactic(auto)]

pub mod cells;
mod inner;
mod of_point;
pub mod reach;
pub mod rule;
