// A source point: two coordinates with a mark for usable. `inverse` returns it; `sampler`, `band`, `fast_points`,
// `fast_cells`, `fast_colours`, `rows` and `probe_points` take it; `distort`, `chain` and `cards` cite its definition.
#![tactic(auto)]

pub mod point;
pub mod usable;
