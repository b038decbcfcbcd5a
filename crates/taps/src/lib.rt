// The three steps of an interpolation: the cell of a point with its fractions, the taps around it, and their weighted
// mean, colours weighted by alpha. Read by `sampler`, `band`, `fast_cells`, `fast_colours`, `fast_cubic`, `rows`,
// `distort`, `chain`, `cards` and `probe_sampler`.
#![tactic(auto)]

pub mod cell;
pub mod interpolation;
pub mod sampler;
pub mod taps;
pub mod weighted;
pub mod weights;
