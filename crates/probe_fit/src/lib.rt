// The fit and the window in bytes, for tests alone: `probe_fit_c` hands both to the host. Floats pass as their bits; a
// NaN comes out as 0x7ff8000000000000. Read by `probe_points`. No product links it.
#![tactic(auto)]

pub mod fitted;
pub mod placed;
pub mod sized;
