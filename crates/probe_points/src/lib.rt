// A static library for tests alone: its exports hand source points to the host, anywhere and in whole rows. Floats pass
// as their bits; a NaN comes out as 0x7ff8000000000000. No product links it.
#![tactic(auto)]

pub mod many;
pub mod pointed;
pub mod rows;
