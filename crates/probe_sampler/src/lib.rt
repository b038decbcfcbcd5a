// A static library for tests alone: its exports hand the sampler and the cubic weights to the host, at one point and at
// many. Floats pass as their bits; a NaN comes out as 0x7fc00000. No product links it.
#![tactic(auto)]

pub mod many;
pub mod sampled;
pub mod weights;
