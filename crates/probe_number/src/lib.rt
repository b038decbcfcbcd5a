// A static library for tests alone: its exports hand the number tools to the host, so that each is compared with the
// Rust by itself. Floats pass as their bits; a NaN comes out as 0x7fc00000 or 0x7ff8000000000000. No product links it.
#![tactic(auto)]

pub mod number_tools;
