// The fourteen virtual pixel policies: which pixel of a picture, or which colour, each names at an index. No picture is
// read here. Read by `picture`, `taps`, `sampler`, `band`, `distort`, `cards` and `probe_sampler`; `chain` cites its
// definitions.
#![tactic(auto)]

pub mod index;
pub mod named;
pub mod policy;
pub mod random;
