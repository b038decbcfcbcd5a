// The test of a picture's samples, refusal 5: whether each is a number of at most 65,536 in magnitude. Read by
// `distort` and `probe_sampler`.
#![tactic(auto)]

pub mod large;
