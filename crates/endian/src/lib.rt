// Numbers as bits, and in little-endian bytes at any place of a slice. Read by whatever reads or writes lent bytes:
// `arguments`, `policies`, `picture`, `sample_limit`, `taps`, `sampler`, `distort`, `listing`, `cards`, `replay` and
// the probes. `names`, `band`, `fast_colours` and `chain` cite its definitions.
#![tactic(auto)]

pub mod bytes;
pub mod pattern;
