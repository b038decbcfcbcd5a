// The distort call: the job, the table of refusals, the band. Read by `dihyravo`, which exports it, and by `cards` and
// `replay`; `chain` proves the third demand of it.
#![tactic(auto)]

pub mod answer;
pub mod call;
pub mod job;
pub mod refusal;
pub mod tray;
