// The caller's arguments: the store of 257 numbers, the methods with their counts, and refusals 3 to 7. Read by `fit`,
// which builds from them, by `distort`, `listing` and `cards`; `chain` cites its definitions. Every function equals its
// definition in specs/ for every input of its types.
#![tactic(auto)]

pub mod code;
pub mod method;
pub mod refusal;
pub mod store;
