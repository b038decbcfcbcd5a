// The listing of a fit: a text of names and pairs read a byte at a time, and the coefficients of `Affine` printed.
// `fitprint` is the program. Each public function equals its definition in specs/ for every input of its types.
#![tactic(auto)]

pub mod answer;
pub mod names;
pub mod print;
pub mod reader;
pub mod take;
pub mod text;
pub mod word;
