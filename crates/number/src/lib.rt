// The number tools: floor, narrowing, the square root, powers, magnitudes, the wrapping product. Every crate that
// computes reads them. Each public function equals its definition in specs/ for every input of its types, but for four
// that ask for a number in their domain: `whole_below`, `floor_within`, `floor_i64_within` and `narrow_number`.
#![tactic(auto)]

pub mod floor;
pub mod magnitude;
pub mod narrow;
pub mod power;
pub mod root;
pub mod wrapping;
