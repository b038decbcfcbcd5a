// The mapping's record (kind, order, coefficients), the monomials, and the equations that pairs of points give. `fit`
// makes mappings; `window`, `inverse`, `misfit`, `fast_points`, `distort`, `probe_fit` and `probe_points` read them;
// `band`, `listing`, `chain` and `cards` cite the definitions.
#![tactic(auto)]

pub mod mapping;
pub mod monomials;
pub mod pair;
pub mod pairs;
pub mod rows;
