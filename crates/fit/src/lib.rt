// The fit: from pairs to the coefficients of a mapping, and `Mapping::build` with refusals 3 to 8. Read by `distort`,
// `listing` and `probe_fit`; `chain` and `cards` cite its definitions.
#![tactic(auto)]

pub mod affine;
pub mod barrel;
pub mod build;
pub mod lstsq;
pub mod orient;
pub mod perspective;
pub mod polynomial;
pub mod shepards;
