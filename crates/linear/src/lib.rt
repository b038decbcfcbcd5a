// Linear algebra for the fit: inverses of an affine mapping and of a homography, elimination in place, normal equations
// and their solution. Read by `fit`, and by `window` for the way from the picture to the output; `mappings`, `inverse`,
// `distort`, `chain` and `cards` cite its definitions.
#![tactic(auto)]

pub mod eliminate;
pub mod equations;
pub mod invert;
pub mod normal;
pub mod solve;
