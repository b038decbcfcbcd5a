// The source point of each output pixel, by the fitted mapping, one function a method. Read by `fast_points`, `rows`,
// `distort` and `probe_points`; `band`, `chain` and `cards` cite its definitions. Every public function equals its
// definition in specs/ for every input of its types, NaN and infinities included.
#![tactic(auto)]

pub mod affine;
pub mod barrel;
pub mod forward;
pub mod frame;
pub mod perspective;
pub mod polynomial;
pub mod shepards;
pub mod source;
