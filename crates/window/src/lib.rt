// The output window: a viewport as it is given, the box that `bestfit` finds around the picture's corners, or the
// picture's own; and refusal 9. Read by `distort`, `dihyravo`, `cards`, `replay`, `probe_fit` and `probe_points`;
// `chain` cites its definitions. Each public function equals its definition in specs/ for every input of its types.
#![tactic(auto)]

pub mod bestfit;
pub mod ceil;
pub mod corners;
pub mod edges;
pub mod extent;
pub mod view;
pub mod window;
