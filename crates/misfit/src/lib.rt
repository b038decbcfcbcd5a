// The greatest misfit of a mapping over its pairs. Nothing calls it yet: it is the leaf of a request that is not
// finished, which makes the fit carry its misfit.
#![tactic(auto)]

pub mod pairs;
