#![tactic(auto)]

// Mathematics, no code: the rounded operations, counted loops, fractions, distances, the surface and the blend, and the
// errors of rounding. Every crate with floats writes its definitions in these words.
