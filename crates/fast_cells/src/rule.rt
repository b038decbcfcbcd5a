// The rules by which the one tap of a point is found, coordinate by coordinate: that of `Integer` and that of
// `Nearest`. Each is a type, so that a loop knows its rule. None has a branch. Assumes a picture's sides.
ghost use Rattle.std.specs.Prelude.{◌≡◌, true, ℕ, Bool, ◌≤◌, Float};
ghost use Rattle.std.proofs.Common.{rules};
ghost use Rattle.taps.specs.Interpolation.{Single, code_of};
ghost use Rattle.taps.specs.declared.interpolation.Interpolation.{Interpolation};
ghost use Rattle.taps.specs.declared.interpolation.Interpolation.TheVariants.{Integer, Nearest};
ghost use Rattle.fast_cells.specs.Cells.{Place};
ghost use Rattle.fast_cells.specs.Inner.{has_cell, has_place, widest_reach};

use crate::inner::{column, has_cell, has_place, kept, kept_place};

// The column or the row of a tap, and whether there is one: if not, the number says nothing. The mark stands beside it,
// where an Option would need a branch in the loop.
#[derive(Clone, Copy)]
pub struct Tap {
    pub at: u32,
    pub inside: bool,
}

pub trait Rule {
    ghost reads: { Interpolation };

    ghost passes: { ℕ → Float → Bool };

    // The tap of a coordinate below the reach.
    fn tap(u: f64, reach: u64) -> Tap
        requires { reach ≤ widest_reach }
        ensures inside { result.inside ≡ passes reach u }
        ensures place { result.inside ≡ true → Place reads reach u result.at };

    // It reads one tap.
    ghost single: { Single (code_of reads) };
}

pub struct IntegerRule {}

impl Rule for IntegerRule {
    ghost reads = { Integer };

    ghost passes = { has_cell };

    ghost single = { Prim.search rules };

    fn tap(u: f64, reach: u64) -> Tap {
        Tap {
            at: column(kept(u, reach)),
            inside: has_cell(u, reach),
        }
    }
}

pub struct NearestRule {}

impl Rule for NearestRule {
    ghost reads = { Nearest };

    ghost passes = { has_place };

    ghost single = { Prim.search rules };

    fn tap(u: f64, reach: u64) -> Tap {
        Tap {
            at: column(kept_place(u, reach)),
            inside: has_place(u, reach),
        }
    }
}
