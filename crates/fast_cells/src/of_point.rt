// The cell of a source point, and its place by a rule. None has a branch, so that a loop over points
// takes several at a time. A point that has one lies inside the picture: so its mark is true, and is not asked.
// Assumes a picture's sides.
ghost use Rattle.std.specs.Prelude.{◌≡◌, true, ◌&&◌, ◌≤◌};
ghost use Rattle.point.specs.Point.{Whole};
ghost use Rattle.fast_cells.specs.Cells as Cells;
ghost use Rattle.fast_cells.specs.Inner.{has_cell, widest_reach};

use crate::inner::{column, fraction_of, has_cell, kept};
use crate::rule::Rule;
use point::point::Point;

// The column and the row below a point in index space, how far it lies beyond them, and whether it has a cell: if not,
// the four numbers say nothing. The mark stands beside them, where an Option would need a branch in the loop.
#[derive(Clone, Copy)]
pub struct Cell {
    pub column: u32,
    pub row: u32,
    pub x: f32,
    pub y: f32,
    pub inside: bool,
}

// The column and the row of the one tap, and whether there is one: a mark beside them, as in `Cell`.
#[derive(Clone, Copy)]
pub struct Place {
    pub column: u32,
    pub row: u32,
    pub inside: bool,
}

pub fn cell_of(p: Point, wide: u64, high: u64) -> Cell
    requires whole { Whole p }
    requires wide_le_widest_reach { (wide ≤ widest_reach) × (high ≤ widest_reach) }
    ensures inside_value { result.inside ≡ (has_cell wide p.u && has_cell high p.v) }
    ensures usable_value { result.inside ≡ true → p.usable ≡ true }
    ensures cell_of { result.inside ≡ true → Cells.CellOf wide p.u result.column result.x
        × Cells.CellOf high p.v result.row result.y }
{
    let x = kept(p.u, wide);
    let y = kept(p.v, high);
    Cell {
        column: column(x),
        row: column(y),
        x: fraction_of(x),
        y: fraction_of(y),
        inside: has_cell(p.u, wide) & has_cell(p.v, high),
    }
}

// The place by a rule.
pub fn place_of<R: Rule>(p: Point, wide: u64, high: u64) -> Place
    requires whole { Whole p }
    requires wide_le_widest_reach { (wide ≤ widest_reach) × (high ≤ widest_reach) }
    ensures inside_value { result.inside ≡ (R.passes wide p.u && R.passes high p.v) }
    ensures usable_value { result.inside ≡ true → p.usable ≡ true }
    ensures place { result.inside ≡ true → Cells.Place R.reads wide p.u result.column
        × Cells.Place R.reads high p.v result.row }
{
    let x = R::tap(p.u, wide);
    let y = R::tap(p.v, high);
    Place {
        column: x.at,
        row: y.at,
        inside: x.inside & y.inside,
    }
}
