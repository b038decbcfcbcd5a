// The cells of a span's points: a loop for each kind with no branch in it, so that the compiler takes several points
// at a time. Each turn reads a point back from its coordinates. Where one point has no cell the answer is false, and
// the caller goes pixel by pixel. Columns, rows and fractions are arrays of their own, since the loops over them load
// and store several neighbours at once. Assumes at most 64 points and a picture's sides.
ghost use Rattle.std.specs.Prelude.{◌≡◌, true, ◌≤◌};
ghost use Rattle.exact.specs.Limits.{longest_span};
ghost use Rattle.fast_cells.specs.Cells.{Cells, Places};
ghost use Rattle.fast_cells.specs.Inner.{has_cell, Every, widest_reach};

use crate::of_point::{cell_of, place_of};
use crate::reach::Reach;
use crate::rule::Rule;
use point::usable::point;

// The cells of the first n points, if the answer is true: it is where each of them has one.
pub fn cells(
    us: &[f64; 64],
    vs: &[f64; 64],
    n: usize,
    reach: Reach,
    columns: &mut [u32; 64],
    rows: &mut [u32; 64],
    xs: &mut [f32; 64],
    ys: &mut [f32; 64],
) -> bool
    requires n_le_longest_span { n ≤ longest_span }
    requires wide_le_widest_reach { (reach.wide ≤ widest_reach) × (reach.high ≤ widest_reach) }
    ensures cells { result ≡ true → Cells reach.wide n us.now columns.new xs.new
        × Cells reach.high n vs.now rows.new ys.new }
    ensures value { Every (has_cell reach.wide) n us.now → Every (has_cell reach.high) n vs.now
        → result ≡ true }
{
    let wide = reach.wide;
    let high = reach.high;
    let mut good = true;
    for k in 0..n {
        let c = cell_of(point(us[k], vs[k]), wide, high);
        columns[k] = c.column;
        rows[k] = c.row;
        xs[k] = c.x;
        ys[k] = c.y;
        good = good & c.inside;
    }
    good
}

// Their places by a rule, in the same way.
pub fn places<R: Rule>(
    us: &[f64; 64],
    vs: &[f64; 64],
    n: usize,
    reach: Reach,
    columns: &mut [u32; 64],
    rows: &mut [u32; 64],
) -> bool
    requires n_le_longest_span { n ≤ longest_span }
    requires wide_le_widest_reach { (reach.wide ≤ widest_reach) × (reach.high ≤ widest_reach) }
    ensures places { result ≡ true → Places R.reads reach.wide n us.now columns.new
        × Places R.reads reach.high n vs.now rows.new }
    ensures value { Every (R.passes reach.wide) n us.now → Every (R.passes reach.high) n vs.now
        → result ≡ true }
{
    let wide = reach.wide;
    let high = reach.high;
    let mut good = true;
    for k in 0..n {
        let c = place_of::<R>(point(us[k], vs[k]), wide, high);
        columns[k] = c.column;
        rows[k] = c.row;
        good = good & c.inside;
    }
    good
}
