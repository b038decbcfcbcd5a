// The source points of a span by a rule, a closure that gives the k-th one: one loop for all of them. The compiler
// makes a loop of its own for each rule, and takes several pixels at a time where the rule has no branch. Assumes of
// the rule what its type says.
ghost use Rattle.std.specs.Prelude.{ℕ, ◌+◌, ◌≤◌, ◌<◌};
ghost use Rattle.exact.specs.Limits.{largest_side, longest_span};
ghost use Rattle.fast_points.specs.Points.{KeptBy, KeptRow, RowBy};

use crate::pixel::pixel_middle;
use point::point::Point;

// The coordinates of the first n points.
pub fn keep<F: Fn(usize) -> Point>(rule: F, n: usize, us: &mut [f64; 64], vs: &mut [f64; 64])
    requires n_le_longest_span { n ≤ longest_span }
    requires callable { (k : ℕ) → k < n → F.pre rule k }
    ensures { KeptBy (F.post rule) n us.new vs.new }
{
    for k in 0..n {
        let p = rule(k);
        us[k] = p.u;
        vs[k] = p.v;
    }
}

// Those of a rule that is asked at the middles of the pixels from column `first` on, of a window at x.
pub fn keep_row<F: Fn(f64) -> Point>(
    rule: F,
    x: f64,
    first: u32,
    n: usize,
    us: &mut [f64; 64],
    vs: &mut [f64; 64],
)
    requires n_le_longest_span { n ≤ longest_span }
    requires n_bound { first + n ≤ largest_side }
    requires callable { F.IsAlwaysCallable rule }
    ensures { KeptRow (F.post rule) x first n us.new vs.new }
{
    let at_middle = |k: usize| -> Point
        requires inside { (k < longest_span) × (first + k ≤ largest_side) }
        requires callable { F.IsAlwaysCallable rule }
        ensures { RowBy (F.post rule) x first k result }
    { rule(pixel_middle(first + (k as u32), x)) };
    keep(at_middle, n, us, vs)
}
