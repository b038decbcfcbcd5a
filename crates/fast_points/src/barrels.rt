// Barrel and BarrelInverse for a span: the offsets and the squared radii, guesses at the roots, the roots, and
// then the points, in loops of their own, so that the compiler takes several pixels at a time in all but the third.
// The last step is that of the mapping for one point. The squares and the guesses stand where the coordinates will.
// Assumes that the pixels lie within the limits of a window.
ghost use Rattle.std.specs.Prelude.{◌≡◌, ◌+◌, ◌≤◌, ◌<◌};
ghost use Rattle.exact.specs.Limits.{largest_side, longest_span};
ghost use Rattle.exact.specs.Vector.{at};
ghost use Rattle.number.specs.Root.{root, guess};
ghost use Rattle.fast_points.specs.Points.{KeptRow};
ghost use Rattle.fast_points.specs.Barrels.{ByRadiusAt, RadiiSquared, EachBy};

use crate::keep::keep;
use crate::pixel::pixel_middle;
use inverse::barrel::{from_centre, radius_squared};
use number::root::{guess, root_by};
use point::point::Point;

// The offsets across and the squared radii, dy being the offset down.
fn radii_squared(
    coef: &[f64; 256],
    x: f64,
    dy: f64,
    first: u32,
    n: usize,
    ds: &mut [f64; 64],
    ss: &mut [f64; 64],
)
    requires n_le_longest_span { n ≤ longest_span }
    requires n_bound { first + n ≤ largest_side }
    ensures { RadiiSquared coef.now x dy first n ds.new ss.new }
{
    for k in 0..n {
        let dx = from_centre(pixel_middle(first + (k as u32), x), coef[4], coef[6]);
        ds[k] = dx;
        ss[k] = radius_squared(dx, dy);
    }
}

// What the roots start from, several at a time.
fn guesses(ss: &[f64; 64], n: usize, gs: &mut [f64; 64])
    requires { n ≤ longest_span }
    ensures { EachBy guess n ss.now gs.new }
{
    for k in 0..n {
        gs[k] = guess(ss[k]);
    }
}

// The roots, whatever the guesses.
fn roots(ss: &[f64; 64], gs: &[f64; 64], n: usize, rs: &mut [f64; 64])
    requires { n ≤ longest_span }
    ensures { EachBy root n ss.now rs.new }
{
    for k in 0..n {
        rs[k] = root_by(ss[k], gs[k]);
    }
}

// The points that `from` gives by the offset down, the offset across and the radius.
pub fn barrel_points<F: Fn(f64, f64, f64) -> Point>(
    from: F,
    coef: &[f64; 256],
    x: f64,
    y: f64,
    first: u32,
    n: usize,
    us: &mut [f64; 64],
    vs: &mut [f64; 64],
)
    requires n_le_longest_span { n ≤ longest_span }
    requires n_bound { first + n ≤ largest_side }
    requires callable { F.IsAlwaysCallable from }
    ensures { KeptRow (ByRadiusAt (F.post from) coef.now y) x first n us.new vs.new }
{
    let dy = from_centre(y, coef[5], coef[6]);
    let mut ds = [0.0; 64];
    let mut rs = [0.0; 64];
    radii_squared(coef, x, dy, first, n, &mut ds, us);
    guesses(us, n, vs);
    roots(us, vs, n, &mut rs);
    let moved = |k: usize| -> Point
        requires inside { k < longest_span }
        requires callable { F.IsAlwaysCallable from }
        ensures { F.post from dy (at ds k) (at rs k) result }
    { from(dy, ds[k], rs[k]) };
    keep(moved, n, us, vs)
}
