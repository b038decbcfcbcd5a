// Shepards: the pairs' shifts, weighted by 1 over the squared distance. Assumes nothing.
ghost use Rattle.std.specs.Prelude.{◌≡◌, ◌≤◌};
ghost use Rattle.exact.specs.Limits.{most_pairs};
ghost use Rattle.inverse.specs.Shepards.{of_pairs, pairs_kept};
ghost use Rattle.inverse.specs.Shepards as Shepards;

use number::magnitude::LEAST_DIVISOR;
use point::point::Point;
use point::usable::point;

// Over the first n pairs; one that lies at (x, y) is the answer. A pair is four coefficients, which chunks of the array
// would give by an index too.
fn of_pairs(c: &[f64; 256], x: f64, y: f64, n: usize) -> Point
    requires { n ≤ most_pairs }
    ensures { result ≡ of_pairs c.now x y n }
{
    let mut su = 0.0;
    let mut sv = 0.0;
    let mut sw = 0.0;
    for j in 0..n {
        let k = 4 * j;
        let u = c[k];
        let v = c[k + 1];
        let px = c[k + 2];
        let py = c[k + 3];
        let d2 = (x - px) * (x - px) + (y - py) * (y - py);
        if d2 < LEAST_DIVISOR {
            return point(u, v);
        }
        let wgt = 1.0 / d2;
        su = su + wgt * (u - px);
        sv = sv + wgt * (v - py);
        sw = sw + wgt;
    }
    point(x + su / sw, y + sv / sw)
}

const MOST_PAIRS: u64 = 64;

fn pairs_kept(count: u64) -> usize
    ensures { result ≡ pairs_kept count }
{
    (count / 4).min(MOST_PAIRS) as usize
}

pub fn shepards(count: u64, c: &[f64; 256], x: f64, y: f64) -> Point
    ensures { result ≡ Shepards.shepards count c.now x y }
{
    of_pairs(c, x, y, pairs_kept(count))
}
