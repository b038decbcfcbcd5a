// Whether a source point can be used, and the three ways to make one. None has a branch, so that a loop over them
// takes several at a time. Assumes nothing.
ghost use Rattle.std.specs.Prelude.{◌≡◌, cond};
ghost use Rattle.std.specs.Float.{nan};
ghost use Rattle.point.specs.Point as Points;

use crate::point::Point;
use number::magnitude::abs;

const USABLE_LIMIT: f64 = 1073741824.0; // 2^30

// Whether neither coordinate is a NaN or above 2^30 in magnitude.
fn usable(u: f64, v: f64) -> bool
    ensures { result ≡ Points.usable u v }
{
    (abs(u) <= USABLE_LIMIT) & (abs(v) <= USABLE_LIMIT)
}

pub fn point(u: f64, v: f64) -> Point
    ensures { result ≡ Points.point u v }
{
    Point {
        u,
        v,
        usable: usable(u, v),
    }
}

// Where the mapping has no point.
pub fn none() -> Point
    ensures { result ≡ Points.none }
{
    Point {
        u: 0.0 / 0.0,
        v: 0.0 / 0.0,
        usable: false,
    }
}

// A coordinate, or none's.
fn unless(none: bool, u: f64) -> f64
    ensures { result ≡ cond none nan u }
{
    if none { 0.0 / 0.0 } else { u }
}

// The point, or none where the test holds: chosen number by number.
pub fn point_unless(none: bool, u: f64, v: f64) -> Point
    ensures { result ≡ Points.point_unless none u v }
{
    point(unless(none, u), unless(none, v))
}
