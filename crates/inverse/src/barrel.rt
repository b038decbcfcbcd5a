// Barrel and BarrelInverse: the offset from the centre times a factor of the radius. A span of pixels takes the steps
// in loops of their own, and ends in the same `barrel_from` or `barrel_inverse_from`. Assumes nothing.
ghost use Rattle.std.specs.Prelude.{◌≡◌};
ghost use Rattle.inverse.specs.Barrel as Barrel;

use number::magnitude::{LEAST_DIVISOR, abs};
use number::root::root;
use point::point::Point;
use point::usable::{point, point_unless};

// The offset from the centre, across or down; the radius `norm` counts as 1.
pub fn from_centre(at: f64, centre: f64, norm: f64) -> f64
    ensures { result ≡ Barrel.from_centre at centre norm }
{
    (at - centre) / norm
}

// The squared radius.
pub fn radius_squared(dx: f64, dy: f64) -> f64
    ensures { result ≡ Barrel.radius_squared dx dy }
{
    dx * dx + dy * dy
}

fn factor(c: &[f64; 256], r: f64) -> f64
    ensures { result ≡ Barrel.factor c.now r }
{
    c[0] * r * r * r + c[1] * r * r + c[2] * r + c[3]
}

// The point of Barrel, from the offset and the radius.
#[tactic(auto, unfolding(crate::specs::Barrel::barrel_from))]
pub fn barrel_from(c: &[f64; 256], dy: f64, dx: f64, r: f64) -> Point
    ensures { result ≡ Barrel.barrel_from c.now dy dx r }
{
    let s = factor(c, r);
    point(c[4] + dx * s * c[6], c[5] + dy * s * c[6])
}

// The point of BarrelInverse; none where the factor is too small.
#[tactic(auto, unfolding(crate::specs::Barrel::barrel_inverse_from))]
pub fn barrel_inverse_from(c: &[f64; 256], dy: f64, dx: f64, r: f64) -> Point
    ensures { result ≡ Barrel.barrel_inverse_from c.now dy dx r }
{
    let f = factor(c, r);
    let s = 1.0 / f;
    point_unless(
        abs(f) < LEAST_DIVISOR,
        c[4] + dx * s * c[6],
        c[5] + dy * s * c[6],
    )
}

// The point from the offset and the radius of (x, y).
fn by_radius<F: Fn(f64, f64, f64) -> Point>(c: &[f64; 256], x: f64, y: f64, from: F) -> Point
    requires { F.IsAlwaysCallable from }
    ensures { Barrel.ByRadius (F.post from) c.now x y result }
{
    let dx = from_centre(x, c[4], c[6]);
    let dy = from_centre(y, c[5], c[6]);
    from(dy, dx, root(radius_squared(dx, dy)))
}

pub fn barrel(c: &[f64; 256], x: f64, y: f64) -> Point
    ensures { result ≡ Barrel.barrel c.now x y }
{
    by_radius(c, x, y, |dy, dx, r| barrel_from(c, dy, dx, r))
}

pub fn barrel_inverse(c: &[f64; 256], x: f64, y: f64) -> Point
    ensures { result ≡ Barrel.barrel_inverse c.now x y }
{
    by_radius(c, x, y, |dy, dx, r| barrel_inverse_from(c, dy, dx, r))
}
