// Affine: two sums of three terms. Assumes nothing.
ghost use Rattle.std.specs.Prelude.{◌≡◌};
ghost use Rattle.inverse.specs.Affine as Affine;

use point::point::Point;
use point::usable::point;

pub fn affine(m: &[f64; 256], x: f64, y: f64) -> Point
    ensures { result ≡ Affine.affine m.now x y }
{
    point(m[0] * x + m[1] * y + m[2], m[3] * x + m[4] * y + m[5])
}
