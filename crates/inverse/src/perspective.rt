// Perspective: two sums over a third. Assumes nothing.
ghost use Rattle.std.specs.Prelude.{◌≡◌};
ghost use Rattle.inverse.specs.Perspective as Perspective;

use number::magnitude::LEAST_DIVISOR;
use point::point::Point;
use point::usable::point_unless;

#[tactic(auto, unfolding(crate::specs::Perspective::perspective))]
pub fn perspective(m: &[f64; 256], x: f64, y: f64) -> Point
    ensures { result ≡ Perspective.perspective m.now x y }
{
    let wq = m[6] * x + m[7] * y + m[8];
    point_unless(
        wq <= LEAST_DIVISOR,
        (m[0] * x + m[1] * y + m[2]) / wq,
        (m[3] * x + m[4] * y + m[5]) / wq,
    )
}
