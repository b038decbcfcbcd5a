// BilinearForward: Newton's steps from the output point to the source point. Assumes nothing.
ghost use Rattle.std.specs.Prelude.{◌≡◌};
ghost use Rattle.inverse.specs.Forward as Forward;

use number::magnitude::{LEAST_DIVISOR, abs};
use point::point::Point;
use point::usable::{none, point};

const MOST_STEPS: u64 = 30;

// A step that moves less than this in both together is the last.
const LAST_STEP: f64 = 1e-9;

// The loop yields the point, or none.
pub fn bilinear_forward(c: &[f64; 256], x: f64, y: f64) -> Point
    ensures { result ≡ Forward.bilinear_forward c.now x y }
{
    let mut u = x;
    let mut v = y;
    let mut steps = 0u64;
    loop {
        if steps >= MOST_STEPS {
            break point(u, v);
        }
        let fx = c[0] + c[1] * u + c[2] * v + c[3] * u * v - x;
        let fy = c[4] + c[5] * u + c[6] * v + c[7] * u * v - y;
        let j00 = c[1] + c[3] * v;
        let j01 = c[2] + c[3] * u;
        let j10 = c[5] + c[7] * v;
        let j11 = c[6] + c[7] * u;
        let det = j00 * j11 - j01 * j10;
        if abs(det) < LEAST_DIVISOR {
            break none();
        }
        let du = (fx * j11 - fy * j01) / det;
        let dv = (fy * j00 - fx * j10) / det;
        u = u - du;
        v = v - dv;
        if abs(du) + abs(dv) < LAST_STEP {
            break point(u, v);
        }
        steps = steps + 1;
    }
}
