// The least whole number that is not below x. The domain is floor's: outside it the answer is i64::MIN. Assumes nothing
// of x.
ghost use Rattle.std.specs.Prelude.{◌≡◌};
ghost use Rattle.window.specs.Ceil.{ceil_i64};

use number::floor::floor_i64;

pub fn ceil_i64(x: f64) -> i64
    ensures { result ≡ ceil_i64 x }
{
    let below = floor_i64(-x);
    if below == i64::MIN {
        return i64::MIN;
    }
    -below
}
