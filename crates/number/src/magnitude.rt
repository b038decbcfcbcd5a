// Magnitudes: `abs`, `min` and `max` as Rust's f64 methods, and the comparison behind the choice of a pivot.
// Assumes nothing.
ghost use Rattle.std.specs.Prelude.{◌≡◌};
ghost use Rattle.number.specs.Magnitude as Magnitude;
ghost use Rattle.number.specs.Magnitude.{fmin, fmax, reaching};

// What is below it in magnitude is too small to divide by.
pub const LEAST_DIVISOR: f64 = 1e-12;

// A float, of either format, that has a magnitude.
pub trait Signed: Copy {
    ghost cleared: { Self → Self };

    fn cleared(self) -> Self
        ensures { result ≡ cleared self };
}

// In this form the compiler finds the one instruction for it; for `f64::abs` and `f32::abs` it makes a jump.
impl Signed for f64 {
    ghost cleared = { Magnitude.abs };

    fn cleared(self) -> f64 {
        if self <= 0.0 { 0.0 - self } else { self }
    }
}

impl Signed for f32 {
    ghost cleared = { Magnitude.abs };

    fn cleared(self) -> f32 {
        if self <= 0.0 { 0.0 - self } else { self }
    }
}

// x with its sign cleared.
pub fn abs<T: Signed>(x: T) -> T
    ensures { result ≡ T.cleared x }
{
    x.cleared()
}

// The lesser of x and y; a NaN is passed over. Of two equal zeros it is x, where the library leaves open which.
#[tactic(auto, unfolding(crate::specs::Magnitude::fmin))]
pub fn min(x: f64, y: f64) -> f64
    ensures { result ≡ fmin x y }
{
    if x.is_nan() {
        return y;
    }
    if y < x { y } else { x }
}

// The greater of x and y; a NaN is passed over, and of two equal zeros it is x, too.
#[tactic(auto, unfolding(crate::specs::Magnitude::fmax))]
pub fn max(x: f64, y: f64) -> f64
    ensures { result ≡ fmax x y }
{
    if x.is_nan() {
        return y;
    }
    if x < y { y } else { x }
}

// Whether `next` takes the place of `best` in the search for the largest magnitude, the last among equals.
#[tactic(auto, unfolding(crate::specs::Magnitude::reaching))]
pub fn reaches(best: f64, next: f64) -> bool
    ensures { result ≡ reaching best next }
{
    if next.is_nan() {
        return true;
    }
    abs(best) <= abs(next)
}
