// Powers of an f64 for the exponents 0 to 5 that a polynomial's terms have. Assumes nothing.
ghost use Rattle.std.specs.Prelude.{◌≡◌};
ghost use Rattle.exact.specs.Power.{power};

// x to the n by repeated squaring; an n above 5 counts as 5.
pub fn powi(x: f64, n: u64) -> f64
    ensures { result ≡ power x n }
{
    if n == 0 {
        return 1.0;
    }
    if n == 1 {
        return x;
    }
    let x2 = x * x;
    if n == 2 {
        return x2;
    }
    if n == 3 {
        return x * x2;
    }
    let x4 = x2 * x2;
    if n == 4 {
        return x4;
    }
    x * x4
}
