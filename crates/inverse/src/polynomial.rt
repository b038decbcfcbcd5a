// Polynomial and BilinearReverse: the monomials times their coefficients. Assumes nothing.
ghost use Rattle.std.specs.Prelude.{◌≡◌, ◌≤◌};
ghost use Rattle.mappings.specs.Monomials.{monomials};
ghost use Rattle.inverse.specs.Polynomial as Polynomial;

use mappings::monomials::monomials;
use point::point::Point;
use point::usable::point;

// Both sums in one loop: n coefficients of u, then n of v. A loop over three slices zipped reads no plainer.
fn dots(mono: &[f64; 21], coef: &[f64; 256], n: usize) -> Point
    requires { n ≤ 21 }
    ensures { result ≡ Polynomial.dots mono.now coef.now n }
{
    let mut u = 0.0;
    let mut v = 0.0;
    for k in 0..n {
        u = u + mono[k] * coef[k];
        v = v + mono[k] * coef[n + k];
    }
    point(u, v)
}

// How many monomials there are.
#[tactic(auto, unfolding(crate::specs::Polynomial::terms))]
fn terms(order: u64) -> usize
    ensures { result ≡ Polynomial.terms order }
{
    match order {
        0 => 4,
        1 => 3,
        2 => 6,
        3 => 10,
        4 => 15,
        _ => 21,
    }
}

pub fn polynomial(order: u64, coef: &[f64; 256], x: f64, y: f64) -> Point
    ensures { result ≡ Polynomial.polynomial order coef.now x y }
{
    let mono = monomials(order, x, y);
    dots(&mono, coef, terms(order))
}
