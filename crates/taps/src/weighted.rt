// The weighted mean of taps, colours weighted by alpha, so that clear taps leave no dark fringes. Sums that grow by one
// tap at a time, and their quotients; a caller with few taps needs no array of them. Assumes that at most sixteen taps
// are counted.
ghost use Rattle.std.specs.Prelude.{◌≡◌, ◌≤◌};
ghost use Rattle.taps.specs.Weighted as Weighted;

use number::magnitude::abs;
use picture::colour::Rgba;

// The Rust's `acc` and `wsum`.
#[derive(Clone, Copy)]
pub struct Sums {
    pub r: f32,
    pub g: f32,
    pub b: f32,
    pub a: f32,
    pub weight: f32,
}

pub fn nothing() -> Sums
    ensures { result ≡ Weighted.nothing }
{
    Sums {
        r: 0.0,
        g: 0.0,
        b: 0.0,
        a: 0.0,
        weight: 0.0,
    }
}

pub fn added(p: Rgba, w: f32, s: Sums) -> Sums
    ensures { result ≡ Weighted.added p w s }
{
    Sums {
        r: s.r + w * p.r * p.a,
        g: s.g + w * p.g * p.a,
        b: s.b + w * p.b * p.a,
        a: s.a + w * p.a,
        weight: s.weight + w,
    }
}

// The division comes before the test, which then is a choice and no branch: so four quotients are worked out side by
// side.
fn quotient(x: f32, y: f32) -> f32
    ensures { result ≡ Weighted.quotient x y }
{
    let q = x / y;
    if abs(y) > 1e-9 { q } else { 0.0 }
}

pub fn mean(s: Sums) -> Rgba
    ensures { result ≡ Weighted.mean s }
{
    Rgba {
        r: quotient(s.r, s.a),
        g: quotient(s.g, s.a),
        b: quotient(s.b, s.a),
        a: quotient(s.a, s.weight),
    }
}

// Over the first `count` taps. The index counts taps and weights as the definition does; a zip of both slices was tried
// and leaves three goals that this loop does not have.
pub fn weighted(taps: [Rgba; 16], weights: [f32; 16], count: usize) -> Rgba
    requires { count ≤ 16 }
    ensures { result ≡ Weighted.weighted taps weights count }
{
    let mut s = nothing();
    for k in 0..count {
        s = added(taps[k], weights[k], s);
    }
    mean(s)
}
