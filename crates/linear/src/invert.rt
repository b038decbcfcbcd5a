// Inversions of the forward maps: of an affine one and of a homography (row-major 3 by 3); none where there is no
// inverse. Assumes nothing.
ghost use Rattle.std.specs.Prelude.{◌≡◌};
ghost use Rattle.linear.specs.Invert.{invert_affine};
ghost use Rattle.linear.specs.Invert as Invert;

use number::magnitude::{LEAST_DIVISOR, abs};

#[tactic(auto, unfolding(crate::specs::Invert::invert_affine))]
pub fn invert_affine(m: [f64; 6]) -> Option<[f64; 6]>
    ensures { result ≡ invert_affine m }
{
    let p = m[0];
    let q = m[1];
    let r = m[2];
    let s = m[3];
    let t = m[4];
    let u = m[5];
    let det = p * t - q * s;
    if abs(det) < LEAST_DIVISOR {
        return None;
    }
    let a = t / det;
    let b = -q / det;
    let c = -s / det;
    let d = p / det;
    Some([a, b, -(a * r + b * u), c, d, -(c * r + d * u)])
}

// The adjugate over the determinant: each entry times 1 / det.
fn adjugate(m: &[f64; 9], i: f64) -> [f64; 9]
    ensures { result ≡ Invert.adjugate m.now i }
{
    let a = m[0];
    let b = m[1];
    let c = m[2];
    let d = m[3];
    let e = m[4];
    let f = m[5];
    let g = m[6];
    let h = m[7];
    let j = m[8];
    [
        (e * j - f * h) * i,
        (c * h - b * j) * i,
        (b * f - c * e) * i,
        (f * g - d * j) * i,
        (a * j - c * g) * i,
        (c * d - a * f) * i,
        (d * h - e * g) * i,
        (b * g - a * h) * i,
        (a * e - b * d) * i,
    ]
}

fn det3(m: &[f64; 9]) -> f64
    ensures { result ≡ Invert.det3 m.now }
{
    let a = m[0];
    let b = m[1];
    let c = m[2];
    let d = m[3];
    let e = m[4];
    let f = m[5];
    let g = m[6];
    let h = m[7];
    let j = m[8];
    a * (e * j - f * h) - b * (d * j - f * g) + c * (d * h - e * g)
}

#[tactic(auto, unfolding(crate::specs::Invert::invert3))]
pub fn invert3(m: [f64; 9]) -> Option<[f64; 9]>
    ensures { result ≡ Invert.invert3 m }
{
    let det = det3(&m);
    if abs(det) < 1e-15 {
        return None;
    }
    Some(adjugate(&m, 1.0 / det))
}
