// The makers of the two perspective methods. Assumes that no argument stands before the pairs.
ghost use Rattle.std.specs.Prelude.{◌≡◌, ◌≤◌};
ghost use Rattle.fit.specs.Perspective.{mean_of_side, projected};
ghost use Rattle.fit.specs.Perspective as Maker;
ghost use Rattle.mappings.specs.Mapping.{fitted_by};

use crate::lstsq::fit_twin;
use crate::orient::orient;
use arguments::method::Perspective;
use linear::invert::invert3;
use mappings::mapping::{Kind, Mapping};
use mappings::pairs::Pairs;
use mappings::rows::{Side, Twin, side_of};
use refusals::Refusal;

// Where row k of a homography's numerators takes (u, v).
fn projected(m: &[f64; 9], k: usize, u: f64, v: f64) -> f64
    requires { k ≤ 6 }
    ensures { result ≡ projected m.now k u v }
{
    (m[k] * u + m[k + 1] * v + m[k + 2]) / (m[6] * u + m[7] * v + 1.0)
}

// The arguments are a forward map. The picture's centre is on the visible side.
pub fn fit_perspective_projection(values: &[f64; 257], w: f64, h: f64) -> Result<Mapping, Refusal>
    ensures { fitted_by result ≡ Maker.fit_perspective_projection values.now w h }
{
    let fwd = [
        values[0], values[1], values[2], values[3], values[4], values[5], values[6], values[7], 1.0,
    ];
    let back = invert3(fwd).ok_or(Refusal::Degenerate)?;
    let u = w / 2.0;
    let v = h / 2.0;
    let rx = projected(&fwd, 0, u, v);
    let ry = projected(&fwd, 3, u, v);
    let m = orient(back, rx, ry);
    Ok(Mapping::new(Kind::Perspective, 0, &m))
}

// The mean of one side of the pairs, each divided before it is added.
fn mean_of_side(pairs: &Pairs, side: Side) -> f64
    requires { pairs.now.skip ≡ 0 }
    ensures { result ≡ mean_of_side pairs.now.values.now pairs.now.count side }
{
    let n = std::num::nearest_u64_to_f64(pairs.count as u64);
    let mut sum = 0.0;
    for j in 0..pairs.count {
        sum = sum + side_of(side, pairs.at(j)) / n;
    }
    sum
}

pub fn fit_perspective(pairs: &Pairs) -> Result<Mapping, Refusal>
    requires { pairs.now.skip ≡ 0 }
    ensures { fitted_by result ≡ Maker.fit_perspective pairs.now.values.now pairs.now.count }
{
    let c = fit_twin(pairs, Twin::Perspective, Perspective::TERMS as usize).ok_or(
        Refusal::Degenerate,
    )?;
    let rx = mean_of_side(pairs, Side::OfX);
    let ry = mean_of_side(pairs, Side::OfY);
    let m = orient(
        [c[0], c[1], c[2], c[3], c[4], c[5], c[6], c[7], 1.0],
        rx,
        ry,
    );
    Ok(Mapping::new(Kind::Perspective, 0, &m))
}
