// The makers of the two affine methods. Assumes that no argument stands before the pairs.
ghost use Rattle.std.specs.Prelude.{◌≡◌, ◌≤◌, Ok};
ghost use Rattle.fit.specs.Affine as Maker;
ghost use Rattle.mappings.specs.Mapping.{fitted_by};

use crate::lstsq::{Sides, fit_both, fit_twin};
use arguments::method::Affine;
use linear::invert::invert_affine;
use mappings::mapping::{Kind, Mapping};
use mappings::pairs::Pairs;
use mappings::rows::{Terms, Twin};
use refusals::Refusal;

// The arguments are a forward map, column by column.
pub fn fit_affine_projection(values: &[f64; 257]) -> Result<Mapping, Refusal>
    ensures { fitted_by result ≡ Maker.fit_affine_projection values.now }
{
    let fwd = [
        values[0], values[2], values[4], values[1], values[3], values[5],
    ];
    let m = invert_affine(fwd).ok_or(Refusal::Degenerate)?;
    Ok(Mapping::new(Kind::Affine, 0, &m))
}

// One pair.
#[tactic(auto, unfolding(crate::specs::Affine::shift))]
fn shift(pairs: &Pairs) -> Mapping
    requires { (pairs.now.skip ≡ 0) × (1 ≤ pairs.now.count) }
    ensures { fitted_by (Ok result) ≡ Maker.shift pairs.now.values.now }
{
    let p = pairs.at(0);
    let m = [1.0, 0.0, p.u - p.x, 0.0, 1.0, p.v - p.y];
    Mapping::new(Kind::Affine, 0, &m)
}

// Two pairs: u = a x - b y + c, v = b x + a y + d.
fn similarity(pairs: &Pairs) -> Result<Mapping, Refusal>
    requires { (pairs.now.skip ≡ 0) × (pairs.now.count ≡ 2) }
    ensures { fitted_by result ≡ Maker.similarity pairs.now.values.now }
{
    let x = fit_twin(pairs, Twin::Similarity, Affine::terms(2) as usize).ok_or(
        Refusal::Degenerate,
    )?;
    let m = [x[0], -x[1], x[2], x[1], x[0], x[3]];
    Ok(Mapping::new(Kind::Affine, 0, &m))
}

#[tactic(auto, unfolding(crate::specs::Affine::fit_affine))]
pub fn fit_affine(pairs: &Pairs) -> Result<Mapping, Refusal>
    requires { pairs.now.skip ≡ 0 }
    ensures { fitted_by result ≡ Maker.fit_affine pairs.now.values.now pairs.now.count }
{
    match pairs.count {
        1 => Ok(shift(pairs)),
        2 => similarity(pairs),
        n => fit_both(
            pairs,
            Terms::Affine,
            Sides::U_AND_V,
            Affine::terms(n as u64) as usize,
            Kind::Affine,
            0,
        ),
    }
}
