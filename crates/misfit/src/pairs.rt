// The greatest misfit of a mapping over the pairs that it was fitted to. Assumes nothing.
ghost use Rattle.std.specs.Prelude.{◌≡◌, ◌≤◌};
ghost use Rattle.misfit.specs.Misfit.{bilinear_sum, farther, missed};
ghost use Rattle.misfit.specs.Misfit as Misfit;

use inverse::source::inverse;
use mappings::mapping::{Kind, Mapping};
use mappings::pair::Pair;
use mappings::pairs::Pairs;
use number::magnitude::{abs, max};

// Where the fit takes (u, v), by the four coefficients from place k on: 0 for x, 4 for y.
pub fn bilinear_sum(c: &[f64; 256], k: usize, u: f64, v: f64) -> f64
    requires { k ≤ 252 }
    ensures { result ≡ bilinear_sum c.now k u v }
{
    c[k] + c[k + 1] * u + c[k + 2] * v + c[k + 3] * u * v
}

// The greatest of `worst` and the distances from a to c and from b to d. A NaN is passed over.
fn farther(worst: f64, a: f64, b: f64, c: f64, d: f64) -> f64
    ensures { result ≡ farther worst a b c d }
{
    max(max(worst, abs(a - c)), abs(b - d))
}

// With one pair more. Where the mapping has no point, the point's coordinates are NaNs.
#[tactic(auto, unfolding(crate::specs::Misfit::missed))]
fn missed(mapping: &Mapping, p: Pair, worst: f64) -> f64
    ensures { result ≡ missed mapping.now.kind mapping.now.order mapping.now.count mapping.now.coef p worst }
{
    if mapping.kind == Kind::BilinearForward {
        let x = bilinear_sum(&mapping.coef, 0, p.u, p.v);
        let y = bilinear_sum(&mapping.coef, 4, p.u, p.v);
        return farther(worst, p.x, p.y, x, y);
    }
    let source = inverse(mapping, p.x, p.y);
    farther(worst, p.u, p.v, source.u, source.v)
}

// Over the pairs in their order.
pub fn misfit(mapping: &Mapping, pairs: &Pairs) -> f64
    ensures { result ≡ Misfit.misfit mapping.now pairs.now.values.now pairs.now.skip pairs.now.count }
{
    let mut worst = 0.0;
    for j in 0..pairs.count {
        worst = missed(mapping, pairs.at(j), worst);
    }
    worst
}
