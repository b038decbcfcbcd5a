// The maker of the polynomial, whose terms are monomials. Assumes nothing.
ghost use Rattle.std.specs.Prelude.{◌≡◌};
ghost use Rattle.fit.specs.Polynomial as Maker;
ghost use Rattle.mappings.specs.Mapping.{fitted_by};

use crate::lstsq::{Sides, fit_both};
use arguments::method::Polynomial;
use mappings::mapping::{Kind, Mapping};
use mappings::pairs::Pairs;
use mappings::rows::Terms;
use refusals::Refusal;

// The pairs come after the order; the mapping has its degree, 0 for the terms 1, x, y, xy.
pub fn fit_polynomial(pairs: &Pairs, order: f64) -> Result<Mapping, Refusal>
    requires { pairs.now.skip ≡ 1 }
    ensures { fitted_by result ≡ Maker.fit_polynomial pairs.now.values.now pairs.now.count order }
{
    let degree = Polynomial::degree(order);
    fit_both(
        pairs,
        Terms::Polynomial(degree),
        Sides::U_AND_V,
        Polynomial::terms(order) as usize,
        Kind::Poly,
        degree,
    )
}
