// Least squares over the pairs of the store: one row a pair, or two. Assumes that there are at most 21 unknowns.
ghost use Rattle.std.specs.Prelude.{◌≡◌, ◌≤◌, Some, None};
ghost use Rattle.fit.specs.Fit.{fit_one, fit_twin};
ghost use Rattle.fit.specs.Fit as Fit;
ghost use Rattle.mappings.specs.Mapping.{fitted_by};

use linear::equations::Equations;
use mappings::mapping::{Kind, Mapping};
use mappings::pairs::Pairs;
use mappings::rows;
use mappings::rows::{Side, Terms, Twin};
use refusals::Refusal;

// One row a pair.
pub fn fit_one(pairs: &Pairs, terms: Terms, side: Side, n: usize) -> Option<[f64; 21]>
    requires { n ≤ 21 }
    ensures { result ≡ fit_one pairs.now.values.now pairs.now.skip pairs.now.count terms side n }
{
    let mut equations = Equations::new(n);
    for j in 0..pairs.count {
        let p = pairs.at(j);
        equations.add_row(&rows::row(terms, p), rows::side_of(side, p));
    }
    equations.solve()
}

// Two rows a pair: u and v share the unknowns.
pub fn fit_twin(pairs: &Pairs, twin: Twin, n: usize) -> Option<[f64; 21]>
    requires { (pairs.now.skip ≡ 0) × (n ≤ 21) }
    ensures { result ≡ fit_twin pairs.now.values.now pairs.now.count twin n }
{
    let mut equations = Equations::new(n);
    for j in 0..pairs.count {
        let p = pairs.at(j);
        equations.add_row(&rows::first_row(twin, p), p.u);
        equations.add_row(&rows::second_row(twin, p), p.v);
    }
    equations.solve()
}

// The two sides of a pair that the same terms are fitted to.
#[derive(Clone, Copy)]
pub struct Sides {
    pub first: Side,
    pub second: Side,
}

impl Sides {
    // For a mapping that goes back to the picture.
    pub const U_AND_V: Sides = Sides {
        first: Side::OfU,
        second: Side::OfV,
    };

    // For one that goes forward.
    pub const X_AND_Y: Sides = Sides {
        first: Side::OfX,
        second: Side::OfY,
    };
}

// The same terms fitted to two sides: the coefficients of the one, then those of the other.
pub fn fit_both(
    pairs: &Pairs,
    terms: Terms,
    sides: Sides,
    n: usize,
    kind: Kind,
    order: u64,
) -> Result<Mapping, Refusal>
    requires { n ≤ 21 }
    ensures { fitted_by result
        ≡ Fit.fit_both pairs.now.values.now pairs.now.skip pairs.now.count terms sides n kind order }
{
    let xs = fit_one(pairs, terms, sides.first, n).ok_or(Refusal::Degenerate)?;
    let ys = fit_one(pairs, terms, sides.second, n).ok_or(Refusal::Degenerate)?;
    Ok(Mapping::of_two(kind, order, &xs[..n], &ys[..n]))
}
