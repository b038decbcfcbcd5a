// The maker of Shepard's method, whose pairs are its coefficients. Assumes that no argument stands before them.
ghost use Rattle.std.specs.Prelude.{◌≡◌};
ghost use Rattle.fit.specs.Shepards as Maker;
ghost use Rattle.mappings.specs.Mapping.{fitted};

use mappings::mapping::{Kind, Mapping};
use mappings::pairs::Pairs;

#[tactic(auto, unfolding(crate::specs::Shepards::fit_shepards))]
pub fn fit_shepards(pairs: &Pairs) -> Mapping
    requires { pairs.now.skip ≡ 0 }
    ensures { fitted result ≡ Maker.fit_shepards pairs.now.values.now pairs.now.count }
{
    let values = pairs.values;
    Mapping::new(Kind::Shepards, 0, &values[..4 * pairs.count])
}
