// The maker of the two barrel methods, whose arguments from the fourth on have defaults. Assumes nothing.
ghost use Rattle.std.specs.Prelude.{◌≡◌, ◌<◌};
ghost use Rattle.exact.specs.Limits.{most_arguments};
ghost use Rattle.fit.specs.Barrel.{given_or};
ghost use Rattle.fit.specs.Barrel as Maker;
ghost use Rattle.mappings.specs.Mapping.{fitted};

use arguments::store::Store;
use mappings::mapping::{Kind, Mapping};
use number::magnitude::min;

// args.get(k), or else what stands for it.
#[tactic(auto, unfolding(crate::specs::Barrel::given_or))]
fn given_or(store: &Store, k: usize, other: f64) -> f64
    requires { k < most_arguments }
    ensures { result ≡ given_or store.now.values store.now.count k other }
{
    if k < store.count {
        store.values[k]
    } else {
        other
    }
}

#[tactic(auto, unfolding(crate::specs::Barrel::fit_barrel))]
pub fn fit_barrel(store: &Store, w: f64, h: f64, kind: Kind) -> Mapping
    ensures { fitted result ≡ Maker.fit_barrel store.now.values store.now.count w h kind }
{
    let a = store.values[0];
    let b = store.values[1];
    let c = store.values[2];
    let d = given_or(store, 3, 1.0 - (a + b + c));
    let cx = given_or(store, 4, w / 2.0);
    let cy = given_or(store, 5, h / 2.0);
    let norm = min(w, h) / 2.0;
    Mapping::new(kind, 0, &[a, b, c, d, cx, cy, norm])
}
