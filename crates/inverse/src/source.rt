// The source point, by the mapping's kind; Nothing has none. Assumes nothing.
ghost use Rattle.std.specs.Prelude.{◌≡◌};
ghost use Rattle.inverse.specs.Inverse as Inverse;

use crate::affine::affine;
use crate::barrel::{barrel, barrel_inverse};
use crate::forward::bilinear_forward;
use crate::perspective::perspective;
use crate::polynomial::polynomial;
use crate::shepards::shepards;
use mappings::mapping::{Kind, Mapping};
use point::point::Point;
use point::usable::none;

#[tactic(auto, unfolding(crate::specs::Inverse::inverse))]
pub fn inverse(mapping: &Mapping, x: f64, y: f64) -> Point
    ensures { result ≡ Inverse.inverse mapping.now.kind mapping.now.order mapping.now.count mapping.now.coef x y }
{
    let coef = &mapping.coef;
    match mapping.kind {
        Kind::Nothing => none(),
        Kind::Affine => affine(coef, x, y),
        Kind::Perspective => perspective(coef, x, y),
        Kind::Poly => polynomial(mapping.order, coef, x, y),
        Kind::BilinearForward => bilinear_forward(coef, x, y),
        Kind::Barrel => barrel(coef, x, y),
        Kind::BarrelInverse => barrel_inverse(coef, x, y),
        Kind::Shepards => shepards(mapping.count, coef, x, y),
    }
}
