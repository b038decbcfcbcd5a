// The fit: from a method, the caller's arguments and the picture's size to the mapping, or to a refusal from 3 to 8.
// Assumes nothing.
ghost use Rattle.std.specs.Prelude.{◌≡◌, ◌≤◌};
ghost use Rattle.exact.specs.Limits.{most_pairs};
ghost use Rattle.exact.specs.Vector.{at};
ghost use Rattle.arguments.specs.Method.{code_of};
ghost use Rattle.arguments.specs.Refusal.{pairs_in};
ghost use Rattle.fit.specs.Build.{made};
ghost use Rattle.fit.specs.Build as Build;
ghost use Rattle.mappings.specs.Mapping.{fitted_by};

use crate::affine::{fit_affine, fit_affine_projection};
use crate::barrel::fit_barrel;
use crate::lstsq::{Sides, fit_both};
use crate::perspective::{fit_perspective, fit_perspective_projection};
use crate::polynomial::fit_polynomial;
use crate::shepards::fit_shepards;
use arguments::code::Method;
use arguments::method::{BilinearForward, BilinearReverse};
use arguments::refusal::{arguments_refusal, pairs_in};
use arguments::store::{Store, fill};
use mappings::mapping::{Kind, Mapping};
use mappings::pairs::Pairs;
use mappings::rows::Terms;
use refusals::Refusal;

// Each method's maker, for arguments that no refusal from 3 to 7 keeps away.
#[tactic(auto, unfolding(crate::specs::Build::made, arguments::specs::Method::skip))]
fn made(method: Method, store: &Store, w: f64, h: f64) -> Result<Mapping, Refusal>
    requires { pairs_in (code_of method) store.now.count ≤ most_pairs }
    ensures { fitted_by result ≡ made (code_of method) store.now.values store.now.count
        (pairs_in (code_of method) store.now.count) (at store.now.values 0) w h }
{
    let values = &store.values;
    let skip = method.skip() as usize;
    let count = pairs_in(method.code(), store.count as u64) as usize;
    let pairs = &Pairs {
        values,
        skip,
        count,
    };
    match method {
        Method::Affine => fit_affine(pairs),
        Method::AffineProjection => fit_affine_projection(values),
        Method::Perspective => fit_perspective(pairs),
        Method::PerspectiveProjection => fit_perspective_projection(values, w, h),
        Method::BilinearReverse => fit_both(
            pairs,
            Terms::Polynomial(0),
            Sides::U_AND_V,
            BilinearReverse::TERMS as usize,
            Kind::Poly,
            0,
        ),
        Method::BilinearForward => fit_both(
            pairs,
            Terms::Forward,
            Sides::X_AND_Y,
            BilinearForward::TERMS as usize,
            Kind::BilinearForward,
            0,
        ),
        Method::Polynomial => fit_polynomial(pairs, values[0]),
        Method::Barrel => Ok(fit_barrel(store, w, h, Kind::Barrel)),
        Method::BarrelInverse => Ok(fit_barrel(store, w, h, Kind::BarrelInverse)),
        Method::Shepards => Ok(fit_shepards(pairs)),
    }
}

pub fn build(method: u64, arguments: &[u8], width: u64, height: u64) -> Result<Mapping, Refusal>
    ensures { fitted_by result ≡ Build.build method arguments.now width height }
{
    let method = arguments_refusal(method, arguments)?;
    let w = std::num::nearest_u64_to_f64(width);
    let h = std::num::nearest_u64_to_f64(height);
    made(method, &fill(arguments), w, h)
}
