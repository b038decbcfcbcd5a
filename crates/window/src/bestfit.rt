// `bestfit`: the box around the picture's corners in the output, where the mapping is affine or a homography and can be
// inverted; else none. Assumes nothing.
ghost use Rattle.std.specs.Prelude.{◌≡◌};
ghost use Rattle.window.specs.Bestfit as Bestfit;

use crate::corners::{affine_edges, any_lost, perspective_edges};
use crate::edges::Edges;
use linear::invert::{invert_affine, invert3};
use mappings::mapping::{Kind, Mapping};

#[tactic(auto, unfolding(crate::specs::Bestfit::affine_found))]
fn affine_box(m: &[f64; 256], w: f64, h: f64) -> Option<Edges>
    ensures { result ≡ Bestfit.affine_box m.now w h }
{
    let f = invert_affine([m[0], m[1], m[2], m[3], m[4], m[5]])?;
    Some(affine_edges(&f, w, h))
}

#[tactic(auto, unfolding(crate::specs::Bestfit::perspective_found))]
fn perspective_box(m: &[f64; 256], w: f64, h: f64) -> Option<Edges>
    ensures { result ≡ Bestfit.perspective_box m.now w h }
{
    let f = invert3([m[0], m[1], m[2], m[3], m[4], m[5], m[6], m[7], m[8]])?;
    if any_lost(&f, w, h) {
        return None;
    }
    Some(perspective_edges(&f, w, h))
}

#[tactic(auto, unfolding(crate::specs::Bestfit::bestfit))]
pub fn bestfit(mapping: &Mapping, w: f64, h: f64) -> Option<Edges>
    ensures { result ≡ Bestfit.bestfit mapping.now.kind mapping.now.coef w h }
{
    match mapping.kind {
        Kind::Affine => affine_box(&mapping.coef, w, h),
        Kind::Perspective => perspective_box(&mapping.coef, w, h),
        _ => None,
    }
}
