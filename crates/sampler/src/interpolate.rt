// The colour at a source point, by the interpolation: one tap alone, the weighted mean of several, or the background.
// Assumes that the point can be used.
ghost use Rattle.std.specs.Prelude.{◌≡◌, true};
ghost use Rattle.exact.specs.Double.{◌⊖◌};
ghost use Rattle.exact.specs.Warp.{half};
ghost use Rattle.point.specs.Point as Points;
ghost use Rattle.taps.specs.Cell.{Reached, cell};
ghost use Rattle.taps.specs.Sampler.{plane_of};
ghost use Rattle.sampler.specs.Interpolate as Interpolate;
ghost use Rattle.sampler.specs.Sampled.{sampled};

use crate::apart::apart;
use crate::fast_bilinear::bilinear;
use crate::fast_sixteen::cubic;
use crate::several::several;
use picture::colour::Rgba;
use picture::picture::Picture;
use point::point::Point;
use policies::policy::Policy;
use taps::interpolation::Interpolation;
use taps::sampler::Sampler;

// One tap alone.
fn single_tap(s: Sampler, i: Interpolation, x: f64, y: f64) -> Rgba
    requires { Reached x × Reached y }
    ensures { result ≡ Interpolate.single_tap (plane_of s.entry) (cell i x y) }
{
    s.at(i.first(x), i.first(y))
}

// At a point of index space, whose coordinates are at most 2^30 + 1 in magnitude.
pub fn interpolate_at(s: Sampler, i: Interpolation, x: f64, y: f64) -> Rgba
    requires { Reached x × Reached y }
    ensures { result ≡ sampled s.entry i x y }
{
    match i {
        Interpolation::Integer | Interpolation::Nearest => single_tap(s, i, x, y),
        Interpolation::Catrom | Interpolation::Spline => apart(cubic(s, i, x, y)),
        Interpolation::Average | Interpolation::Average9 | Interpolation::Average16 => {
            apart(several(s, i, x, y))
        }
        Interpolation::Bilinear => apart(bilinear(s, x, y)),
        Interpolation::Background => s.background,
    }
}

// At a source point: half a pixel back it is in index space. By the codes of the policy and of the interpolation, as
// the definition has them; another code, with which no call is accepted, counts as the last.
pub fn interpolate(picture: Picture, policy: u64, code: u64, background: Rgba, p: Point) -> Rgba
    requires { (p.usable ≡ true) × Points.Whole p }
    ensures { result ≡ Interpolate.interpolate picture.entry.bytes.now picture.entry.width picture.entry.height
        picture.entry.channels policy code background (p.u ⊖ half) (p.v ⊖ half) }
{
    let policy = Policy::of_code(policy);
    let s = Sampler {
        picture,
        policy,
        background,
    };
    interpolate_at(s, Interpolation::of_code(code), p.u - 0.5, p.v - 0.5)
}

// The same of a sampler.
pub fn interpolate_point(s: Sampler, i: Interpolation, p: Point) -> Rgba
    requires { (p.usable ≡ true) × Points.Whole p }
    ensures { result ≡ sampled s.entry i (p.u ⊖ half) (p.v ⊖ half) }
{
    interpolate(s.picture, s.policy.code(), i.code(), s.background, p)
}
