// `Catrom` and `Spline`: where the four by four taps lie inside they are read straight from the bytes, row by row, and
// no policy is asked. Assumes that the point's coordinates are at most 2^30 + 1 in magnitude.
ghost use Rattle.std.specs.Prelude.{◌≡◌};
ghost use Rattle.taps.specs.Cell.{Reached};
ghost use Rattle.taps.specs.Interpolation.{Cubic, code_of};
ghost use Rattle.sampler.specs.Sampled.{sampled};
ghost use Rattle.sampler.specs.Sixteen.{kernel_of};

use crate::fast_four_by_four::four_by_four;
use crate::several::several;
use cubic::cubic::{Catrom, Spline, weights_by};
use endian::pattern::bits_of_i64;
use picture::colour::Rgba;
use picture::shape::side_less;
use taps::cell::{before, below, fraction};
use taps::interpolation::Interpolation;
use taps::sampler::Sampler;

// The weights of a column or a row, by the interpolation.
fn kernel_of(i: Interpolation, t: f32) -> [f32; 4]
    ensures { result ≡ kernel_of (code_of i) t }
{
    match i {
        Interpolation::Catrom => weights_by::<Catrom>(t),
        _ => weights_by::<Spline>(t),
    }
}

// A square of four that lies inside starts before the side less three.
pub fn cubic(s: Sampler, interpolation: Interpolation, x: f64, y: f64) -> Rgba
    requires reached { Reached x × Reached y }
    requires cubic { Cubic (code_of interpolation) }
    ensures { result ≡ sampled s.entry interpolation x y }
{
    let p = s.picture;
    let i = bits_of_i64(before(below(x)));
    let j = bits_of_i64(before(below(y)));
    if i < side_less(p.width, 3) && j < side_less(p.height, 3) {
        let wx = kernel_of(interpolation, fraction(x));
        let wy = kernel_of(interpolation, fraction(y));
        return four_by_four(p, i, j, &wx, &wy);
    }
    several(s, interpolation, x, y)
}
