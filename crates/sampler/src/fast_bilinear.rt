// The four taps of `Bilinear`, in a cell inside the picture or in any. Assumes that the point's coordinates are at most
// 2^30 + 1 in magnitude.
ghost use Rattle.std.specs.Prelude.{◌≡◌, [], ◌∷◌, ◌+◌, ◌<◌};
ghost use Rattle.exact.specs.Weighted.{Unit32};
ghost use Rattle.sampler.specs.Interpolate as Interpolate;
ghost use Rattle.sampler.specs.TwoByTwo.{cell_colour};
ghost use Rattle.taps.specs.Cell.{Reached};
ghost use Rattle.taps.specs.declared.interpolation.Interpolation.TheVariants.{Bilinear};
ghost use Rattle.taps.specs.Sampler.{plane_of};
ghost use Rattle.taps.specs.Taps.{taps};
ghost use Rattle.taps.specs.Weighted.{weighted};
ghost use Rattle.taps.specs.Weights.{four_weights, weights};

use crate::fast_two_by_two::mixed;
use endian::pattern::bits_of_i64;
use picture::colour::Rgba;
use picture::picture::Picture;
use taps::cell::{Cell, below, fraction};
use taps::sampler::Sampler;
use taps::weighted::{added, mean, nothing};
use taps::weights::bilinear_weights;

// The weighted mean of the four taps of `Bilinear`.
fn blended(a: Rgba, b: Rgba, c: Rgba, d: Rgba, tx: f32, ty: f32) -> Rgba
    ensures { result ≡ weighted (a ∷ b ∷ c ∷ d ∷ []) (four_weights tx ty) 4 }
{
    let w = bilinear_weights(tx, ty);
    let s = added(b, w.w10, added(a, w.w00, nothing()));
    mean(added(d, w.w11, added(c, w.w01, s)))
}

// The four taps of a cell that lies inside, which no policy is asked for.
fn inside_cell(picture: Picture, i: u64, j: u64, tx: f32, ty: f32) -> Rgba
    requires i_bound { (i + 1 < picture.width) × (j + 1 < picture.height) }
    requires unit32 { Unit32 tx × Unit32 ty }
    ensures { result ≡ cell_colour picture.entry.bytes.now picture.entry.width picture.entry.channels i j tx ty }
{
    mixed(picture, picture.channels, i, j, bilinear_weights(tx, ty))
}

// Those of any cell.
pub fn anywhere(s: Sampler, cell: Cell, tx: f32, ty: f32) -> Rgba
    ensures { result ≡ weighted (taps (plane_of s.entry) (record { column = cell.column; row = cell.row }) 2)
        (weights Bilinear tx ty) 4 }
{
    blended(
        s.tap(cell, 0, 0),
        s.tap(cell, 1, 0),
        s.tap(cell, 0, 1),
        s.tap(cell, 1, 1),
        tx,
        ty,
    )
}

// The four taps around a point, from its cell on.
fn around_cell(s: Sampler, cell: Cell, tx: f32, ty: f32) -> Rgba
    requires { Unit32 tx × Unit32 ty }
    ensures { result ≡ weighted (taps (plane_of s.entry) (record { column = cell.column; row = cell.row }) 2)
        (weights Bilinear tx ty) 4 }
{
    let p = s.picture;
    let i = bits_of_i64(cell.column);
    let j = bits_of_i64(cell.row);
    if i < p.width - 1 && j < p.height - 1 {
        return inside_cell(p, i, j, tx, ty);
    }
    anywhere(s, cell, tx, ty)
}

// The cell and the fraction of a coordinate one after the other, so that the compiler works out one floor for both.
pub fn bilinear(s: Sampler, x: f64, y: f64) -> Rgba
    requires { Reached x × Reached y }
    ensures { result ≡ Interpolate.several Bilinear (plane_of s.entry) x y }
{
    let column = below(x);
    let tx = fraction(x);
    let row = below(y);
    let ty = fraction(y);
    around_cell(s, Cell { column, row }, tx, ty)
}
