// The weighted mean of a square of taps, row by row. Assumes that the point's coordinates are at most 2^30 + 1 in
// magnitude.
ghost use Rattle.std.specs.Prelude.{◌≡◌, ◌*◌, ◌≤◌, ◌<◌};
ghost use Rattle.taps.specs.Cell.{Reached};
ghost use Rattle.taps.specs.Sampler.{plane_of};
ghost use Rattle.sampler.specs.Interpolate as Interpolate;
ghost use Rattle.taps.specs.Taps.{taps};
ghost use Rattle.taps.specs.Weighted.{lined, weighted};

use picture::colour::Rgba;
use taps::cell::{Cell, fraction};
use taps::interpolation::Interpolation;
use taps::sampler::Sampler;
use taps::weighted::{Sums, added, mean, nothing};

// The sums with a row of taps added, the row numbered j of n by n.
fn line(s: Sampler, cell: Cell, n: usize, j: usize, weight: &[f32; 16], start: Sums) -> Sums
    requires { (j < n) × (n ≤ 4) }
    ensures { result ≡ lined
        (taps (plane_of s.entry) (record { column = cell.column; row = cell.row }) n) weight.now n j start }
{
    let mut sums = start;
    for i in 0..n {
        sums = added(s.nearby(cell, i, j), weight[j * n + i], sums);
    }
    sums
}

// The weighted mean of the n by n taps from a cell on.
fn mean_of_taps(s: Sampler, cell: Cell, n: usize, weight: &[f32; 16]) -> Rgba
    requires { n ≤ 4 }
    ensures { result ≡ weighted
        (taps (plane_of s.entry) (record { column = cell.column; row = cell.row }) n) weight.now (n * n) }
{
    let mut sums = nothing();
    for j in 0..n {
        sums = line(s, cell, n, j, weight, sums);
    }
    mean(sums)
}

// Every interpolation that weighs several taps.
pub fn several(s: Sampler, i: Interpolation, x: f64, y: f64) -> Rgba
    requires { Reached x × Reached y }
    ensures { result ≡ Interpolate.several i (plane_of s.entry) x y }
{
    let weight = i.weights(fraction(x), fraction(y));
    mean_of_taps(s, i.cell(x, y), i.side(), &weight)
}
