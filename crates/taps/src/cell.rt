// Where an interpolation places its taps for a point in index space, and the point's fractions. Assumes that the
// point's coordinates are at most 2^30 + 1 in magnitude, so that no floor has to test its domain.
ghost use Rattle.std.specs.Prelude.{◌≡◌, ◌≤◌, pos, ◌-ℤ◌};
ghost use Rattle.std.specs.Int.Signed.{mag};
ghost use Rattle.exact.specs.Limits.{farthest_floor, farthest_tap};
ghost use Rattle.number.specs.Floor.{floor_i64};
ghost use Rattle.taps.specs.Cell.{Reached, fraction, rounded, first};

use crate::interpolation::Interpolation;
use number::floor::{floor_i64_within, floor_within};
use number::narrow::narrow_number;

// How far the point lies beyond the whole number below it. It can round to 1.
pub fn fraction(x: f64) -> f32
    requires { Reached x }
    ensures { result ≡ fraction x }
{
    narrow_number(x - floor_within(x))
}

// The whole number below the point: the column or row of `Integer` and of `Bilinear`.
pub fn below(x: f64) -> i64
    requires { Reached x }
    ensures { result ≡ floor_i64 x }
{
    floor_i64_within(x)
}

// The whole number next to the point, halves up: that of `Nearest`.
pub fn rounded(x: f64) -> i64
    requires { Reached x }
    ensures { result ≡ rounded x }
{
    floor_i64_within(x + 0.5)
}

// The index one back: that of `Average16`, `Catrom` and `Spline` from the whole number below.
pub fn before(v: i64) -> i64
    requires { mag v ≤ farthest_floor }
    ensures { result ≡ v -ℤ pos 1 }
{
    v - 1
}

// The pair of whole numbers from which the taps are placed. Those of a point within reach are small.
#[derive(Clone, Copy)]
pub struct Cell {
    pub column: i64,
    pub row: i64,
    pub ghost near: { (mag column ≤ farthest_tap) × (mag row ≤ farthest_tap) },
}

impl Interpolation {
    // The first of the columns, or of the rows, that taps come from: both together are the cell.
    pub fn first(self, x: f64) -> i64
        requires { Reached x }
        ensures { result ≡ first self x }
    {
        match self {
            Interpolation::Nearest => rounded(x),
            Interpolation::Average9 => before(rounded(x)),
            Interpolation::Average16 | Interpolation::Catrom | Interpolation::Spline => before(
                below(x),
            ),
            Interpolation::Integer
            | Interpolation::Average
            | Interpolation::Bilinear
            | Interpolation::Background => below(x),
        }
    }

    pub fn cell(self, x: f64, y: f64) -> Cell
        requires { Reached x × Reached y }
        ensures { (result.column ≡ first self x) × (result.row ≡ first self y) }
    {
        Cell {
            column: self.first(x),
            row: self.first(y),
        }
    }
}
