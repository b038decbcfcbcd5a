// The cubic kernels' weights. Assumes nothing.
ghost use Rattle.std.specs.Prelude.{◌≡◌};
ghost use Rattle.cubic.specs.declared.cubic.CubicRow.{CubicRow};
ghost use Rattle.cubic.specs.Cubic as Cubic;
ghost use Rattle.cubic.specs.Cubic.{
  catrom_row,
  spline_row,
  distances_of,
  outer,
  between,
  middle,
  near_piece,
  far_piece,
  kernel,
  cubic_weights,
};

use number::magnitude::abs;

// A kernel's row of the printed table, all over 6: the cubic, the square and the constant number of the near piece,
// below 1, then the cubic, the square, the linear and the constant one of the far piece, from 1 to 2.
#[derive(Clone, Copy)]
pub struct CubicRow {
    pub near3: f32,
    pub near2: f32,
    pub near0: f32,
    pub far3: f32,
    pub far2: f32,
    pub far1: f32,
    pub far0: f32,
}

// A kernel: a type in place of a row, so that the compiler knows the numbers.
pub trait Kernel {
    ghost numbers: { CubicRow };

    fn row() -> CubicRow
        ensures { result ≡ numbers };
}

pub struct Catrom {}

impl Kernel for Catrom {
    ghost numbers = { catrom_row };

    fn row() -> CubicRow {
        CubicRow {
            near3: 9.0,
            near2: -15.0,
            near0: 6.0,
            far3: -3.0,
            far2: 15.0,
            far1: -24.0,
            far0: 12.0,
        }
    }
}

pub struct Spline {}

impl Kernel for Spline {
    ghost numbers = { spline_row };

    fn row() -> CubicRow {
        CubicRow {
            near3: 3.0,
            near2: -6.0,
            near0: 4.0,
            far3: -1.0,
            far2: 6.0,
            far1: -12.0,
            far0: 8.0,
        }
    }
}

// Below 1 in magnitude.
fn near_piece(row: CubicRow, ax: f32) -> f32
    ensures { result ≡ near_piece row ax }
{
    row.near3 * ax * ax * ax + row.near2 * ax * ax + row.near0
}

// From 1 to below 2.
fn far_piece(row: CubicRow, ax: f32) -> f32
    ensures { result ≡ far_piece row ax }
{
    row.far3 * ax * ax * ax + row.far2 * ax * ax + row.far1 * ax + row.far0
}

// Six times the kernel at a magnitude.
fn pieces(row: CubicRow, ax: f32) -> f32
    ensures { result ≡ Cubic.pieces row ax }
{
    if ax < 1.0 {
        near_piece(row, ax)
    } else if ax < 2.0 {
        far_piece(row, ax)
    } else {
        0.0
    }
}

fn weight(row: CubicRow, x: f32) -> f32
    ensures { result ≡ kernel row x }
{
    pieces(row, abs(x)) / 6.0
}

// Of the four taps around a point, t being its fraction between the second and the third.
pub fn cubic_weights(t: f32, row: CubicRow) -> [f32; 4]
    ensures { result ≡ cubic_weights t row }
{
    [
        weight(row, t + 1.0),
        weight(row, t),
        weight(row, t - 1.0),
        weight(row, t - 2.0),
    ]
}

// How far the four taps around a point lie from it.
#[derive(Clone, Copy)]
pub struct Distances {
    pub first: f32,
    pub second: f32,
    pub third: f32,
    pub fourth: f32,
}

pub fn distances_of(t: f32) -> Distances
    ensures { result ≡ distances_of t }
{
    Distances {
        first: abs(t + 1.0),
        second: abs(t),
        third: abs(t - 1.0),
        fourth: abs(t - 2.0),
    }
}

// Whether a distance is in the far piece.
fn outer(ax: f32) -> bool
    ensures { result ≡ outer ax }
{
    !(ax < 1.0) & (ax < 2.0)
}

// Whether each distance is in its usual piece: the outer two in the far one, the inner two in the near one. All are,
// but at a cell's ends.
pub fn between(d: Distances) -> bool
    ensures { result ≡ between d }
{
    (outer(d.first) & (d.second < 1.0)) & ((d.third < 1.0) & outer(d.fourth))
}

// The weights at four distances of which `between` holds: no test for each.
pub fn middle(row: CubicRow, d: Distances) -> [f32; 4]
    ensures { result ≡ middle row d }
{
    [
        far_piece(row, d.first) / 6.0,
        near_piece(row, d.second) / 6.0,
        near_piece(row, d.third) / 6.0,
        far_piece(row, d.fourth) / 6.0,
    ]
}

// A kernel's weights.
pub fn weights_by<K: Kernel>(t: f32) -> [f32; 4]
    ensures { result ≡ cubic_weights t K.numbers }
{
    let d = distances_of(t);
    if between(d) {
        return middle(K::row(), d);
    }
    cubic_weights(t, K::row())
}
