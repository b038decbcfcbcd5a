// The rows of least squares that a pair gives: one row, or two where u and v share their unknowns. Assumes nothing.
ghost use Rattle.std.specs.Prelude.{◌≡◌};
ghost use Rattle.mappings.specs.Rows.{row_of, side_of, first_row, second_row};

use crate::monomials::monomials;
use crate::pair::Pair;

// Which terms a row has: x, y, 1; a polynomial's monomials in x and y; 1, u, v, uv.
#[derive(Clone, Copy)]
pub enum Terms {
    Affine,
    Polynomial(u64),
    Forward,
}

// Which number of the pair a row is to give.
#[derive(Clone, Copy)]
pub enum Side {
    OfU,
    OfV,
    OfX,
    OfY,
}

// Two rows a pair, one that gives u and one that gives v.
#[derive(Clone, Copy)]
pub enum Twin {
    Similarity,
    Perspective,
}

fn affine_row(p: Pair) -> [f64; 21]
    ensures { result ≡ row_of Terms.Affine p }
{
    let mut row = [0.0; 21];
    row[0] = p.x;
    row[1] = p.y;
    row[2] = 1.0;
    row
}

pub fn row(terms: Terms, p: Pair) -> [f64; 21]
    ensures { result ≡ row_of terms p }
{
    match terms {
        Terms::Affine => affine_row(p),
        Terms::Polynomial(order) => monomials(order, p.x, p.y),
        Terms::Forward => monomials(0, p.u, p.v),
    }
}

pub fn side_of(side: Side, p: Pair) -> f64
    ensures { result ≡ side_of side p }
{
    match side {
        Side::OfU => p.u,
        Side::OfV => p.v,
        Side::OfX => p.x,
        Side::OfY => p.y,
    }
}

fn similarity_first(p: Pair) -> [f64; 21]
    ensures { result ≡ first_row Twin.Similarity p }
{
    let mut row = [0.0; 21];
    row[0] = p.x;
    row[1] = -p.y;
    row[2] = 1.0;
    row
}

fn similarity_second(p: Pair) -> [f64; 21]
    ensures { result ≡ second_row Twin.Similarity p }
{
    let mut row = [0.0; 21];
    row[0] = p.y;
    row[1] = p.x;
    row[3] = 1.0;
    row
}

fn perspective_first(p: Pair) -> [f64; 21]
    ensures { result ≡ first_row Twin.Perspective p }
{
    let mut row = [0.0; 21];
    row[0] = p.x;
    row[1] = p.y;
    row[2] = 1.0;
    row[6] = -p.u * p.x;
    row[7] = -p.u * p.y;
    row
}

fn perspective_second(p: Pair) -> [f64; 21]
    ensures { result ≡ second_row Twin.Perspective p }
{
    let mut row = [0.0; 21];
    row[3] = p.x;
    row[4] = p.y;
    row[5] = 1.0;
    row[6] = -p.v * p.x;
    row[7] = -p.v * p.y;
    row
}

pub fn first_row(twin: Twin, p: Pair) -> [f64; 21]
    ensures { result ≡ first_row twin p }
{
    match twin {
        Twin::Similarity => similarity_first(p),
        Twin::Perspective => perspective_first(p),
    }
}

pub fn second_row(twin: Twin, p: Pair) -> [f64; 21]
    ensures { result ≡ second_row twin p }
{
    match twin {
        Twin::Similarity => similarity_second(p),
        Twin::Perspective => perspective_second(p),
    }
}
