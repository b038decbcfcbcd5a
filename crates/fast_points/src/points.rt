// The source points of a span of a row, worked out before its colours: the rule of each kind of mapping, handed to one
// loop. Those of Affine and Perspective have no branch, so that the compiler takes several pixels at a time; the
// barrels take their steps in loops of their own (`barrels`). Assumes that the pixels lie within the limits of a
// window.
ghost use Rattle.std.specs.Prelude.{◌≡◌, ◌+◌, ◌≤◌, ◌<◌, min};
ghost use Rattle.exact.specs.Limits.{largest_side, longest_span};
ghost use Rattle.fast_points.specs.Points.{Points};

use crate::barrels::barrel_points;
use crate::keep::keep_row;
use crate::pixel::{asked, offset};
use inverse::affine::affine;
use inverse::barrel::{barrel_from, barrel_inverse_from};
use inverse::forward::bilinear_forward;
use inverse::frame::Frame;
use inverse::perspective::perspective;
use inverse::polynomial::polynomial;
use inverse::source::inverse;
use mappings::mapping::Kind;

// The pixels of a row that are worked on at once.
const LONGEST_SPAN: u64 = 64;

// How many of the pixels that are left of a row make the next span.
pub fn next_span(left: u64) -> usize
    requires { 0 < left }
    ensures { (0 < result) × ((result ≤ left) × ((result ≤ longest_span) × (result ≡ min left longest_span))) }
{
    left.min(LONGEST_SPAN) as usize
}

// The first n of us and vs: the pixels from column `first` of row j on, of the frame's window.
pub fn points(frame: Frame, first: u64, j: u64, n: usize, us: &mut [f64; 64], vs: &mut [f64; 64])
    requires n_le_longest_span { (n ≤ longest_span) × ((first + n ≤ largest_side) × (j ≤ largest_side)) }
    ensures { Points frame.entry first j n us.new vs.new }
{
    let start = first as u32;
    let x = offset(frame.x);
    let y = asked(j, frame.y);
    let mapping = frame.mapping;
    let coef = &mapping.coef;
    let order = mapping.order;
    match mapping.kind {
        Kind::Affine => keep_row(|at| affine(coef, at, y), x, start, n, us, vs),
        Kind::Perspective => keep_row(|at| perspective(coef, at, y), x, start, n, us, vs),
        Kind::Poly => keep_row(|at| polynomial(order, coef, at, y), x, start, n, us, vs),
        Kind::BilinearForward => keep_row(|at| bilinear_forward(coef, at, y), x, start, n, us, vs),
        Kind::Barrel => {
            let from = |dy, dx, r| barrel_from(coef, dy, dx, r);
            barrel_points(from, coef, x, y, start, n, us, vs)
        }
        Kind::BarrelInverse => {
            let from = |dy, dx, r| barrel_inverse_from(coef, dy, dx, r);
            barrel_points(from, coef, x, y, start, n, us, vs)
        }
        Kind::Nothing | Kind::Shepards => keep_row(
            |at| inverse(mapping, at, y),
            x,
            start,
            n,
            us,
            vs,
        ),
    }
}
