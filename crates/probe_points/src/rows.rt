// Source points in bytes, whole rows of a window by one fit and worked as the call works them, in spans: so that
// what is measured is what the product does. Assumes nothing.
ghost use Rattle.std.specs.Prelude.{◌≡◌, ◌+◌, ◌*◌, ◌≤◌, length};
ghost use Rattle.exact.specs.Limits.{largest_side, longest_span};
ghost use Rattle.exact.specs.Loop.{up_to};
ghost use Rattle.probe_points.specs.Rows.{store_kept, store_column, store_row, wrong_rows, probe_rows};

use crate::pointed::store_point;
use fast_points::points::{next_span, points};
use inverse::frame::Frame;
use point::usable::point;
use probe_fit::sized::sized_fit;
use window::extent::{LARGEST_SIDE, good_offset};

// The points of a span from column `first` on, `place` points into the bytes.
fn store_kept(us: &[f64; 64], vs: &[f64; 64], first: usize, n: usize, place: usize, out: &mut [u8])
    requires { (n ≤ longest_span) × ((place + (first + n)) * 24 ≤ length out.old) }
    ensures { out.new ≡ up_to (store_kept us.now vs.now first place) first
        (first + n) out.old }
{
    for i in first..first + n {
        let k = i - first;
        store_point(out, (place + i) * 24, point(us[k], vs[k]));
    }
}

fn store_span_points(out: &mut [u8], frame: Frame, first: u64, j: u64, n: usize, place: usize)
    requires n_le_longest_span { (n ≤ longest_span) × ((first + n ≤ largest_side) × (j ≤ largest_side)) }
    requires n_in_bounds { (place + (first + n)) * 24 ≤ length out.old }
    ensures { out.new ≡ up_to (store_column frame.entry.mapping.now frame.entry.x frame.entry.y j place) first
        (first + n) out.old }
{
    let mut us = [0.0; 64];
    let mut vs = [0.0; 64];
    points(frame, first, j, n, &mut us, &mut vs);
    store_kept(&us, &vs, first as usize, n, place, out);
}

// Row j of a window of this width.
fn store_row_points(out: &mut [u8], frame: Frame, width: u64, j: u64, place: usize)
    requires width_le_largest_side { (width ≤ largest_side) × (j ≤ largest_side) }
    requires width_in_bounds { (place + width) * 24 ≤ length out.old }
    ensures { out.new ≡ up_to (store_column frame.entry.mapping.now frame.entry.x frame.entry.y j place) 0 width
        out.old }
{
    let mut i = 0;
    while i < width {
        let n = next_span(width - i);
        store_span_points(out, frame, i, j, n, place);
        i = i + n as u64;
    }
}

// Rows from `first` on.
fn store_rows_points(out: &mut [u8], frame: Frame, width: u64, first: u64, rows: u64)
    requires width_le_largest_side { (width ≤ largest_side) × (first + rows ≤ largest_side) }
    requires out_len { length out.old ≡ rows * width * 24 }
    ensures { out.new ≡ up_to (store_row frame.entry.mapping.now frame.entry.x frame.entry.y width first) 0 rows
        out.old }
{
    for r in 0..rows {
        let place = r * width;
        store_row_points(out, frame, width, first + r, place as usize);
    }
}

// The limits of a window, and 24 bytes for each of its points. The fit has refused a larger width.
fn wrong_rows(width: u64, x: i64, y: i64, first: u64, rows: u64, out: usize) -> bool
    ensures { result ≡ wrong_rows width x y first rows out }
{
    if (width > LARGEST_SIDE) | ((first > LARGEST_SIDE) | (rows > LARGEST_SIDE)) {
        return true;
    }
    if !good_offset(x) {
        return true;
    }
    if !good_offset(y) {
        return true;
    }
    (first + rows > LARGEST_SIDE) | (out as u64 != rows * width * 24)
}

// The fit is refused as `probe_fit` refuses it, and then rows beyond the limits of a window, or lengths that do not
// fit, by 12.
#[unsafe(no_mangle)]
pub extern "C" fn probe_rows(
    method: u64,
    arguments: &[u8],
    width: u64,
    height: u64,
    x: i64,
    y: i64,
    first: u64,
    rows: u64,
    out: &mut [u8],
) -> u64
    ensures { (result, out.new) ≡ probe_rows method arguments.now width height x y first rows
        out.old }
{
    let mapping = match sized_fit(method, arguments, width, height) {
        Ok(m) => m,
        Err(r) => return r.number(),
    };
    if wrong_rows(width, x, y, first, rows, out.len()) {
        return 12;
    }
    let frame = Frame {
        mapping: &mapping,
        x,
        y,
    };
    store_rows_points(out, frame, width, first, rows);
    0
}
