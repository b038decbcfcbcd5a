// The band: rows of output pixels, one after another, each in spans, and how many pixels are matte. Assumes that the
// rows lie within the limits of a window, and that the band is as long as they are.
ghost use Rattle.std.specs.Prelude.{◌≡◌, ◌++◌, ◌+◌, ◌*◌, ◌≤◌, length, take, drop};
ghost use Rattle.exact.specs.Limits.{largest_side};
ghost use Rattle.picture.specs.Pixel.{Channels};
ghost use Rattle.band.specs.Band.{pictured, framed, row_bytes, rows_bytes, row_matte_pixels, rows_matte_pixels};

use crate::span::store_span;
use band::look::Look;
use band::rows::{Row, Rows};
use band::span::Span;
use fast_points::points::next_span;
use inverse::frame::Frame;
use picture::picture::Picture;
use picture::shape::Shape;

// A row of the output, in spans of 64 pixels, of which the last may be shorter; and its matte pixels.
fn store_row(
    picture: Picture,
    look: Look,
    frame: Frame,
    out: Shape,
    row: Row,
    band: &mut [u8],
) -> u64
    requires channels { Channels out.channels }
    requires width_le_largest_side { (out.width ≤ largest_side) × (row.j ≤ largest_side) }
    requires channels_in_bounds { (row.pixel + out.width) * out.channels * 4 ≤ length band.old }
    ensures { (result ≡ row_matte_pixels (framed frame.entry) out.width row.j)
        × (band.new ≡ take (row.pixel * out.channels * 4) band.old
        ++ row_bytes (pictured picture.entry look) (framed frame.entry) out.channels
        out.width row.j
        ++ drop ((row.pixel + out.width) * out.channels * 4) band.old) }
{
    let width = out.width;
    let pixel = row.pixel;
    let mut matte_pixels = 0;
    for i in (0..width).step_by(64) {
        let n = next_span(width - i);
        let span = Span {
            first: i,
            j: row.j,
            n,
            pixel: pixel + i,
        };
        matte_pixels = matte_pixels + store_span(picture, look, frame, out.channels, span, band);
    }
    matte_pixels
}

// Rows of the output, and their matte pixels.
pub fn store_rows(
    picture: Picture,
    look: Look,
    frame: Frame,
    out: Shape,
    rows: Rows,
    band: &mut [u8],
) -> u64
    requires channels { Channels out.channels }
    requires width_le_largest_side { (out.width ≤ largest_side) × (rows.first + rows.count ≤ largest_side) }
    requires band_len { length band.old ≡ rows.count * out.width * out.channels * 4 }
    ensures { (result ≡ rows_matte_pixels (framed frame.entry) out.width rows.first rows.count)
        × (band.new ≡ rows_bytes (pictured picture.entry look)
        (framed frame.entry) out.channels out.width rows.first rows.count) }
{
    let width = out.width;
    let first = rows.first;
    let count = rows.count;
    let mut matte_pixels = 0;
    for r in 0..count {
        let row = Row {
            j: first + r,
            pixel: r * width,
        };
        matte_pixels = matte_pixels + store_row(picture, look, frame, out, row, band);
    }
    matte_pixels
}
