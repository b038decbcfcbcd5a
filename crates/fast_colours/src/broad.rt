// `Bilinear` in cells that lie inside a picture of three channels, four neighbouring samples at a time, as many as
// the processor's registers hold: the three of a pixel and the next one's first. The fourth that comes out is put
// where the next pixel's first sample belongs, and is put over with that pixel; the last pixel has three. Assumes
// that the picture is such a one, that there is a pixel to the right of each cell, and that the band has room for the
// span.
ghost use Rattle.std.specs.Prelude.{◌≡◌, true, ℕ, ◌+◌, ◌*◌, ◌≤◌, ◌<◌, length, get_or};
ghost use Rattle.exact.specs.Limits.{largest_side, longest_span};
ghost use Rattle.picture.specs.Pixel.{Channels};
ghost use Rattle.band.specs.Band.{put_pixels};
ghost use Rattle.fast_colours.specs.InsideSpan.{CellsInside, Fractions, mixed_at, blend_at, Mixable};
ghost use Rattle.fast_colours.specs.Broad as Broad;
ghost use Rattle.fast_colours.specs.Broad.{four_sums, Covered, Beside};

use crate::one_by_one::{store_cells, weigh, weights_at, wide};
use band::span::Span;
use picture::colour::{Rgba, grey};
use picture::picture::Picture;
use picture::shape::side_less;
use picture::store::{store_four, store_number_pixel};
use sampler::fast_two_by_two::mixed;
use taps::weights::BilinearWeights;

// Four samples with one weight more.
fn added_opaque(p: Rgba, w: f32, s: Rgba) -> Rgba
    ensures { result ≡ Broad.added_opaque p w s }
{
    Rgba {
        r: s.r + w * p.r * 1.0,
        g: s.g + w * p.g * 1.0,
        b: s.b + w * p.b * 1.0,
        a: s.a + w * p.a * 1.0,
    }
}

// The sums over a cell's taps and, in alpha's pixel, the next cell's first sum.
fn four(picture: Picture, i: u64, j: u64, w: BilinearWeights) -> Rgba
    requires channels_value { picture.channels ≡ 3 }
    requires i_bound { (i + 2 < picture.width) × (j + 1 < picture.height) }
    ensures { result ≡ four_sums picture.entry.bytes.now ((j * picture.entry.width + i) * 3) (picture.entry.width * 3) w.w00
        w.w10 w.w01 w.w11 }
{
    let k = (j * picture.width + i) * 3;
    let n = k + picture.width * 3;
    let s = added_opaque(
        picture.widened(4, k + 3),
        w.w10,
        added_opaque(picture.widened(4, k), w.w00, grey(0.0, 0.0)),
    );
    added_opaque(
        picture.widened(4, n + 3),
        w.w11,
        added_opaque(picture.widened(4, n), w.w01, s),
    )
}

// The colour of the cell at column i and row j, by its weights and their sum; and the next cell's red by the same.
fn broad(picture: Picture, i: u64, j: u64, w: BilinearWeights) -> Rgba
    requires channels_value { picture.channels ≡ 3 }
    requires i_bound { (i + 2 < picture.width) × (j + 1 < picture.height) }
    ensures { result ≡ Broad.broad picture.entry.bytes.now picture.entry.width i j w.w00 w.w10 w.w01 w.w11 w.sum }
{
    let t = four(picture, i, j, w);
    Rgba {
        r: t.r / w.sum,
        g: t.g / w.sum,
        b: t.b / w.sum,
        a: t.a / w.sum,
    }
}

// The colours of m cells, put from the band's pixel numbered `pixel` on; what the next pixel's first sample is then is
// left open.
fn store_first(
    picture: Picture,
    columns: &[u32; 64],
    rows: &[u32; 64],
    w: &[[f32; 64]; 5],
    m: usize,
    pixel: u64,
    band: &mut [u8],
)
    requires channels_value { picture.channels ≡ 3 }
    requires m_lt_longest_span { m < longest_span }
    requires beside { Beside picture.bytes.now picture.width picture.height m columns.now rows.now w.now }
    requires m_in_bounds { (pixel + m) * 3 * 4 + 4 ≤ length band.old }
    ensures { Covered band.new (put_pixels 3
        (mixed_at picture.entry.bytes.now picture.entry.width 3 columns.now rows.now w.now)
        m pixel band.old) ((pixel + m) * 3) }
{
    for k in 0..m {
        store_four(
            band,
            (pixel + k as u64) * 3,
            broad(picture, wide(columns[k]), wide(rows[k]), weights_at(w, k)),
        );
    }
}

// The same with the last pixel, the one numbered m, which has three samples.
fn store_broad(
    picture: Picture,
    columns: &[u32; 64],
    rows: &[u32; 64],
    w: &[[f32; 64]; 5],
    m: usize,
    pixel: u64,
    band: &mut [u8],
)
    requires channels_value { picture.channels ≡ 3 }
    requires m_lt_longest_span { m < longest_span }
    requires beside { Beside picture.bytes.now picture.width picture.height (m + 1) columns.now rows.now w.now }
    requires mixable { Mixable picture.bytes.now picture.width 3 (m + 1) columns.now rows.now w.now }
    requires m_in_bounds { (pixel + (m + 1)) * 3 * 4 ≤ length band.old }
    ensures { band.new ≡ put_pixels 3
        (mixed_at picture.entry.bytes.now picture.entry.width 3 columns.now rows.now w.now)
        (m + 1) pixel band.old }
{
    store_first(picture, columns, rows, w, m, pixel, band);
    store_number_pixel(
        band,
        3,
        pixel + m as u64,
        mixed(
            picture,
            3,
            wide(columns[m]),
            wide(rows[m]),
            weights_at(w, m),
        ),
    );
}

// Whether each of the first n cells has a pixel to its right, as those before column `last` have. An `all` would stop
// at the first that has none, and the compiler would not take several at a time.
fn next_columns_inside(columns: &[u32; 64], n: usize, width: u64) -> bool
    requires n_le_longest_span { n ≤ longest_span }
    requires width_le_largest_side { width ≤ largest_side }
    ensures { result ≡ true → (k : ℕ) → k < n → get_or columns.now k 0 + 2 < width }
{
    let last = side_less(width, 2) as u32;
    let mut good = true;
    for k in 0..n {
        good = good & (columns[k] < last);
    }
    good
}

// The colours of a span's cells at their points' fractions, put into the band.
fn store_three(
    picture: Picture,
    columns: &[u32; 64],
    rows: &[u32; 64],
    xs: &[f32; 64],
    ys: &[f32; 64],
    span: Span,
    band: &mut [u8],
)
    requires channels_value { picture.channels ≡ 3 }
    requires n_nonzero { (0 < span.n) × (span.n ≤ longest_span) }
    requires cells_inside { CellsInside picture.width picture.height span.n columns.now rows.now }
    requires by_index { (k : ℕ) → k < span.n → get_or columns.now k 0 + 2 < picture.width }
    requires fractions { Fractions span.n xs.now × Fractions span.n ys.now }
    requires n_in_bounds { (span.pixel + span.n) * 3 * 4 ≤ length band.old }
    ensures { band.new ≡ put_pixels 3
        (blend_at picture.entry.bytes.now picture.entry.width 3 columns.now rows.now xs.now
        ys.now) span.n span.pixel band.old }
{
    let mut w = [[0.0; 64]; 5];
    weigh(xs, ys, span.n, &mut w);
    store_broad(picture, columns, rows, &w, span.n - 1, span.pixel, band);
}

// The same of a picture of any channels, put with as many samples: four samples at a time where that can be.
pub fn store_broad_cells(
    picture: Picture,
    columns: &[u32; 64],
    rows: &[u32; 64],
    xs: &[f32; 64],
    ys: &[f32; 64],
    span: Span,
    band: &mut [u8],
)
    requires channels { Channels picture.channels }
    requires n_le_longest_span { span.n ≤ longest_span }
    requires cells_inside { CellsInside picture.width picture.height span.n columns.now rows.now }
    requires fractions { Fractions span.n xs.now × Fractions span.n ys.now }
    requires channels_in_bounds { (span.pixel + span.n) * picture.channels * 4 ≤ length band.old }
    ensures { band.new ≡ put_pixels picture.entry.channels
        (blend_at picture.entry.bytes.now picture.entry.width picture.entry.channels columns.now rows.now
        xs.now ys.now) span.n span.pixel band.old }
{
    if picture.channels == 3 {
        if 0 < span.n {
            if next_columns_inside(columns, span.n, picture.width) {
                store_three(picture, columns, rows, xs, ys, span, band);
                return;
            }
        }
    }
    store_cells(picture, columns, rows, xs, ys, span, band);
}
