// Spans that lie inside a picture: cells, fractions and weights are worked out first, several pixels at a time, so that
// the loop over the pixels reads, sums and puts, and asks for nothing but the channels. Assumes that the band has room
// for the span.
ghost use Rattle.std.specs.Prelude.{◌≡◌, ℕ, ◌+◌, ◌*◌, ◌≤◌, ◌<◌, length, get_or};
ghost use Rattle.exact.specs.Limits.{longest_span};
ghost use Rattle.sampler.specs.TwoByTwo.{mixed};
ghost use Rattle.picture.specs.Pixel.{Channels, pixel_at};
ghost use Rattle.band.specs.Band.{put_pixels};
ghost use Rattle.fast_colours.specs.InsideSpan.{PixelsInside, CellsInside, Fractions, Sized, Weights, weights_of};
ghost use Rattle.fast_colours.specs.InsideSpan.{mixed_at, blend_at, Mixable};

use band::span::Span;
use picture::colour::Rgba;
use picture::picture::Picture;
use picture::store::store_number_pixel;
use sampler::fast_two_by_two::mixed;
use taps::weights::{BilinearWeights, bilinear_weights};

// The arrays have as many elements as their type says. The check knows that of an array that is lent, but of those
// within it only where a function takes it by value.
pub fn sized<const M: usize>(w: [[f32; 64]; M])
    ensures { Sized M w.entry }
{}

// A column or row as the sampler numbers it.
pub fn wide(c: u32) -> u64
    ensures { result ≡ c }
{
    c as u64
}

// The weights of the first n points at their fractions, an array for each of the cell's four taps, row by row, and
// their sums. An array of `BilinearWeights` would keep the compiler from taking several points at a time. The index
// goes through seven arrays side by side, which an iterator would have to zip; so in the loops below.
pub fn weigh(xs: &[f32; 64], ys: &[f32; 64], n: usize, w: &mut [[f32; 64]; 5])
    requires { n ≤ longest_span }
    ensures { Weights n xs.now ys.now w.new }
{
    sized(*w);
    for k in 0..n {
        let c = bilinear_weights(xs[k], ys[k]);
        w[0][k] = c.w00;
        w[1][k] = c.w10;
        w[2][k] = c.w01;
        w[3][k] = c.w11;
        w[4][k] = c.sum;
    }
}

// Those of the k-th point.
pub fn weights_at(w: &[[f32; 64]; 5], k: usize) -> BilinearWeights
    requires { k < longest_span }
    ensures { result ≡ weights_of w.now k }
{
    BilinearWeights {
        w00: w[0][k],
        w10: w[1][k],
        w01: w[2][k],
        w11: w[3][k],
        sum: w[4][k],
    }
}

// `mixed` with the channels as literals, so that the compiler makes a part of the loop of it.
fn coloured(picture: Picture, i: u64, j: u64, w: BilinearWeights) -> Rgba
    requires channels { Channels picture.channels }
    requires i_bound { (i + 1 < picture.width) × (j + 1 < picture.height) }
    ensures { result ≡ mixed picture.entry.bytes.now picture.entry.width picture.entry.channels i j w.w00 w.w10 w.w01 w.w11
        w.sum }
{
    if picture.channels == 4 {
        return mixed(picture, 4, i, j, w);
    }
    if picture.channels == 3 {
        return mixed(picture, 3, i, j, w);
    }
    mixed(picture, 1, i, j, w)
}

// The colours of a span's cells at their weights, put into the band.
fn store_one_by_one(
    picture: Picture,
    columns: &[u32; 64],
    rows: &[u32; 64],
    w: &[[f32; 64]; 5],
    span: Span,
    band: &mut [u8],
)
    requires channels { Channels picture.channels }
    requires n_le_longest_span { span.n ≤ longest_span }
    requires cells_inside { CellsInside picture.width picture.height span.n columns.now rows.now }
    requires mixable { Mixable picture.bytes.now picture.width picture.channels span.n columns.now rows.now w.now }
    requires channels_in_bounds { (span.pixel + span.n) * picture.channels * 4 ≤ length band.old }
    ensures { band.new ≡ put_pixels picture.entry.channels
        (mixed_at picture.entry.bytes.now picture.entry.width picture.entry.channels columns.now rows.now
        w.now) span.n span.pixel band.old }
{
    let n = span.n;
    for k in 0..n {
        store_number_pixel(
            band,
            picture.channels,
            span.pixel + k as u64,
            coloured(picture, wide(columns[k]), wide(rows[k]), weights_at(w, k)),
        );
    }
}

// The colours of a span's cells at their points' fractions, put into the band.
pub fn store_cells(
    picture: Picture,
    columns: &[u32; 64],
    rows: &[u32; 64],
    xs: &[f32; 64],
    ys: &[f32; 64],
    span: Span,
    band: &mut [u8],
)
    requires channels { Channels picture.channels }
    requires n_le_longest_span { span.n ≤ longest_span }
    requires cells_inside { CellsInside picture.width picture.height span.n columns.now rows.now }
    requires fractions { Fractions span.n xs.now × Fractions span.n ys.now }
    requires channels_in_bounds { (span.pixel + span.n) * picture.channels * 4 ≤ length band.old }
    ensures { band.new ≡ put_pixels picture.entry.channels
        (blend_at picture.entry.bytes.now picture.entry.width picture.entry.channels columns.now rows.now
        xs.now ys.now) span.n span.pixel band.old }
{
    let mut w = [[0.0; 64]; 5];
    weigh(xs, ys, span.n, &mut w);
    store_one_by_one(picture, columns, rows, &w, span, band);
}

// The picture's own pixels at a span's places, put into the band with as many samples.
pub fn store_places(
    picture: Picture,
    columns: &[u32; 64],
    rows: &[u32; 64],
    span: Span,
    band: &mut [u8],
)
    requires channels { Channels picture.channels }
    requires n_le_longest_span { span.n ≤ longest_span }
    requires pixels_inside { PixelsInside picture.width picture.height span.n columns.now rows.now }
    requires channels_in_bounds { (span.pixel + span.n) * picture.channels * 4 ≤ length band.old }
    ensures { band.new ≡ put_pixels picture.entry.channels
        (λ (k : ℕ). pixel_at picture.entry.bytes.now picture.entry.width picture.entry.channels (get_or columns.now k 0)
        (get_or rows.now k 0)) span.n span.pixel band.old }
{
    let n = span.n;
    for k in 0..n {
        store_number_pixel(
            band,
            picture.channels,
            span.pixel + k as u64,
            picture.pixel_at(wide(columns[k]), wide(rows[k])),
        );
    }
}
