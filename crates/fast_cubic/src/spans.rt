// Spans by `Catrom` and `Spline`: cells, fractions and weights are worked out first, several pixels at a time, where
// every square of taps lies inside. Assumes that the band has room for the span.
ghost use Rattle.std.specs.Prelude.{◌≡◌, true, ℕ, ◌+◌, ◌*◌, ◌≤◌, ◌<◌, length, get_or};
ghost use Rattle.exact.specs.Limits.{longest_span};
ghost use Rattle.picture.specs.Pixel.{Channels};
ghost use Rattle.taps.specs.Interpolation.{Cubic, code_of};
ghost use Rattle.band.specs.Band.{put_pixels, InnerOrUntouched};
ghost use Rattle.fast_colours.specs.InsideSpan.{image_in};
ghost use Rattle.fast_cubic.specs.Kernels.{of_four};
ghost use Rattle.fast_cubic.specs.FourByFours.{FourByFours, Past, Standing, four_by_four};

use crate::kernels::both_kernels;
use band::span::Span;
use fast_cells::cells::cells;
use fast_cells::reach::Reach;
use fast_colours::one_by_one::wide;
use picture::colour::Rgba;
use picture::picture::Picture;
use picture::shape::side_less;
use picture::store::store_pixel;
use sampler::fast_four_by_four::four_by_four;
use taps::interpolation::Interpolation;

// Whether the first n are all above 0. An `all` would stop at the first that is not, and the compiler would not take
// several at a time.
fn past(cs: &[u32; 64], n: usize) -> bool
    requires { n ≤ longest_span }
    ensures { result ≡ true → Past n cs.now }
{
    let mut good = true;
    for k in 0..n {
        good = good & (0 < cs[k]);
    }
    good
}

// The weights of the k-th point along a row or a column.
fn four_of(w: &[[f32; 64]; 4], k: usize) -> [f32; 4]
    requires { k < longest_span }
    ensures { result ≡ of_four w.now k }
{
    [w[0][k], w[1][k], w[2][k], w[3][k]]
}

// The colour of the square around the cell at column i and row j, by the weights along its rows and its columns.
#[tactic(auto, unfolding(crate::specs::FourByFours::four_by_four))]
fn colour_of(picture: Picture, i: u64, j: u64, wx: [f32; 4], wy: [f32; 4]) -> Rgba
    requires { (0 < i) × ((i + 2 < picture.width) × ((0 < j) × (j + 2 < picture.height))) }
    ensures { result ≡ four_by_four picture.entry.bytes.now picture.entry.width picture.entry.channels i j wx wy }
{
    four_by_four(picture, i - 1, j - 1, &wx, &wy)
}

// The colours of a span's squares at their weights, put into the band.
fn store_four_by_fours(
    picture: Picture,
    columns: &[u32; 64],
    rows: &[u32; 64],
    wx: &[[f32; 64]; 4],
    wy: &[[f32; 64]; 4],
    span: Span,
    band: &mut [u8],
)
    requires channels { Channels picture.channels }
    requires n_le_longest_span { span.n ≤ longest_span }
    requires four_by_fours { FourByFours picture.width picture.height span.n columns.now rows.now }
    requires channels_in_bounds { (span.pixel + span.n) * picture.channels * 4 ≤ length band.old }
    ensures { band.new ≡ put_pixels picture.entry.channels
        (λ (k : ℕ). four_by_four picture.entry.bytes.now picture.entry.width picture.entry.channels
        (get_or columns.now k 0) (get_or rows.now k 0) (of_four wx.now k)
        (of_four wy.now k)) span.n span.pixel band.old }
{
    let n = span.n;
    for k in 0..n {
        store_pixel(
            band,
            picture.channels,
            span.pixel + k as u64,
            colour_of(
                picture,
                wide(columns[k]),
                wide(rows[k]),
                four_of(wx, k),
                four_of(wy, k),
            ),
        );
    }
}

// The cells and fractions of n points, if the answer is true: it is where all their squares lie inside. A cell with two
// taps after it stands before the side less two.
fn cells_within(
    us: &[f64; 64],
    vs: &[f64; 64],
    n: usize,
    picture: Picture,
    columns: &mut [u32; 64],
    rows: &mut [u32; 64],
    xs: &mut [f32; 64],
    ys: &mut [f32; 64],
) -> bool
    requires n_le_longest_span { n ≤ longest_span }
    ensures { result ≡ true → Standing picture.entry.width picture.entry.height n us.now vs.now
        columns.new rows.new xs.new ys.new }
{
    let reach = Reach {
        wide: side_less(picture.width, 2),
        high: side_less(picture.height, 2),
    };
    if cells(us, vs, n, reach, columns, rows, xs, ys) {
        return past(columns, n) & past(rows, n);
    }
    false
}

// The colours of a span's pixels by `Catrom` or `Spline`, put into the band where all their squares lie inside: then
// none is matte, and no policy is asked. False: nothing was put.
pub fn store_cubic(
    picture: Picture,
    interpolation: Interpolation,
    us: &[f64; 64],
    vs: &[f64; 64],
    span: Span,
    band: &mut [u8],
) -> bool
    requires channels { Channels picture.channels }
    requires cubic { Cubic (code_of interpolation) }
    requires n_le_longest_span { span.n ≤ longest_span }
    requires channels_in_bounds { (span.pixel + span.n) * picture.channels * 4 ≤ length band.old }
    ensures { InnerOrUntouched result (image_in picture.entry) (code_of interpolation) picture.entry.channels us.now
        vs.now span.n span.pixel band.old band.new }
{
    let mut columns = [0; 64];
    let mut rows = [0; 64];
    let mut xs = [0.0; 64];
    let mut ys = [0.0; 64];
    if cells_within(
        us,
        vs,
        span.n,
        picture,
        &mut columns,
        &mut rows,
        &mut xs,
        &mut ys,
    ) {
        let mut wx = [[0.0; 64]; 4];
        let mut wy = [[0.0; 64]; 4];
        if both_kernels(interpolation, &xs, &ys, span.n, &mut wx, &mut wy) {
            store_four_by_fours(picture, &columns, &rows, &wx, &wy, span, band);
            return true;
        }
    }
    false
}
