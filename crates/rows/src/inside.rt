// The spans that lie inside, put with as many samples a pixel as the picture has: by places, cells and squares that are
// worked out first. Where one pixel does not lie inside nothing is put. Assumes that the band has room for the span.
ghost use Rattle.std.specs.Prelude.{◌+◌, ◌*◌, ◌≤◌, length};
ghost use Rattle.exact.specs.Limits.{longest_span};
ghost use Rattle.picture.specs.Pixel.{Channels};
ghost use Rattle.taps.specs.Interpolation.{code_of, bilinear_code};
ghost use Rattle.band.specs.Band.{InnerOrUntouched};
ghost use Rattle.fast_colours.specs.InsideSpan.{image_in};

use crate::ahead::ahead;
use band::span::Span;
use fast_cells::cells::{cells, places};
use fast_cells::reach::Reach;
use fast_cells::rule::{IntegerRule, NearestRule, Rule};
use fast_colours::broad::store_broad_cells;
use fast_colours::one_by_one::store_places;
use fast_cubic::spans::store_cubic;
use picture::picture::Picture;
use taps::interpolation::Interpolation;

// By the rule of `Integer` or that of `Nearest`.
fn store_single<R: Rule>(
    picture: Picture,
    us: &[f64; 64],
    vs: &[f64; 64],
    span: Span,
    band: &mut [u8],
) -> bool
    requires channels { Channels picture.channels }
    requires n_le_longest_span { span.n ≤ longest_span }
    requires channels_in_bounds { (span.pixel + span.n) * picture.channels * 4 ≤ length band.old }
    ensures { InnerOrUntouched result (image_in picture.entry) (code_of R.reads) picture.entry.channels us.now
        vs.now span.n span.pixel band.old band.new }
{
    let mut columns = [0; 64];
    let mut rows = [0; 64];
    let reach = Reach {
        wide: picture.width,
        high: picture.height,
    };
    if places::<R>(us, vs, span.n, reach, &mut columns, &mut rows) {
        store_places(picture, &columns, &rows, span, band);
        return true;
    }
    false
}

// By `Bilinear`.
fn store_bilinear(
    picture: Picture,
    us: &[f64; 64],
    vs: &[f64; 64],
    span: Span,
    band: &mut [u8],
) -> bool
    requires channels { Channels picture.channels }
    requires n_le_longest_span { span.n ≤ longest_span }
    requires channels_in_bounds { (span.pixel + span.n) * picture.channels * 4 ≤ length band.old }
    ensures { InnerOrUntouched result (image_in picture.entry) bilinear_code picture.entry.channels us.now
        vs.now span.n span.pixel band.old band.new }
{
    let mut columns = [0; 64];
    let mut rows = [0; 64];
    let mut xs = [0.0; 64];
    let mut ys = [0.0; 64];
    let reach = Reach {
        wide: picture.width - 1,
        high: picture.height - 1,
    };
    if cells(
        us,
        vs,
        span.n,
        reach,
        &mut columns,
        &mut rows,
        &mut xs,
        &mut ys,
    ) {
        if ahead(picture, &columns, &rows, span.n) {
            store_broad_cells(picture, &columns, &rows, &xs, &ys, span, band);
            return true;
        }
    }
    false
}

// By the interpolation, if it has a loop: false where it has none, too. What is put is the band, so that the answer is
// a mark and no Option.
pub fn store_inside(
    picture: Picture,
    interpolation: Interpolation,
    us: &[f64; 64],
    vs: &[f64; 64],
    span: Span,
    band: &mut [u8],
) -> bool
    requires channels { Channels picture.channels }
    requires n_le_longest_span { span.n ≤ longest_span }
    requires channels_in_bounds { (span.pixel + span.n) * picture.channels * 4 ≤ length band.old }
    ensures { InnerOrUntouched result (image_in picture.entry) (code_of interpolation) picture.entry.channels us.now
        vs.now span.n span.pixel band.old band.new }
{
    match interpolation {
        Interpolation::Bilinear => store_bilinear(picture, us, vs, span, band),
        Interpolation::Integer => store_single::<IntegerRule>(picture, us, vs, span, band),
        Interpolation::Nearest => store_single::<NearestRule>(picture, us, vs, span, band),
        Interpolation::Catrom | Interpolation::Spline => store_cubic(
            picture,
            interpolation,
            us,
            vs,
            span,
            band,
        ),
        Interpolation::Average
        | Interpolation::Average9
        | Interpolation::Average16
        | Interpolation::Background => false,
    }
}
