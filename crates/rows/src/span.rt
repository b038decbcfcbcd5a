// A span of a row: up to 64 neighbouring pixels, whose source points are worked out first and kept as two arrays of
// coordinates, and whose colours come then. So each of the two is a loop that does one thing. Assumes that the band has
// room for the span.
ghost use Rattle.std.specs.Prelude.{◌≡◌, ℕ, ◌+◌, ◌*◌, ◌≤◌, length};
ghost use Rattle.exact.specs.Limits.{largest_side, longest_span};
ghost use Rattle.exact.specs.Vector as Vectors;
ghost use Rattle.picture.specs.Pixel.{Channels};
ghost use Rattle.taps.specs.Interpolation.{code_of};
ghost use Rattle.band.specs.Band.{
  pictured,
  framed,
  colour_at,
  matte_pixels_at,
  kept_matte_pixels,
  put_pixels,
  span_bytes,
  InnerOrUntouched,
};
ghost use Rattle.band.specs.Joined.{totalled};
ghost use Rattle.fast_colours.specs.InsideSpan.{image_in};

use crate::inside::store_inside;
use band::any::store_any;
use band::look::Look;
use band::span::Span;
use fast_points::points::points;
use inverse::frame::Frame;
use picture::picture::Picture;
use taps::interpolation::Interpolation;

// The colours of a span's pixels that all lie inside and are put with the picture's channels, by what is worked out
// first. False: nothing was put.
fn store_alike(
    picture: Picture,
    interpolation: Interpolation,
    out_channels: u64,
    us: &[f64; 64],
    vs: &[f64; 64],
    span: Span,
    band: &mut [u8],
) -> bool
    requires channels { Channels out_channels }
    requires n_le_longest_span { span.n ≤ longest_span }
    requires out_channels_in_bounds { (span.pixel + span.n) * out_channels * 4 ≤ length band.old }
    ensures { InnerOrUntouched result (image_in picture.entry) (code_of interpolation) out_channels us.now
        vs.now span.n span.pixel band.old band.new }
{
    if picture.channels == out_channels {
        return store_inside(picture, interpolation, us, vs, span, band);
    }
    false
}

// The colours of a span's pixels, put `out_channels` samples a pixel; and how many are matte.
fn store_colours(
    picture: Picture,
    look: Look,
    out_channels: u64,
    us: &[f64; 64],
    vs: &[f64; 64],
    span: Span,
    band: &mut [u8],
) -> u64
    requires channels { Channels out_channels }
    requires n_le_longest_span { span.n ≤ longest_span }
    requires out_channels_in_bounds { (span.pixel + span.n) * out_channels * 4 ≤ length band.old }
    ensures { (result ≡ totalled (λ (k : ℕ). kept_matte_pixels (Vectors.at us.now k) (Vectors.at vs.now k))
        span.n)
        × (band.new ≡ span_bytes (pictured picture.entry look) out_channels us.now
        vs.now span.n span.pixel band.old) }
{
    if store_alike(
        picture,
        look.interpolation,
        out_channels,
        us,
        vs,
        span,
        band,
    ) {
        return 0;
    }
    store_any(picture, look, out_channels, us, vs, span, band)
}

pub fn store_span(
    picture: Picture,
    look: Look,
    frame: Frame,
    out_channels: u64,
    span: Span,
    band: &mut [u8],
) -> u64
    requires channels { Channels out_channels }
    requires n_le_longest_span { (span.n ≤ longest_span)
        × ((span.first + span.n ≤ largest_side) × (span.j ≤ largest_side)) }
    requires out_channels_in_bounds { (span.pixel + span.n) * out_channels * 4 ≤ length band.old }
    ensures { (result ≡ totalled (λ (k : ℕ). matte_pixels_at (framed frame.entry) (span.first + k) span.j)
        span.n)
        × (band.new ≡ put_pixels out_channels
        (λ (k : ℕ). colour_at (pictured picture.entry look) (framed frame.entry)
        (span.first + k) span.j) span.n span.pixel band.old) }
{
    let mut us = [0.0; 64];
    let mut vs = [0.0; 64];
    points(frame, span.first, span.j, span.n, &mut us, &mut vs);
    store_colours(picture, look, out_channels, &us, &vs, span, band)
}
