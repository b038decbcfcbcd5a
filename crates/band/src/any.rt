// The colours of a span, one pixel after another, by any interpolation. Assumes that the band has room for the span.
ghost use Rattle.std.specs.Prelude.{◌≡◌, ℕ, ◌+◌, ◌*◌, ◌≤◌, length};
ghost use Rattle.exact.specs.Limits.{longest_span};
ghost use Rattle.exact.specs.Vector as Vectors;
ghost use Rattle.picture.specs.Pixel.{Channels};
ghost use Rattle.band.specs.Band.{pictured, span_bytes, kept_matte_pixels};
ghost use Rattle.band.specs.Joined.{totalled};

use crate::look::Look;
use crate::pixel::store_one;
use crate::span::Span;
use picture::picture::Picture;

// The colours of a span's pixels, whose source points have the coordinates us and vs, put `out_channels` samples a
// pixel; and how many are matte.
pub fn store_any(
    picture: Picture,
    look: Look,
    out_channels: u64,
    us: &[f64; 64],
    vs: &[f64; 64],
    span: Span,
    band: &mut [u8],
) -> u64
    requires channels { Channels out_channels }
    requires n_le_longest_span { span.n ≤ longest_span }
    requires out_channels_in_bounds { (span.pixel + span.n) * out_channels * 4 ≤ length band.old }
    ensures { (result ≡ totalled (λ (k : ℕ). kept_matte_pixels (Vectors.at us.now k) (Vectors.at vs.now k))
        span.n)
        × (band.new ≡ span_bytes (pictured picture.entry look) out_channels us.now
        vs.now span.n span.pixel band.old) }
{
    let n = span.n;
    let mut matte_pixels = 0;
    for k in 0..n {
        let pixel = span.pixel + k as u64;
        matte_pixels += store_one(picture, look, out_channels, us[k], vs[k], pixel, band);
    }
    matte_pixels
}
