// One pixel of the band: the picture's colour at its source point, or matte. Assumes that the band has room for the
// pixel, and that a point is `point` of its own coordinates.
ghost use Rattle.std.specs.Prelude.{◌≡◌, cond, ◌+◌, ◌*◌, ◌≤◌, ◌<◌, length};
ghost use Rattle.picture.specs.Store.{store_pixel};
ghost use Rattle.point.specs.Point as Points;
ghost use Rattle.band.specs.Band as Band;
ghost use Rattle.band.specs.Band.{pictured, kept_colour, kept_matte_pixels};

use crate::look::Look;
use picture::colour::Rgba;
use picture::picture::Picture;
use picture::store::store_pixel;
use point::point::Point;
use point::usable::point;
use sampler::interpolate::interpolate_point;
use taps::sampler::Sampler;

// The colour at a source point, or matte where its mark says that it can't be used.
fn shown(picture: Picture, look: Look, p: Point) -> Rgba
    requires { Points.Whole p }
    ensures { result ≡ Band.shown (pictured picture.entry look) p }
{
    if p.usable {
        let s = Sampler {
            picture,
            policy: look.policy,
            background: look.background,
        };
        return interpolate_point(s, look.interpolation, p);
    }
    look.matte
}

// What a source point adds to the matte pixels.
fn matte_pixels_of(p: Point) -> u64
    ensures { result ≡ cond p.usable 0 1 }
{
    if p.usable { 0 } else { 1 }
}

// The pixel whose source point has the coordinates u and v, put as the band's pixel numbered `pixel` of `out_channels`
// samples; and what it adds to the matte pixels.
pub fn store_one(
    picture: Picture,
    look: Look,
    out_channels: u64,
    u: f64,
    v: f64,
    pixel: u64,
    band: &mut [u8],
) -> u64
    requires { (0 < out_channels) × ((pixel * out_channels + out_channels) * 4 ≤ length band.old) }
    ensures { (result ≡ kept_matte_pixels u v) × (band.new ≡ store_pixel band.old out_channels pixel
        (kept_colour (pictured picture.entry look) u v)) }
{
    let p = point(u, v);
    store_pixel(band, out_channels, pixel, shown(picture, look, p));
    matte_pixels_of(p)
}
