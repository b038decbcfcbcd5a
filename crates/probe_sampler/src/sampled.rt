// The sampler in bytes: a colour. Assumes nothing.
ghost use Rattle.std.specs.Prelude.{◌≡◌, ℕ, ◌+◌, ◌*◌, ◌≤◌, length};
ghost use Rattle.std.specs.Float.{binary64};
ghost use Rattle.std.specs.Float.Ieee.{of_bits};
ghost use Rattle.probe_sampler.specs.Sampled.{
  wrong_picture,
  wrong_codes,
  far_coordinate,
  unfit_sample,
  store_colour,
  colours,
  probe_interpolate,
};
ghost use Rattle.taps.specs.Cell.{Reached};
ghost use Rattle.taps.specs.Interpolation.{interpolation};
ghost use Rattle.picture.specs.Pixel as Pixel;
ghost use Rattle.picture.specs.Pixel.{Shaped};
ghost use Rattle.sampler.specs.Sampled.{sampled};

use endian::pattern::Pattern;
use picture::picture::Picture;
use picture::shape::Shape;
use picture::size::{bad_size, bad_stock};
use picture::store::store_pixel;
use policies::policy::Policy;
use sample_limit::large::large;
use sampler::interpolate::interpolate_at;
use taps::interpolation::Interpolation;
use taps::sampler::Sampler;

fn wrong_picture(picture: &[u8], shape: Shape) -> bool
    ensures { result ≡ wrong_picture picture.now shape }
{
    if bad_size(shape.width, shape.height, shape.channels) {
        return true;
    }
    bad_stock(picture, shape)
}

fn wrong_codes(policy: u64, code: u64) -> bool
    ensures { result ≡ wrong_codes policy code }
{
    Policy::try_from(policy).is_err() | Interpolation::try_from(code).is_err()
}

pub fn far_coordinate(x: u64) -> bool
    ensures { result ≡ far_coordinate x }
{
    !f64::bits_within(x, 0x41d0_0000_0040_0000)
}

pub fn unfit_sample(
    picture: &[u8],
    shape: Shape,
    policy: u64,
    code: u64,
    background: &[u8; 16],
    x: u64,
    y: u64,
) -> bool
    ensures { result ≡ unfit_sample picture.now shape policy code background.now x y }
{
    if wrong_picture(picture, shape) {
        return true;
    }
    if wrong_codes(policy, code) {
        return true;
    }
    if large(
        picture,
        (shape.width * shape.height * shape.channels) as usize,
    ) {
        return true;
    }
    if large(background, 4) {
        return true;
    }
    if far_coordinate(x) {
        return true;
    }
    far_coordinate(y)
}

// How the picture is read, where none of the tests applied.
pub fn sampler_of<'a>(
    picture: &'a [u8],
    shape: Shape,
    policy: u64,
    background: &[u8; 16],
) -> Sampler<'a>
    requires shaped { Shaped picture.now shape }
    requires one_pixel { Pixel.Picture background.now 1 1 4 }
    ensures { (code : ℕ) → sampled result (interpolation code) ≡ colours picture.now shape policy code background.now }
{
    let one = Shape {
        width: 1,
        height: 1,
        channels: 4,
    };
    Sampler {
        picture: Picture::new(picture, shape),
        policy: Policy::of_code(policy),
        background: Picture::new(background, one).pixel_at(0, 0),
    }
}

// The colour at a point of the domain, as the pixel numbered k.
pub fn store_colour(s: Sampler, i: Interpolation, x: u64, y: u64, out: &mut [u8], k: u64)
    requires reached { Reached (of_bits binary64 x) × Reached (of_bits binary64 y) }
    requires k_in_bounds { (k * 4 + 4) * 4 ≤ length out.old }
    ensures { out.new ≡ store_colour (sampled s.entry i) x y out.old k }
{
    let c = interpolate_at(s, i, f64::of_bits(x), f64::of_bits(y));
    store_pixel(out, 4, k, c);
}

#[unsafe(no_mangle)]
pub extern "C" fn probe_interpolate(
    picture: &[u8],
    width: u64,
    height: u64,
    channels: u64,
    policy: u64,
    interpolation: u64,
    background: &[u8; 16],
    x: u64,
    y: u64,
    out: &mut [u8; 16],
) -> u64
    ensures { (result, out.new) ≡ probe_interpolate picture.now width height channels policy interpolation
        background.now x y out.old }
{
    let shape = Shape {
        width,
        height,
        channels,
    };
    if unfit_sample(picture, shape, policy, interpolation, background, x, y) {
        return 1;
    }
    let s = sampler_of(picture, shape, policy, background);
    store_colour(s, Interpolation::of_code(interpolation), x, y, out, 0);
    0
}
