// The sampler at many points in one call, so that a point can be timed without the test of the picture. Assumes
// nothing.
ghost use Rattle.std.specs.Prelude.{◌≡◌, ◌+◌, ◌*◌, ◌/◌, ◌≤◌, length};
ghost use Rattle.probe_sampler.specs.Many.{store_sampled, store_samples, probe_samples};
ghost use Rattle.sampler.specs.Sampled.{sampled};

use crate::sampled::{far_coordinate, sampler_of, store_colour, unfit_sample};
use endian::bytes::ReadAt;
use picture::shape::Shape;
use taps::interpolation::Interpolation;
use taps::sampler::Sampler;

// The colour at the point numbered k, as the pixel numbered k. A point beyond the domain is passed over.
fn store_sampled(s: Sampler, i: Interpolation, points: &[u8], k: usize, out: &mut [u8])
    requires { (16 * k + 16 ≤ length points.now) × (16 * k + 16 ≤ length out.old) }
    ensures { out.new ≡ store_sampled (sampled s.entry i) points.now k out.old }
{
    let x = u64::read_at(points, 16 * k);
    let y = u64::read_at(points, 16 * k + 8);
    if far_coordinate(x) || far_coordinate(y) {
        return;
    }
    store_colour(s, i, x, y, out, k as u64);
}

fn store_samples(s: Sampler, i: Interpolation, points: &[u8], out: &mut [u8])
    requires { length points.now ≡ length out.old }
    ensures { out.new ≡ store_samples (sampled s.entry i) points.now out.old }
{
    let n = points.len() / 16;
    for k in 0..n {
        store_sampled(s, i, points, k, out);
    }
}

// x and y of a point are the bits of two f64, and its colour is four f32: 16 bytes each.
#[unsafe(no_mangle)]
pub extern "C" fn probe_samples(
    picture: &[u8],
    width: u64,
    height: u64,
    channels: u64,
    policy: u64,
    interpolation: u64,
    background: &[u8; 16],
    points: &[u8],
    out: &mut [u8],
) -> u64
    ensures { (result, out.new) ≡ probe_samples picture.now width height channels policy interpolation
        background.now points.now out.old }
{
    if points.len() != out.len() {
        return 1;
    }
    let shape = Shape {
        width,
        height,
        channels,
    };
    if unfit_sample(picture, shape, policy, interpolation, background, 0, 0) {
        return 1;
    }
    let s = sampler_of(picture, shape, policy, background);
    store_samples(s, Interpolation::of_code(interpolation), points, out);
    0
}
