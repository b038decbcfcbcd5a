// The cubic weights in bytes. Assumes nothing.
ghost use Rattle.std.specs.Prelude.{◌≡◌};
ghost use Rattle.probe_sampler.specs.Weights.{no_fraction, store_weights, probe_cubic};

use cubic::cubic::{Catrom, Kernel, Spline, cubic_weights};
use endian::bytes::StoreAt;
use endian::pattern::Pattern;
use taps::interpolation::Interpolation;

fn no_fraction(t: f32) -> bool
    ensures { result ≡ no_fraction t }
{
    !(t >= 0.0) | !(t <= 1.0)
}

fn store_weights(out: &mut [u8; 16], w: [f32; 4])
    ensures { out.new ≡ store_weights out.old w }
{
    w[0].store_at(out, 0);
    w[1].store_at(out, 4);
    w[2].store_at(out, 8);
    w[3].store_at(out, 12);
}

#[unsafe(no_mangle)]
pub extern "C" fn probe_cubic(interpolation: u64, t: u32, out: &mut [u8; 16]) -> u64
    ensures { (result, out.new) ≡ probe_cubic interpolation t out.old }
{
    let f = f32::of_bits(t);
    if no_fraction(f) {
        return 1;
    }
    match Interpolation::of_code(interpolation) {
        Interpolation::Catrom => store_weights(out, cubic_weights(f, Catrom::row())),
        Interpolation::Spline => store_weights(out, cubic_weights(f, Spline::row())),
        _ => return 1,
    }
    0
}
