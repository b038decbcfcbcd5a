// A source point in bytes: the bits of its coordinates, and whether it is usable. Assumes nothing.
ghost use Rattle.std.specs.Prelude.{◌≡◌, ◌+◌, ◌≤◌, length};
ghost use Rattle.window.specs.View.{flag};
ghost use Rattle.probe_points.specs.Pointed.{store_point, probe_inverse};

use endian::bytes::StoreAt;
use endian::pattern::Pattern;
use inverse::source::inverse;
use point::point::Point;
use probe_fit::sized::sized_fit;

fn flag(b: bool) -> u64
    ensures { result ≡ flag b }
{
    u64::from(b)
}

pub fn store_point(out: &mut [u8], at: usize, p: Point)
    requires { at + 24 ≤ length out.old }
    ensures { out.new ≡ store_point out.old at p }
{
    p.u.store_at(out, at);
    p.v.store_at(out, at + 8);
    flag(p.usable).store_at(out, at + 16);
}

// Width or height 0 or above 4,096 is refused by 1. x and y are the bits of the output point.
#[unsafe(no_mangle)]
pub extern "C" fn probe_inverse(
    method: u64,
    arguments: &[u8],
    width: u64,
    height: u64,
    x: u64,
    y: u64,
    out: &mut [u8; 24],
) -> u64
    ensures { (result, out.new) ≡ probe_inverse method arguments.now width height x y
        out.old }
{
    match sized_fit(method, arguments, width, height) {
        Ok(m) => {
            let u = f64::of_bits(x);
            let v = f64::of_bits(y);
            store_point(out, 0, inverse(&m, u, v));
            0
        }
        Err(r) => r.number(),
    }
}
