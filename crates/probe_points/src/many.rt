// Source points in bytes, many by one fit: so that the time of a point is told from that of the fit. Assumes nothing.
ghost use Rattle.std.specs.Prelude.{◌≡◌, ◌*◌, ◌≤◌, length};
ghost use Rattle.exact.specs.Loop.{up_to};
ghost use Rattle.probe_points.specs.Points.{wrong_lengths, store_next, probe_points};

use crate::pointed::store_point;
use endian::bytes::ReadAt;
use inverse::source::inverse;
use mappings::mapping::Mapping;
use probe_fit::sized::sized_fit;

// Points of 16 bytes go in, points of 24 come out, as many.
fn wrong_lengths(points: usize, out: usize) -> bool
    ensures { result ≡ wrong_lengths points out }
{
    (points % 16 != 0) | ((out % 24 != 0) | (points / 16 != out / 24))
}

fn store_points(out: &mut [u8], points: &[u8], mapping: &Mapping, n: usize)
    requires { (n * 24 ≤ length out.old) × (n * 16 ≤ length points.now) }
    ensures { out.new ≡ up_to (store_next mapping.now points.now) 0 n
        out.old }
{
    for k in 0..n {
        let x = f64::read_at(points, k * 16);
        let y = f64::read_at(points, k * 16 + 8);
        let p = inverse(mapping, x, y);
        store_point(out, k * 24, p);
    }
}

// The fit is refused as `probe_fit` refuses it, and then lengths that do not fit by 12.
#[unsafe(no_mangle)]
pub extern "C" fn probe_points(
    method: u64,
    arguments: &[u8],
    width: u64,
    height: u64,
    points: &[u8],
    out: &mut [u8],
) -> u64
    ensures { (result, out.new) ≡ probe_points method arguments.now width height
        points.now out.old }
{
    let mapping = match sized_fit(method, arguments, width, height) {
        Ok(m) => m,
        Err(r) => return r.number(),
    };
    if wrong_lengths(points.len(), out.len()) {
        return 12;
    }
    store_points(out, points, &mapping, points.len() / 16);
    0
}
