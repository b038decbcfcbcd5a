// The fitted mapping in bytes: how many coefficients it has, and then their bits. Assumes nothing.
ghost use Rattle.std.specs.Prelude.{◌≡◌, ◌+◌, ◌*◌, ◌≤◌, min, length};
ghost use Rattle.exact.specs.Loop.{up_to};
ghost use Rattle.probe_fit.specs.Fitted.{store_coefficient, probe_fit};

use crate::sized::sized_fit;
use endian::bytes::StoreAt;

fn most(count: u64) -> usize
    ensures { result ≡ min count 256 }
{
    count.min(256) as usize
}

// The first n coefficients, after the count.
fn store_coefficients(out: &mut [u8], coef: &[f64; 256], n: usize)
    requires { (8 + 8 * n ≤ length out.old) × (n ≤ 256) }
    ensures { out.new ≡ up_to (store_coefficient coef.now) 0 n out.old }
{
    for k in 0..n {
        coef[k].store_at(out, 8 + 8 * k);
    }
}

// Width or height 0 or above 4,096 is refused by 1.
pub fn probe_fit(
    method: u64,
    arguments: &[u8],
    width: u64,
    height: u64,
    out: &mut [u8; 2064],
) -> u64
    ensures { (result, out.new) ≡ probe_fit method arguments.now width height out.old }
{
    match sized_fit(method, arguments, width, height) {
        Ok(m) => {
            m.count.store_at(out, 0);
            store_coefficients(out, &m.coef, most(m.count));
            0
        }
        Err(r) => r.number(),
    }
}
