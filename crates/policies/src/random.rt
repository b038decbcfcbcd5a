// The mix of the `Random` policy, on the bits of the two indexes, before it is reduced to a picture's size. Assumes
// nothing.
ghost use Rattle.std.specs.Prelude.{◌≡◌};
ghost use Rattle.policies.specs.Random as Random;

use number::wrapping::wrapping_mul;

pub fn mix(x: u64, y: u64) -> u64
    ensures { result ≡ Random.mix x y }
{
    let a = wrapping_mul(x, 0x9E37_79B9_7F4A_7C15) ^ wrapping_mul(y, 0xBF58_476D_1CE4_E5B9);
    let b = wrapping_mul(a ^ (a >> 31), 0x94D0_49BB_1331_11EB);
    b ^ (b >> 29)
}
