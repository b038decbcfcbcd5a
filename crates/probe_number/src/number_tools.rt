// The number tools, by their bits. Assumes nothing.
ghost use Rattle.std.specs.Prelude.{◌≡◌};
ghost use Rattle.std.specs.Float.{binary32, binary64};
ghost use Rattle.std.specs.Float.Ieee.{of_bits, to_bits};
ghost use Rattle.number.specs.Floor.{floor_i64};
ghost use Rattle.number.specs.Narrow as Narrow;
ghost use Rattle.number.specs.Root as Root;
ghost use Rattle.exact.specs.Power.{power};
ghost use Rattle.number.specs.Wrapping.{wrapped};

use endian::pattern::Pattern;

// The floor, or the least i64 outside a magnitude of 2^31.
#[unsafe(no_mangle)]
pub extern "C" fn probe_floor(x: u64) -> i64
    ensures { result ≡ floor_i64 (of_bits binary64 x) }
{
    number::floor::floor_i64(f64::of_bits(x))
}

#[unsafe(no_mangle)]
pub extern "C" fn probe_narrow(x: u64) -> u32
    ensures { result ≡ to_bits binary32 (Narrow.narrow (of_bits binary64 x)) }
{
    number::narrow::narrow(f64::of_bits(x)).bits()
}

#[unsafe(no_mangle)]
pub extern "C" fn probe_root(x: u64) -> u64
    ensures { result ≡ to_bits binary64 (Root.root (of_bits binary64 x)) }
{
    number::root::root(f64::of_bits(x)).bits()
}

// An exponent above 5 counts as 5.
#[unsafe(no_mangle)]
pub extern "C" fn probe_powi(x: u64, n: u64) -> u64
    ensures { result ≡ to_bits binary64 (power (of_bits binary64 x) n) }
{
    number::power::powi(f64::of_bits(x), n).bits()
}

#[unsafe(no_mangle)]
pub extern "C" fn probe_wrapping_mul(a: u64, b: u64) -> u64
    ensures { result ≡ wrapped a b }
{
    number::wrapping::wrapping_mul(a, b)
}
