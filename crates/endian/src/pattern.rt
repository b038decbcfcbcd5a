// Numbers as their bits: an f32 or f64 as its IEEE 754 pattern, NaN included, a signed number in two's complement,
// and the test of a magnitude on the pattern alone, whose limit is at most the pattern of the infinity. Assumes
// nothing else.
ghost use Rattle.std.specs.Prelude.{◌≡◌, ◌≤◌, Bool};
ghost use Rattle.std.specs.Float.{binary32, binary64};
ghost use Rattle.std.specs.Float.Ieee.{of_bits, to_bits};
ghost use Rattle.endian.specs.Bytes.{twos_complement};
ghost use Rattle.number.specs.Magnitude.{within};

// A float that is its pattern. A NaN's pattern may not be made a float as it is, so each gives the one NaN; and of a
// NaN the pattern is the one with the sign clear and only the highest digit set.
pub trait Pattern: Copy {
    type Bits: Copy;

    ghost of_pattern: { Self.Bits → Self };

    ghost to_pattern: { Self → Self.Bits };

    // at most the infinity's
    ghost is_limit: { Self.Bits → Type 0 };

    ghost is_within: { Self.Bits → Self.Bits → Bool };

    // The float of a pattern.
    fn of_bits(bits: Self::Bits) -> Self
        ensures { result ≡ of_pattern bits };

    // The pattern of a float.
    fn bits(self) -> Self::Bits
        ensures { result ≡ to_pattern self };

    // Whether a pattern is that of a number at most `limit` in magnitude, the limit given by its own pattern: the order
    // of floats without a sign is the order of their patterns.
    fn bits_within(bits: Self::Bits, limit: Self::Bits) -> bool
        requires { is_limit limit }
        ensures { result ≡ is_within limit bits };
}

impl Pattern for f32 {
    type Bits = u32;

    ghost of_pattern = { of_bits binary32 };

    ghost to_pattern = { to_bits binary32 };

    ghost is_limit = { λ limit. limit ≤ 0x7f80_0000 };

    ghost is_within = { λ limit bits. within (of_bits binary32 limit) (of_bits binary32 bits) };

    fn of_bits(bits: u32) -> f32 {
        if bits % 0x8000_0000 > 0x7f80_0000 {
            return f32::NAN;
        }
        f32::from_bits(bits)
    }

    fn bits(self) -> u32 {
        if self.is_nan() {
            return 0x7fc0_0000;
        }
        f32::to_bits(self)
    }

    fn bits_within(bits: u32, limit: u32) -> bool {
        bits % 0x8000_0000 <= limit
    }
}

impl Pattern for f64 {
    type Bits = u64;

    ghost of_pattern = { of_bits binary64 };

    ghost to_pattern = { to_bits binary64 };

    ghost is_limit = { λ limit. limit ≤ 0x7ff0_0000_0000_0000 };

    ghost is_within = { λ limit bits. within (of_bits binary64 limit) (of_bits binary64 bits) };

    fn of_bits(bits: u64) -> f64 {
        if bits % 0x8000_0000_0000_0000 > 0x7ff0_0000_0000_0000 {
            return f64::NAN;
        }
        f64::from_bits(bits)
    }

    fn bits(self) -> u64 {
        if self.is_nan() {
            return 0x7ff8_0000_0000_0000;
        }
        f64::to_bits(self)
    }

    fn bits_within(bits: u64, limit: u64) -> bool {
        bits % 0x8000_0000_0000_0000 <= limit
    }
}

// The bits of a signed number.
#[tactic(auto, using(crate::proofs::Patterns::unsigned))]
pub fn bits_of_i64(n: i64) -> u64
    ensures { result ≡ twos_complement n }
{
    n.cast_unsigned()
}
