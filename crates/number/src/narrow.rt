// An f64 to the nearest f32, ties to even, for every f64: there is no cast that rounds. It works on the bits. A pattern
// without its sign's bit is a whole number that grows with the value, so rounding 29 digits off it rounds the
// value, and a carry out of the digits goes into the exponent's field, up to the pattern of the infinity.
ghost use Rattle.std.specs.Prelude.{◌≡◌, ◌+◌, ◌*◌, ◌%◌, ◌<◌, ◌≤◌, not, T, from_bits, is_nan, to_bits};
ghost use Rattle.std.specs.Float.{binary32, binary64};
ghost use Rattle.std.specs.Float.Ieee.Nearest.{closest};
ghost use Rattle.number.specs.Narrow.{narrow};

// the pattern of 2^-126, the least f32 with all its digits
const LEAST_NORMAL: u64 = 0x3810_0000_0000_0000;

// the pattern of 2^128, past the largest f32
const PAST_LARGEST: u64 = 0x47f0_0000_0000_0000;

// a whole unit of an f32's last digit in an f64's pattern: 29 digits
const UNIT: u64 = 0x2000_0000;

// the biases' difference, 1023 - 127, in the field of an f32's exponent
const BIASES_APART: u64 = 0x1_c000_0000;

// 2^52, the weight of the exponent's field
const FIELD: u64 = 0x10_0000_0000_0000;

// fields below this one leave less than half of 2^-149
const LEAST_FIELD: u64 = 873;

// an f64 with this field counts its last digit in units of 2^-149
const UNIT_FIELD: u64 = 926;

// an f32's infinity
const INFINITY: u64 = 0x7f80_0000;

// the sign's bit of an f64, and of an f32
const SIGN: u64 = 0x8000_0000_0000_0000;

const SIGN_32: u64 = 0x8000_0000;

// a / unit to the nearest whole number, ties to even, for an even unit.
fn closest(a: u64, unit: u64) -> u64
    requires { (unit % 2 ≡ 0) × ((0 < unit) × (a + unit < 0x10000000000000000)) }
    ensures { result ≡ closest a unit }
{
    (a + (unit / 2 - 1) + (a / unit) % 2) / unit
}

// From 2^-126 on, below 2^128: 29 digits fewer, and the exponent's bias is 127 instead of 1023.
fn ordinary(m: u64) -> u64
    requires { (0x3810000000000000 ≤ m) × (m < 0x47f0000000000000) }
    ensures { result ≡ to_bits binary32 (narrow (from_bits binary64 m)) }
{
    closest(m, UNIT) - BIASES_APART
}

// Below 2^-126 the result is a whole number of 2^-149. The significand is 2^(926 - field) times too large for that
// unit; from 2^54 on less than half a unit is left.
fn subnormal(m: u64) -> u64
    requires { m < 0x3810000000000000 }
    ensures { result ≡ to_bits binary32 (narrow (from_bits binary64 m)) }
{
    let field = m / FIELD;
    if field < LEAST_FIELD {
        return 0;
    }
    closest(FIELD + m % FIELD, 1 << (UNIT_FIELD - field))
}

// The pattern of the f32 that is nearest to the f64 with the pattern m, both without the sign's bit.
fn pattern(m: u64) -> u64
    requires { m ≤ 0x7ff0000000000000 }
    ensures { result ≡ to_bits binary32 (narrow (from_bits binary64 m)) }
{
    if LEAST_NORMAL <= m && m < PAST_LARGEST {
        ordinary(m)
    } else if m < LEAST_NORMAL {
        subnormal(m)
    } else {
        INFINITY
    }
}

// Any number, of either sign.
fn signed(x: f64) -> f32
    requires { T (not (is_nan x)) }
    ensures { result ≡ narrow x }
{
    let bits = f64::to_bits(x);
    let p = pattern(bits % SIGN);
    f32::from_bits(((bits / SIGN) * SIGN_32 + p) as u32)
}

// Of a number that is known to be none of the NaNs. From 2^-126 on, below 2^128, one test is all: what a coordinate has
// beyond its floor lies there nearly always.
pub fn narrow_number(x: f64) -> f32
    requires { T (not (is_nan x)) }
    ensures { result ≡ narrow x }
{
    let bits = f64::to_bits(x);
    if LEAST_NORMAL <= bits && bits < PAST_LARGEST {
        return f32::from_bits(ordinary(bits) as u32);
    }
    signed(x)
}

// What Rust's `x as f32` is.
pub fn narrow(x: f64) -> f32
    ensures { result ≡ narrow x }
{
    if x.is_nan() {
        return f32::NAN;
    }
    narrow_number(x)
}
