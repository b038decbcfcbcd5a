// Numbers and floats in bytes, the lowest byte first, at any place of a slice. The compiler joins the byte accesses
// into one load or store. Assumes that the slice holds the place.
ghost use Rattle.std.specs.Prelude.{◌≡◌, ℕ, List, ◌+◌, ◌*◌, ◌≤◌, length, not, T};
ghost use Rattle.std.specs.Float.Ieee.{is_nan};
ghost use Rattle.endian.specs.Bytes.{
  u32_at,
  u64_at,
  f32_at,
  f64_at,
  no_nan_at,
  store_u32,
  store_u64,
  store_i64,
  store_f32,
  store_f64,
};

use crate::pattern::{Pattern, bits_of_i64};

// A number that can be read from bytes.
pub trait ReadAt: Copy {
    ghost size: { ℕ };

    ghost at: { List ℕ → ℕ → Self };

    fn read_at(s: &[u8], place: usize) -> Self
        requires { place + size ≤ length s.now }
        ensures { result ≡ at s.now place };
}

impl ReadAt for u32 {
    ghost size = { 4 };

    ghost at = { u32_at };

    #[tactic(auto, using(crate::proofs::BytesParts::number_four))]
    fn read_at(s: &[u8], place: usize) -> u32 {
        u32::from_le_bytes([s[place], s[place + 1], s[place + 2], s[place + 3]])
    }
}

impl ReadAt for u64 {
    ghost size = { 8 };

    ghost at = { u64_at };

    #[tactic(auto, using(crate::proofs::BytesParts::number_eight))]
    fn read_at(s: &[u8], place: usize) -> u64 {
        u64::from(u32::read_at(s, place)) + u64::from(u32::read_at(s, place + 4)) * 4294967296
    }
}

impl ReadAt for f64 {
    ghost size = { 8 };

    ghost at = { f64_at };

    fn read_at(s: &[u8], place: usize) -> f64 {
        f64::of_bits(u64::read_at(s, place))
    }
}

// A number that can be stored in bytes.
pub trait StoreAt: Copy {
    ghost size: { ℕ };

    ghost stored: { List ℕ → ℕ → Self → List ℕ };

    fn store_at(self, s: &mut [u8], place: usize)
        requires { place + size ≤ length s.old }
        ensures { s.new ≡ stored s.old place self };
}

impl StoreAt for u32 {
    ghost size = { 4 };

    ghost stored = { store_u32 };

    #[tactic(auto, using(crate::proofs::BytesParts::store_four))]
    fn store_at(self, s: &mut [u8], place: usize) {
        let bytes = self.to_le_bytes();
        s[place] = bytes[0];
        s[place + 1] = bytes[1];
        s[place + 2] = bytes[2];
        s[place + 3] = bytes[3];
    }
}

impl StoreAt for u64 {
    ghost size = { 8 };

    ghost stored = { store_u64 };

    #[tactic(auto, using(crate::proofs::BytesParts::store_eight))]
    fn store_at(self, s: &mut [u8], place: usize) {
        ((self % 4294967296) as u32).store_at(s, place);
        ((self / 4294967296) as u32).store_at(s, place + 4);
    }
}

impl StoreAt for i64 {
    ghost size = { 8 };

    ghost stored = { store_i64 };

    fn store_at(self, s: &mut [u8], place: usize) {
        bits_of_i64(self).store_at(s, place);
    }
}

impl StoreAt for f32 {
    ghost size = { 4 };

    ghost stored = { store_f32 };

    fn store_at(self, s: &mut [u8], place: usize) {
        self.bits().store_at(s, place);
    }
}

impl StoreAt for f64 {
    ghost size = { 8 };

    ghost stored = { store_f64 };

    fn store_at(self, s: &mut [u8], place: usize) {
        self.bits().store_at(s, place);
    }
}

// The f32 that four bytes are, where they are known to be no NaN's: no test.
#[tactic(auto, using(exact::proofs::Patterns::pattern_number))]
pub fn f32_number_at(s: &[u8], at: usize) -> f32
    requires at_in_bounds { at + 4 ≤ length s.now }
    requires no_nan_at { no_nan_at s.now at }
    ensures { result ≡ f32_at s.now at }
{
    f32::from_bits(u32::read_at(s, at))
}

// `store_at` of a float that is known to be no NaN: no test.
pub fn store_f32_number(s: &mut [u8], at: usize, x: f32)
    requires { (at + 4 ≤ length s.old) × T (not (is_nan x)) }
    ensures { s.new ≡ store_f32 s.old at x }
{
    f32::to_bits(x).store_at(s, at);
}

// Whether the float at a place is a number of at most `limit` in magnitude, the limit given by its pattern.
pub fn within<F: Pattern>(s: &[u8], at: usize, limit: F::Bits) -> bool
where
    F::Bits: ReadAt,
    requires { (at + F.Bits.size ≤ length s.now) × F.is_limit limit }
    ensures { result ≡ F.is_within limit (F.Bits.at s.now at) }
{
    F::bits_within(F::Bits::read_at(s, at), limit)
}
