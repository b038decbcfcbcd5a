// One side of the window: where it starts and how many pixels it has; none where it is beyond the limits. Assumes
// nothing.
ghost use Rattle.std.specs.Prelude.{◌≡◌, ◌&&◌, pos, ◌≤ℤ◌, from_bits};
ghost use Rattle.std.specs.Float.Ieee.{le};
ghost use Rattle.std.specs.Float.{binary64};
ghost use Rattle.std.specs.Float.Ieee.Scale.{finite};
ghost use Rattle.exact.specs.Limits.{farthest_floor};
ghost use Rattle.window.specs.Extent as Side;

use crate::ceil::ceil_i64;
use number::floor::floor_i64;

#[derive(Clone, Copy)]
pub struct Extent {
    pub from: i64,
    pub length: u64,
}

// The largest side in pixels, and the offsets' limits.
pub const LARGEST_SIDE: u64 = 4096;

const LEAST_OFFSET: i64 = -1048576;

const LARGEST_OFFSET: i64 = 1048576;

pub fn good_offset(from: i64) -> bool
    ensures { result ≡ Side.good_offset from }
{
    (from >= LEAST_OFFSET) & (from <= LARGEST_OFFSET)
}

pub fn held(from: i64, length: u64) -> Option<Extent>
    ensures { result ≡ Side.held from length }
{
    if good_offset(from) & (length > 0) & (length <= LARGEST_SIDE) {
        return Some(Extent { from, length });
    }
    None
}

// From `from` up to `to`: one pixel at least.
fn from_to(from: i64, to: i64) -> Option<Extent>
    requires { to ≤ℤ pos farthest_floor }
    ensures { result ≡ Side.from_to from to }
{
    if !good_offset(from) {
        return None;
    }
    if to <= from {
        return held(from, 1);
    }
    held(from, (to - from) as u64)
}

// A number, and not above what floor and ceil count.
fn counts(x: f64) -> bool
    ensures { result ≡ (finite x && le x (from_bits binary64 0x41e0_0000_0000_0000)) }
{
    (x > -1.0 / 0.0) & (x <= 2147483648.0)
}

// An edge that floor or ceil does not count is beyond the limits, but for a high edge far below the low one.
pub fn extent_of(low: f64, high: f64) -> Option<Extent>
    ensures { result ≡ Side.extent_of low high }
{
    let top = high + 0.5;
    if !counts(top) {
        return None;
    }
    from_to(floor_i64(low - 0.5), ceil_i64(top))
}
