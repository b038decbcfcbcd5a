// The parts of a cell, each a few operations without a branch, so that the compiler takes several coordinates at a
// time. Assumes of the numbers what specs/Inner says.
ghost use Rattle.std.specs.Prelude.{◌≡◌, cond, ◌*◌, ◌≤◌, pos};
ghost use Rattle.std.specs.Float.Ieee.Nearest.{closest};
ghost use Rattle.exact.specs.Double.{◌⊕◌, ◌⊖◌};
ghost use Rattle.exact.specs.Warp.{half};
ghost use Rattle.number.specs.Floor.{floorℤ};
ghost use Rattle.number.specs.Narrow.{narrow};
ghost use Rattle.taps.specs.Cell.{fraction};
ghost use Rattle.fast_cells.specs.Inner.{nought, has_cell, has_place, Low, Short, Parted, widest_reach};

use number::floor::whole_below;

// Whether u has a cell.
pub fn has_cell(u: f64, reach: u64) -> bool
    requires { reach ≤ widest_reach }
    ensures { result ≡ has_cell reach u }
{
    (u >= 0.5) & (u - 0.5 < reach as f64)
}

// What is worked with in any case: u in index space where it has a cell, and 0 elsewhere.
pub fn kept(u: f64, reach: u64) -> f64
    requires { reach ≤ widest_reach }
    ensures value { result ≡ cond (has_cell reach u) (u ⊖ half) nought }
    ensures low { Low result × Parted result }
{
    if has_cell(u, reach) { u - 0.5 } else { 0.0 }
}

// Whether u has a place by `Nearest`. A u below 0 may have one too, and is passed over.
pub fn has_place(u: f64, reach: u64) -> bool
    requires { reach ≤ widest_reach }
    ensures { result ≡ has_place reach u }
{
    (u >= 0.0) & (u - 0.5 + 0.5 < reach as f64)
}

// What is worked with in any case, by `Nearest`.
pub fn kept_place(u: f64, reach: u64) -> f64
    requires { reach ≤ widest_reach }
    ensures value { result ≡ cond (has_place reach u) (u ⊖ half ⊕ half) nought }
    ensures low { Low result }
{
    if has_place(u, reach) {
        u - 0.5 + 0.5
    } else {
        0.0
    }
}

// The column, or the row, below z. A cast to 32 bits with a sign is one instruction for two of them.
pub fn column(z: f64) -> u32
    requires { Low z }
    ensures { floorℤ z ≡ pos result }
{
    whole_below(z) as i32 as u32
}

// 29 digits of a pattern rounded off, ties to even.
fn without_low_digits(m: u64) -> u64
    requires { m ≤ 0x3ff0000000000000 }
    ensures { result ≡ closest m 0x20000000 * 0x20000000 }
{
    (m + 0xfffffff + m / 0x20000000 % 2) / 0x20000000 * 0x20000000
}

// `number::narrow` without its tests. What is left has the digits of an f32, so that the cast loses nothing.
pub fn narrow_short(d: f64) -> f32
    requires { Short d }
    ensures { result ≡ narrow d }
{
    f64::from_bits(without_low_digits(f64::to_bits(d))) as f32
}

// How far z lies beyond the whole number below it.
pub fn fraction_of(z: f64) -> f32
    requires { Low z × Parted z }
    ensures { result ≡ fraction z }
{
    narrow_short(z - whole_below(z))
}
