// Where an output pixel asks. Assumes that it lies within the limits of a window, so that the casts lose nothing.
ghost use Rattle.std.specs.Prelude.{◌≡◌, ◌≤◌, nat_abs};
ghost use Rattle.std.specs.Float.{binary64};
ghost use Rattle.std.specs.Float.Ieee.{of_int};
ghost use Rattle.exact.specs.Limits.{largest_offset, largest_side};
ghost use Rattle.exact.specs.Sums.{asked};
ghost use Rattle.fast_points.specs.Points as Points;

// A window's offset as a float.
pub fn offset(x: i64) -> f64
    requires { nat_abs x ≤ largest_offset }
    ensures { result ≡ of_int binary64 x }
{
    x as f64
}

// The middle of column or row i of a window at the offset. A cast from 32 bits is one instruction, for several pixels
// at a time.
pub fn pixel_middle(i: u32, x: f64) -> f64
    requires { i ≤ largest_side }
    ensures { result ≡ Points.pixel_middle i x }
{
    ((i as i32) as f64) + x + 0.5
}

// Column or row i of a window at the offset: at its pixel's middle.
pub fn asked(i: u64, x: i64) -> f64
    requires { (i ≤ largest_side) × (nat_abs x ≤ largest_offset) }
    ensures { result ≡ asked i x }
{
    pixel_middle(i as u32, offset(x))
}
