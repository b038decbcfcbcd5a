// What no picture has: a side, a number of channels, a length. Refusals 1 and 2 (specification 2). The test of the
// length, which counts the samples, assumes that the sizes passed theirs; the others assume nothing.
ghost use Rattle.std.specs.Prelude.{◌≡◌, false};
ghost use Rattle.picture.specs.Size.{bad_side, bad_channels, bad_size, bad_stock};

use crate::shape::Shape;

const LARGEST_SIDE: u64 = 4096;

// A width or height.
pub fn bad_side(n: u64) -> bool
    ensures { result ≡ bad_side n }
{
    (n == 0) | (LARGEST_SIDE < n)
}

fn bad_channels(n: u64) -> bool
    ensures { result ≡ bad_channels n }
{
    !((n == 1) | ((n == 3) | (n == 4)))
}

// 1, size.
pub fn bad_size(width: u64, height: u64, channels: u64) -> bool
    ensures { result ≡ bad_size width height channels }
{
    bad_side(width) | (bad_side(height) | bad_channels(channels))
}

// 2, stock.
pub fn bad_stock(picture: &[u8], shape: Shape) -> bool
    requires { bad_size shape.width shape.height shape.channels ≡ false }
    ensures { result ≡ bad_stock picture.now shape.width shape.height shape.channels }
{
    picture.len() as u64 != shape.width * shape.height * shape.channels * 4
}
