// The pixel at a column and row inside the picture, as four components. Assumes that the place lies inside.
ghost use Rattle.std.specs.Prelude.{◌≡◌, ◌+◌, ◌*◌, ◌≤◌, ◌<◌, length};
ghost use Rattle.endian.specs.Bytes.{sample_at};
ghost use Rattle.picture.specs.Pixel as Pixel;
ghost use Rattle.picture.specs.Pixel.{Limited, pixel_at};

use crate::colour::{Rgba, grey};
use crate::picture::Picture;
use endian::bytes::f32_number_at;

// The sample numbered k of bytes that hold numbers alone, which is no NaN.
pub fn sample(bytes: &[u8], k: u64) -> f32
    requires { ((k + 1) * 4 ≤ length bytes.now) × Limited bytes.now }
    ensures { result ≡ sample_at bytes.now k }
{
    f32_number_at(bytes, 4 * k as usize)
}

// The pixel whose first sample is numbered k. A picture of one channel has no second sample to read. The number of
// channels is handed in, so that it can be a literal at the call, which is asked once and not at each pixel.
pub fn widened(bytes: &[u8], channels: u64, k: u64) -> Rgba
    requires { ((0 < channels) × ((k + channels) * 4 ≤ length bytes.now)) × Limited bytes.now }
    ensures { result ≡ Pixel.widened bytes.now channels k }
{
    if channels == 4 {
        return Rgba {
            r: sample(bytes, k),
            g: sample(bytes, k + 1),
            b: sample(bytes, k + 2),
            a: sample(bytes, k + 3),
        };
    }
    if channels == 3 {
        return Rgba {
            r: sample(bytes, k),
            g: sample(bytes, k + 1),
            b: sample(bytes, k + 2),
            a: 1.0,
        };
    }
    grey(sample(bytes, k), 1.0)
}

impl<'a> Picture<'a> {
    // `widened` of the picture's bytes.
    pub fn widened(self, channels: u64, k: u64) -> Rgba
        requires { (0 < channels) × ((k + channels) * 4 ≤ length self.bytes.now) }
        ensures { result ≡ Pixel.widened self.entry.bytes.now channels k }
    {
        widened(self.bytes, channels, k)
    }

    pub fn pixel_at(self, x: u64, y: u64) -> Rgba
        requires { (x < self.width) × (y < self.height) }
        ensures { result ≡ pixel_at self.entry.bytes.now self.entry.width self.entry.channels x y }
    {
        self.widened(self.channels, (y * self.width + x) * self.channels)
    }
}
