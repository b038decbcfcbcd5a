// The mean of sixteen taps inside, read straight from the bytes, row by row. Assumes nothing.
ghost use Rattle.std.specs.Prelude.{◌≡◌, ◌+◌, ◌*◌, ◌≤◌, ◌<◌, pos, length};
ghost use Rattle.taps.specs.Taps.{taps};
ghost use Rattle.taps.specs.Weighted.{weighted};
ghost use Rattle.taps.specs.Weights.{products};
ghost use Rattle.sampler.specs.FourByFour.{own, line_sums};

use picture::colour::Rgba;
use picture::picture::Picture;
use taps::weighted::{Sums, added, mean, nothing};

// The sums with a row of four taps added, whose samples are numbered from k on.
fn line(picture: Picture, channels: u64, k: u64, wx: &[f32; 4], v: f32, s: Sums) -> Sums
    requires channels_nonzero { (0 < channels) × (channels ≤ 4) }
    requires channels_in_bounds { (k + 4 * channels) * 4 ≤ length picture.bytes.now }
    ensures { result ≡ line_sums picture.entry.bytes.now channels k wx.now v s }
{
    let last = k + 3 * channels;
    let a = added(picture.widened(channels, k), wx[0] * v, s);
    let b = added(picture.widened(channels, k + channels), wx[1] * v, a);
    let c = added(picture.widened(channels, k + 2 * channels), wx[2] * v, b);
    added(picture.widened(channels, last), wx[3] * v, c)
}

// The same with the number of channels as a literal, so that it is asked once and not at each tap.
fn line_of(picture: Picture, k: u64, wx: &[f32; 4], v: f32, s: Sums) -> Sums
    requires { (k + 4 * picture.channels) * 4 ≤ length picture.bytes.now }
    ensures { result ≡ line_sums picture.entry.bytes.now picture.entry.channels k wx.now v s }
{
    if picture.channels == 4 {
        return line(picture, 4, k, wx, v, s);
    }
    if picture.channels == 3 {
        return line(picture, 3, k, wx, v, s);
    }
    line(picture, picture.channels, k, wx, v, s)
}

// The weighted mean of the sixteen taps from column i, row j on.
pub fn four_by_four(picture: Picture, i: u64, j: u64, wx: &[f32; 4], wy: &[f32; 4]) -> Rgba
    requires { (i + 3 < picture.width) × (j + 3 < picture.height) }
    ensures { result ≡ weighted (taps (own picture.entry.bytes.now picture.entry.width picture.entry.channels)
        (record { column = pos i; row = pos j }) 4) (products wx.now wy.now) 16 }
{
    let mut s = nothing();
    for (m, v) in wy.iter().enumerate() {
        let k = ((j + m as u64) * picture.width + i) * picture.channels;
        s = line_of(picture, k, wx, *v, s);
    }
    mean(s)
}
