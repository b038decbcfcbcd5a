// The four taps of a cell that lies inside, read straight from the bytes, no policy asked: their sums and their
// weighted mean. Assumes nothing.
ghost use Rattle.std.specs.Prelude.{◌≡◌, ◌+◌, ◌<◌};
ghost use Rattle.sampler.specs.TwoByTwo as TwoByTwo;
ghost use Rattle.sampler.specs.TwoByTwo.{two_by_two_sums};

use picture::colour::Rgba;
use picture::picture::Picture;
use taps::weighted::{Sums, added, mean, nothing};
use taps::weights::BilinearWeights;

// A row and the row after it, at the weights, whose sum is handed in with them. Where `channels` is a literal at the
// call, it is asked once and not at each tap; as a const parameter it would need a case for two channels, too, which no
// call has. A sum of weights that is worked out elsewhere leaves four sums alike, which the compiler works out side by
// side.
fn sums(picture: Picture, channels: u64, i: u64, j: u64, w: BilinearWeights) -> Sums
    requires same_channels { channels ≡ picture.channels }
    requires i_bound { (i + 1 < picture.width) × (j + 1 < picture.height) }
    ensures { result ≡ two_by_two_sums picture.entry.bytes.now picture.entry.width channels i j w.w00 w.w10 w.w01 w.w11
        w.sum }
{
    let k = (j * picture.width + i) * channels;
    let n = k + picture.width * channels;
    let upper = added(
        picture.widened(channels, k + channels),
        w.w10,
        added(picture.widened(channels, k), w.w00, nothing()),
    );
    let s = added(
        picture.widened(channels, n + channels),
        w.w11,
        added(picture.widened(channels, n), w.w01, upper),
    );
    Sums {
        r: s.r,
        g: s.g,
        b: s.b,
        a: s.a,
        weight: w.sum,
    }
}

// The quotients of sums by the sum of weights.
fn over_weight(s: Sums) -> Rgba
    ensures { result ≡ TwoByTwo.over_weight s }
{
    Rgba {
        r: s.r / s.weight,
        g: s.g / s.weight,
        b: s.b / s.weight,
        a: s.a / s.weight,
    }
}

// The colour of the cell at column i and row j, by its weights and their sum. The channels are literals, so that they
// are asked once and not at each tap; so they are a parameter here, too.
pub fn mixed(picture: Picture, channels: u64, i: u64, j: u64, w: BilinearWeights) -> Rgba
    requires same_channels { channels ≡ picture.channels }
    requires i_bound { (i + 1 < picture.width) × (j + 1 < picture.height) }
    ensures { result ≡ TwoByTwo.mixed picture.entry.bytes.now picture.entry.width channels i j w.w00 w.w10 w.w01 w.w11
        w.sum }
{
    if channels == 4 {
        return mean(sums(picture, 4, i, j, w));
    }
    if channels == 3 {
        return over_weight(sums(picture, 3, i, j, w));
    }
    over_weight(sums(picture, channels, i, j, w))
}
