// The pixel at an integer index, virtual outside: the Rust's `Sampler::at`. Assumes nothing.
ghost use Rattle.std.specs.Prelude.{◌≡◌};
ghost use Rattle.policies.specs.Named.{code_of, Lies};
ghost use Rattle.picture.specs.At as At;

use crate::colour::{Rgba, grey};
use crate::picture::Picture;
use endian::pattern::bits_of_i64;
use policies::named::{Tap, named};
use policies::policy::Policy;

impl<'a> Picture<'a> {
    // What was named, as a colour.
    pub fn tap_samples(self, background: Rgba, t: Tap) -> Rgba
        requires { Lies self.width self.height t }
        ensures { result ≡ At.tap_samples self.entry.bytes.now self.entry.width self.entry.channels background t }
    {
        match t {
            Tap::Pixel(x, y) => self.pixel_at(x, y),
            Tap::Background => background,
            Tap::Black => grey(0.0, 1.0),
            Tap::White => grey(1.0, 1.0),
            Tap::Gray => grey(0.5, 1.0),
            Tap::Transparent => grey(0.0, 0.0),
        }
    }

    pub fn at(self, policy: Policy, background: Rgba, x: i64, y: i64) -> Rgba
        ensures { result ≡ At.at self.entry.bytes.now self.entry.width self.entry.height self.entry.channels
            (code_of policy) background x y }
    {
        at(self, policy.code(), background, x, y)
    }
}

// By a policy's code, as the definition has it: another code than the fourteen, with which no call is accepted, counts
// as the last. An index inside asks no policy.
pub fn at(picture: Picture, policy: u64, background: Rgba, x: i64, y: i64) -> Rgba
    ensures { result ≡ At.at picture.entry.bytes.now picture.entry.width picture.entry.height
        picture.entry.channels policy background x y }
{
    let i = bits_of_i64(x);
    let j = bits_of_i64(y);
    if i < picture.width && j < picture.height {
        return picture.pixel_at(i, j);
    }
    let t = named(policy, picture.width, picture.height, x, y);
    picture.tap_samples(background, t)
}
