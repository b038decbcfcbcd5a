// Which pixel of the picture, or which colour, a policy names at an index, for every i64: a function for each rule. The
// rules take an index as its 64 bits. A picture has 1 to 4,096 columns and rows.
ghost use Rattle.std.specs.Prelude.{◌≡◌, ◌<◌};
ghost use Rattle.policies.specs.Index.{signed};
ghost use Rattle.policies.specs.Named as Named;
ghost use Rattle.policies.specs.Named.{Sizes, code_of, outside};

use crate::index::{clamped, mirror, parity, tile};
use crate::policy::Policy;
use crate::random::mix;
use endian::pattern::bits_of_i64;

// A pixel by its column and row, or a colour by its kind.
#[derive(Clone, Copy)]
pub enum Tap {
    Pixel(u64, u64),
    Background,
    Black,
    White,
    Gray,
    Transparent,
}

fn edge(w: u64, h: u64, x: u64, y: u64) -> Tap
    requires { Sizes w h }
    ensures { result ≡ outside Policy.Edge w h (signed x) (signed y) }
{
    Tap::Pixel(clamped(x, w), clamped(y, h))
}

fn tiled(w: u64, h: u64, x: u64, y: u64) -> Tap
    requires { Sizes w h }
    ensures { result ≡ outside Policy.Tile w h (signed x) (signed y) }
{
    Tap::Pixel(tile(x, w), tile(y, h))
}

fn mirrored(w: u64, h: u64, x: u64, y: u64) -> Tap
    requires { Sizes w h }
    ensures { result ≡ outside Policy.Mirror w h (signed x) (signed y) }
{
    Tap::Pixel(mirror(x, w), mirror(y, h))
}

fn horizontal_tile(w: u64, h: u64, x: u64, y: u64) -> Tap
    requires { Sizes w h }
    ensures { result ≡ outside Policy.HorizontalTile w h (signed x) (signed y) }
{
    if y < h {
        return Tap::Pixel(tile(x, w), y);
    }
    Tap::Background
}

fn vertical_tile(w: u64, h: u64, x: u64, y: u64) -> Tap
    requires { Sizes w h }
    ensures { result ≡ outside Policy.VerticalTile w h (signed x) (signed y) }
{
    if x < w {
        return Tap::Pixel(x, tile(y, h));
    }
    Tap::Background
}

fn horizontal_tile_edge(w: u64, h: u64, x: u64, y: u64) -> Tap
    requires { Sizes w h }
    ensures { result ≡ outside Policy.HorizontalTileEdge w h (signed x) (signed y) }
{
    Tap::Pixel(tile(x, w), clamped(y, h))
}

fn vertical_tile_edge(w: u64, h: u64, x: u64, y: u64) -> Tap
    requires { Sizes w h }
    ensures { result ≡ outside Policy.VerticalTileEdge w h (signed x) (signed y) }
{
    Tap::Pixel(clamped(x, w), tile(y, h))
}

fn checker_tile(w: u64, h: u64, x: u64, y: u64) -> Tap
    requires { Sizes w h }
    ensures { result ≡ outside Policy.CheckerTile w h (signed x) (signed y) }
{
    if parity(x, w) == parity(y, h) {
        return Tap::Pixel(tile(x, w), tile(y, h));
    }
    Tap::Background
}

fn random(w: u64, h: u64, x: u64, y: u64) -> Tap
    requires { Sizes w h }
    ensures { result ≡ outside Policy.Random w h (signed x) (signed y) }
{
    let z = mix(x, y);
    Tap::Pixel(z % w, z / 4294967296 % h)
}

fn named_outside(policy: Policy, w: u64, h: u64, x: u64, y: u64) -> Tap
    requires { Sizes w h }
    ensures { result ≡ outside policy w h (signed x) (signed y) }
{
    match policy {
        Policy::Edge => edge(w, h, x, y),
        Policy::Background => Tap::Background,
        Policy::Black => Tap::Black,
        Policy::White => Tap::White,
        Policy::Gray => Tap::Gray,
        Policy::Transparent => Tap::Transparent,
        Policy::Tile => tiled(w, h, x, y),
        Policy::Mirror => mirrored(w, h, x, y),
        Policy::HorizontalTile => horizontal_tile(w, h, x, y),
        Policy::VerticalTile => vertical_tile(w, h, x, y),
        Policy::HorizontalTileEdge => horizontal_tile_edge(w, h, x, y),
        Policy::VerticalTileEdge => vertical_tile_edge(w, h, x, y),
        Policy::CheckerTile => checker_tile(w, h, x, y),
        Policy::Random => random(w, h, x, y),
    }
}

// By a policy's code, as the definition has it: another code than the fourteen, with which no call is accepted, counts
// as the last. The inside test comes before any rule. The bits of an index below 0 are a number above every size.
pub fn named(policy: u64, w: u64, h: u64, x: i64, y: i64) -> Tap
    requires { Sizes w h }
    ensures { result ≡ Named.named policy w h x y }
{
    let i = bits_of_i64(x);
    let j = bits_of_i64(y);
    if i < w && j < h {
        return Tap::Pixel(i, j);
    }
    named_outside(Policy::of_code(policy), w, h, i, j)
}

impl Policy {
    pub fn named(self, w: u64, h: u64, x: i64, y: i64) -> Tap
        requires { Sizes w h }
        ensures { result ≡ Named.named (code_of self) w h x y }
    {
        named(self.code(), w, h, x, y)
    }
}
