// An index along one side of a picture, of n pixels: where it falls by each rule. An index is passed as its 64 bits, so
// that every number is unsigned: 2^63 and more stand for an index below 0, and are counted back from -1.
ghost use Rattle.std.specs.Prelude.{◌≡◌, ◌≤◌, ◌<◌};
ghost use Rattle.exact.specs.Limits.{largest_side};
ghost use Rattle.policies.specs.Index as Index;
ghost use Rattle.policies.specs.Index.{signed};

pub fn clamped(v: u64, n: u64) -> u64
    requires { 0 < n }
    ensures { result ≡ Index.clamped (signed v) n }
{
    if v >= 0x8000_0000_0000_0000 {
        return 0;
    }
    if v < n { v } else { n - 1 }
}

pub fn tile(v: u64, n: u64) -> u64
    requires { 0 < n }
    ensures { result ≡ Index.tile (signed v) n }
{
    if v >= 0x8000_0000_0000_0000 {
        return n - 1 - (0xffff_ffff_ffff_ffff - v) % n;
    }
    v % n
}

pub fn mirror(v: u64, n: u64) -> u64
    requires { (0 < n) × (n ≤ largest_side) }
    ensures { result ≡ Index.mirror (signed v) n }
{
    let m = tile(v, 2 * n);
    if m < n { m } else { 2 * n - 1 - m }
}

// Whether the copy of the picture that v falls into has an odd number: 0 or 1.
pub fn parity(v: u64, n: u64) -> u64
    requires { 0 < n }
    ensures { result ≡ Index.parity (signed v) n }
{
    if v >= 0x8000_0000_0000_0000 {
        return 1 - (0xffff_ffff_ffff_ffff - v) / n % 2;
    }
    v / n % 2
}
