// A colour as four numbers. What a function that is not inlined returns lies in memory; taken apart there, it does not
// draw the colours of the other ways into memory with it, where they would be stored in pieces and read in others.
// Assumes nothing.
ghost use Rattle.std.specs.Prelude.{◌≡◌};

use picture::colour::Rgba;

pub fn apart(c: Rgba) -> Rgba
    ensures { result ≡ c }
{
    Rgba {
        r: c.r,
        g: c.g,
        b: c.b,
        a: c.a,
    }
}
