// A colour, and the colours that policies name. Assumes nothing.
ghost use Rattle.std.specs.Prelude.{◌≡◌};
ghost use Rattle.picture.specs.Colour as Colour;

#[derive(Clone, Copy)]
pub struct Rgba {
    pub r: f32,
    pub g: f32,
    pub b: f32,
    pub a: f32,
}

// The grey v, with alpha a.
pub fn grey(v: f32, a: f32) -> Rgba
    ensures { result ≡ Colour.grey v a }
{
    Rgba {
        r: v,
        g: v,
        b: v,
        a,
    }
}

// The Rec. 601 luma, as the Rust writes it.
pub fn luma(c: Rgba) -> f32
    ensures { result ≡ Colour.luma c }
{
    0.299 * c.r + 0.587 * c.g + 0.114 * c.b
}
