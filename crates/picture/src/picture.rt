// A picture: its bytes with the sizes by which they are read. What every reader of its pixels relies on, that the bytes
// are a picture's of these sizes and of numbers, holds of each value of the type. Assumes nothing.
ghost use Rattle.std.specs.Prelude.{◌≡◌};
ghost use Rattle.picture.specs.Pixel.{Picture, Shaped};

use crate::shape::Shape;

#[derive(Clone, Copy)]
pub struct Picture<'a> {
    pub bytes: &'a [u8],
    pub width: u64,
    pub height: u64,
    pub channels: u64,
    pub ghost fits: { Picture bytes.now width height channels },
}

impl<'a> Picture<'a> {
    pub fn new(bytes: &'a [u8], shape: Shape) -> Picture<'a>
        requires { Shaped bytes.now shape }
        ensures same_bytes { result.bytes.now ≡ bytes.now }
        ensures same_shape { (result.width ≡ shape.width)
            × ((result.height ≡ shape.height) × (result.channels ≡ shape.channels)) }
    {
        Picture {
            bytes,
            width: shape.width,
            height: shape.height,
            channels: shape.channels,
        }
    }
}
