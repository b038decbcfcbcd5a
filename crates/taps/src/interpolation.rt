// The interpolations: how a picture is read between its pixels, the Rust's `PixelInterpolate`. A caller in C names one
// by its code, which counts from 0 in this order (specification 1.2). Assumes nothing.
ghost use Rattle.std.specs.Prelude.{◌≡◌};
ghost use Rattle.taps.specs.Interpolation.{code_of, interpolation, Decodes};

use refusals::Refusal;

#[derive(Clone, Copy, Debug, PartialEq, Eq)]
pub enum Interpolation {
    Integer,
    Nearest,
    Average,
    Average9,
    Average16,
    Bilinear,
    Catrom,
    Spline,
    Background,
}

impl Interpolation {
    pub fn code(self) -> u64
        ensures { result ≡ code_of self }
    {
        self as u64
    }

    // The interpolation of a code, and the last for a code that none has.
    pub fn of_code(code: u64) -> Interpolation
        ensures { result ≡ interpolation code }
    {
        Interpolation::try_from(code).unwrap_or(Interpolation::Background)
    }
}

// A code that no interpolation has is refused.
impl TryFrom<u64> for Interpolation {
    type Error = Refusal;

    ghost try_from_gives = { Decodes };

    fn try_from(code: u64) -> Result<Interpolation, Refusal> {
        match code {
            0 => Ok(Interpolation::Integer),
            1 => Ok(Interpolation::Nearest),
            2 => Ok(Interpolation::Average),
            3 => Ok(Interpolation::Average9),
            4 => Ok(Interpolation::Average16),
            5 => Ok(Interpolation::Bilinear),
            6 => Ok(Interpolation::Catrom),
            7 => Ok(Interpolation::Spline),
            8 => Ok(Interpolation::Background),
            _ => Err(Refusal::Code),
        }
    }
}
