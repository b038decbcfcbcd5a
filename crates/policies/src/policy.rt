// The policies: what stands outside a picture, the Rust's `VirtualPixel`. A caller in C names one by its code, which
// counts from 0 in this order (specification 1.2). Assumes nothing.
ghost use Rattle.std.specs.Prelude.{◌≡◌};
ghost use Rattle.policies.specs.Named.{code_of, policy, Decodes};

use refusals::Refusal;

#[derive(Clone, Copy, Debug, PartialEq, Eq)]
pub enum Policy {
    Edge,
    Background,
    Black,
    White,
    Gray,
    Transparent,
    Tile,
    Mirror,
    HorizontalTile,
    VerticalTile,
    HorizontalTileEdge,
    VerticalTileEdge,
    CheckerTile,
    Random,
}

impl Policy {
    pub fn code(self) -> u64
        ensures { result ≡ code_of self }
    {
        self as u64
    }

    // The policy of a code, and the last for a code that none has.
    pub fn of_code(code: u64) -> Policy
        ensures { result ≡ policy code }
    {
        Policy::try_from(code).unwrap_or(Policy::Random)
    }
}

// A code that no policy has is refused.
impl TryFrom<u64> for Policy {
    type Error = Refusal;

    ghost try_from_gives = { Decodes };

    fn try_from(code: u64) -> Result<Policy, Refusal> {
        match code {
            0 => Ok(Policy::Edge),
            1 => Ok(Policy::Background),
            2 => Ok(Policy::Black),
            3 => Ok(Policy::White),
            4 => Ok(Policy::Gray),
            5 => Ok(Policy::Transparent),
            6 => Ok(Policy::Tile),
            7 => Ok(Policy::Mirror),
            8 => Ok(Policy::HorizontalTile),
            9 => Ok(Policy::VerticalTile),
            10 => Ok(Policy::HorizontalTileEdge),
            11 => Ok(Policy::VerticalTileEdge),
            12 => Ok(Policy::CheckerTile),
            13 => Ok(Policy::Random),
            _ => Err(Refusal::Code),
        }
    }
}
