// The ten methods as values, and what each states, read from its type. Assumes nothing.
ghost use Rattle.std.specs.Prelude.{◌≡◌};
ghost use Rattle.arguments.specs.Method.{code_of, Judged, least_pairs, skip};
ghost use Rattle.arguments.specs.Method as Methods;

use crate::method::{
    Affine, AffineProjection, Barrel, BarrelInverse, BilinearForward, BilinearReverse, Perspective,
    PerspectiveProjection, Polynomial, Shepards,
};
use refusals::Refusal;

#[derive(Clone, Copy, Debug, PartialEq, Eq)]
pub enum Method {
    Affine,
    AffineProjection,
    Perspective,
    PerspectiveProjection,
    BilinearReverse,
    BilinearForward,
    Polynomial,
    Barrel,
    BarrelInverse,
    Shepards,
}

impl Method {
    // The number that a caller in C gives.
    pub fn code(self) -> u64
        ensures { result ≡ code_of self }
    {
        match self {
            Method::Affine => Affine::CODE,
            Method::AffineProjection => AffineProjection::CODE,
            Method::Perspective => Perspective::CODE,
            Method::PerspectiveProjection => PerspectiveProjection::CODE,
            Method::BilinearReverse => BilinearReverse::CODE,
            Method::BilinearForward => BilinearForward::CODE,
            Method::Polynomial => Polynomial::CODE,
            Method::Barrel => Barrel::CODE,
            Method::BarrelInverse => BarrelInverse::CODE,
            Method::Shepards => Shepards::CODE,
        }
    }

    // The least pairs, 0 where the method takes none.
    #[tactic(auto, unfolding(crate::specs::Method::least_pairs))]
    pub fn least_pairs(self, order: f64) -> u64
        ensures { result ≡ least_pairs (code_of self) order }
    {
        match self {
            Method::Affine => Affine::LEAST_PAIRS,
            Method::AffineProjection => AffineProjection::LEAST_PAIRS,
            Method::Perspective => Perspective::LEAST_PAIRS,
            Method::PerspectiveProjection => PerspectiveProjection::LEAST_PAIRS,
            Method::BilinearReverse => BilinearReverse::LEAST_PAIRS,
            Method::BilinearForward => BilinearForward::LEAST_PAIRS,
            Method::Polynomial => Polynomial::least_pairs(order),
            Method::Barrel => Barrel::LEAST_PAIRS,
            Method::BarrelInverse => BarrelInverse::LEAST_PAIRS,
            Method::Shepards => Shepards::LEAST_PAIRS,
        }
    }

    // How many arguments stand before the pairs.
    #[tactic(auto, unfolding(crate::specs::Method::skip))]
    pub fn skip(self) -> u64
        ensures { result ≡ skip (code_of self) }
    {
        match self {
            Method::Polynomial => Polynomial::SKIP,
            _ => 0,
        }
    }
}

// The codes of the four methods that are absent are refused, and so is one past the last.
impl TryFrom<u64> for Method {
    type Error = Refusal;

    ghost try_from_gives = { Judged };

    fn try_from(code: u64) -> Result<Method, Refusal> {
        match code {
            Affine::CODE => Ok(Method::Affine),
            AffineProjection::CODE => Ok(Method::AffineProjection),
            Perspective::CODE => Ok(Method::Perspective),
            PerspectiveProjection::CODE => Ok(Method::PerspectiveProjection),
            BilinearReverse::CODE => Ok(Method::BilinearReverse),
            BilinearForward::CODE => Ok(Method::BilinearForward),
            Polynomial::CODE => Ok(Method::Polynomial),
            Barrel::CODE => Ok(Method::Barrel),
            BarrelInverse::CODE => Ok(Method::BarrelInverse),
            Shepards::CODE => Ok(Method::Shepards),
            _ => Err(Refusal::Code),
        }
    }
}

// Whether a code is that of one of the ten. The tests of the table take a method by its code, since a call's codes are
// numbers until the table has judged them, and answer for every number.
pub fn is_present(code: u64) -> bool
    ensures { result ≡ Methods.present code }
{
    Method::try_from(code).is_ok()
}

// What a method states, by its code; 0 for a code that is none.
pub fn least_pairs(code: u64, order: f64) -> u64
    ensures { result ≡ Methods.least_pairs code order }
{
    match Method::try_from(code) {
        Ok(method) => method.least_pairs(order),
        Err(_) => 0,
    }
}

pub fn skip(code: u64) -> u64
    ensures { result ≡ Methods.skip code }
{
    match Method::try_from(code) {
        Ok(method) => method.skip(),
        Err(_) => 0,
    }
}
