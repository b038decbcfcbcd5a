// A word, a byte at a time: a name or a whole number of 64ths of a pixel, of any length. Assumes nothing.
ghost use Rattle.std.specs.Prelude.{◌≡◌};
ghost use Rattle.listing.specs.Word.{name_of, with_digit, digit, first_byte, next, pixels};

use crate::names::Coordinate;

// What the bytes of a word so far are. Wrong is a fault of form, which nothing mends.
#[derive(Clone, Copy)]
pub enum Word {
    Empty,
    Minus,
    Name(Coordinate),
    Number { negative: bool, size: u32 },
    Wrong,
}

#[tactic(auto, unfolding(crate::specs::Word::name_of))]
fn name_of(b: u8) -> Option<Coordinate>
    ensures { result ≡ name_of b }
{
    match b {
        b'u' => Some(Coordinate::U),
        b'v' => Some(Coordinate::V),
        b'x' => Some(Coordinate::X),
        b'y' => Some(Coordinate::Y),
        _ => None,
    }
}

// The largest number of 64ths: 1,048,576 pixels.
pub const LARGEST_NUMBER: u32 = 67108864;

// Its tenth, and what stands for every larger number.
const TENTH: u32 = 6710886;

const TOO_LARGE: u32 = 67108865;

// One digit more. A number that has passed the limit stays above it, however many digits follow.
#[tactic(auto, unfolding(crate::specs::Word::with_digit))]
fn with_digit(size: u32, d: u8) -> u32
    ensures { result ≡ with_digit size d }
{
    if TENTH < size {
        TOO_LARGE
    } else {
        10 * size + u32::from(d)
    }
}

#[tactic(auto, unfolding(crate::specs::Word::digit))]
fn digit(negative: bool, size: u32, b: u8) -> Word
    ensures { result ≡ digit negative size b }
{
    match b {
        b'0'..=b'9' => Word::Number {
            negative,
            size: with_digit(size, b - b'0'),
        },
        _ => Word::Wrong,
    }
}

#[tactic(auto, unfolding(crate::specs::Word::first_byte))]
fn first_byte(b: u8) -> Word
    ensures { result ≡ first_byte b }
{
    if b == b'-' {
        return Word::Minus;
    }
    match name_of(b) {
        Some(c) => Word::Name(c),
        None => digit(false, 0, b),
    }
}

// The word with one byte more, which is neither a space nor a line feed.
#[tactic(auto, unfolding(crate::specs::Word::next))]
pub fn next(w: Word, b: u8) -> Word
    ensures { result ≡ next w b }
{
    match w {
        Word::Empty => first_byte(b),
        Word::Minus => digit(true, 0, b),
        Word::Number { negative, size } => digit(negative, size, b),
        Word::Name(_) | Word::Wrong => Word::Wrong,
    }
}

// A number of 64ths in pixels. Taken from 0.0, so that -0 is 0.
#[tactic(auto, unfolding(crate::specs::Word::pixels))]
pub fn pixels(negative: bool, size: u32) -> f64
    ensures { result ≡ pixels negative size }
{
    let x = size as f64 / 64.0;
    if negative { 0.0 - x } else { x }
}
