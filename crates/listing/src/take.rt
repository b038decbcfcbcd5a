// The end of a word: a name goes to the names, and a number to the lent arguments as the fit takes them. For every
// state.
ghost use Rattle.std.specs.Prelude.{◌≡◌};
ghost use Rattle.listing.specs.Reader.{take_name, is_large, kept, take_number, take_word};

use crate::names::Coordinate;
use crate::reader::Reader;
use crate::word::Word;
use crate::{names, word};
use arguments::refusal::MOST_PAIRS;
use endian::bytes::StoreAt;

// A name is taken on the first line, once.
#[tactic(auto, unfolding(crate::specs::Reader::take_name))]
fn take_name(s: &mut Reader, c: Coordinate)
    ensures { s.new ≡ take_name s.old c }
{
    if s.lines != 0 || names::column_of(s.names, c).is_some() {
        s.word = Word::Wrong;
        return;
    }
    s.names = names::with_name(s.names, c, s.column);
    s.word = Word::Empty;
}

#[tactic(auto, unfolding(crate::specs::Reader::is_large))]
fn is_large(large: bool, size: u32) -> bool
    ensures { result ≡ is_large large size }
{
    word::LARGEST_NUMBER < size || large
}

// The argument of the column in which the reader is, where there is room for its pair.
#[tactic(auto, unfolding(crate::specs::Reader::kept, crate::specs::Names::slot_of))]
fn keep(s: &Reader, x: f64, arguments: &mut [u8; 2048])
    ensures { arguments.new ≡ kept s.now x arguments.old }
{
    let lines = s.lines;
    if lines < 1 || MOST_PAIRS < lines {
        return;
    }
    let at = 32 * (lines - 1) + 8 * names::name_at(s.names, s.column).place();
    x.store_at(arguments, at as usize);
}

// A number is taken on every line but the first.
#[tactic(auto, unfolding(crate::specs::Reader::take_number))]
fn take_number(s: &mut Reader, negative: bool, size: u32, arguments: &mut [u8; 2048])
    ensures { (s.new, arguments.new) ≡ take_number s.old negative size arguments.old }
{
    if s.lines == 0 {
        s.word = Word::Wrong;
        return;
    }
    keep(s, word::pixels(negative, size), arguments);
    s.word = Word::Empty;
    s.large = is_large(s.large, size);
}

#[tactic(auto, unfolding(crate::specs::Reader::taken))]
pub(crate) fn take_word(s: &mut Reader, arguments: &mut [u8; 2048])
    ensures { (s.new, arguments.new) ≡ take_word s.old arguments.old }
{
    match s.word {
        Word::Empty | Word::Minus => s.word = Word::Wrong,
        Word::Name(c) => take_name(s, c),
        Word::Number { negative, size } => take_number(s, negative, size, arguments),
        Word::Wrong => {}
    }
}
