// The reader's state: four words to a line, parted by one space each and ended by a line feed; a line of names, then a
// pair a line. For every state.
ghost use Rattle.std.specs.Prelude.{◌≡◌};
ghost use Rattle.listing.specs.Reader.{start_reader, with_word, fault, next_column, counted, next_line};

use crate::names;
use crate::names::Names;
use crate::word::Word;

// What the bytes so far are: the names, the word that is begun, the columns and lines that are whole, and whether a
// number was too large. A word that is Wrong stays so: a fault of form, here or before.
#[derive(Clone, Copy)]
pub struct Reader {
    pub names: Names,
    pub word: Word,
    pub column: u64,
    pub lines: u64,
    pub large: bool,
}

pub fn start_reader() -> Reader
    ensures { result ≡ start_reader }
{
    Reader {
        names: names::no_names(),
        word: Word::Empty,
        column: 0,
        lines: 0,
        large: false,
    }
}

pub(crate) fn with_word(s: Reader, w: Word) -> Reader
    ensures { result ≡ with_word s w }
{
    Reader { word: w, ..s }
}

pub fn fault(s: Reader) -> Reader
    ensures { result ≡ fault s }
{
    with_word(s, Word::Wrong)
}

// After a space: there is one more column.
#[tactic(auto, unfolding(crate::specs::Reader::next_column))]
pub(crate) fn next_column(s: &mut Reader)
    ensures { s.new ≡ next_column s.old }
{
    if s.column < 3 {
        s.column = s.column + 1;
    } else {
        s.word = Word::Wrong;
    }
}

// Lines are counted up to 66, which is one too many.
#[tactic(auto, unfolding(crate::specs::Reader::counted))]
fn counted(lines: u64) -> u64
    ensures { result ≡ counted lines }
{
    if lines < 66 { lines + 1 } else { 66 }
}

// After a line feed: that was the last column.
#[tactic(auto, unfolding(crate::specs::Reader::next_line))]
pub(crate) fn next_line(s: &mut Reader)
    ensures { s.new ≡ next_line s.old }
{
    if s.column == 3 {
        s.column = 0;
        s.lines = counted(s.lines);
    } else {
        s.word = Word::Wrong;
    }
}
