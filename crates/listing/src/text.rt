// The text, a byte at a time, and its end. For every list of bytes, of any length.
ghost use Rattle.std.specs.Prelude.{◌≡◌};
ghost use Rattle.listing.specs.Reader.{read_byte, fed, finish};

use crate::reader::Reader;
use crate::word::Word;
use crate::{reader, take, word};
use refusals::Refusal;

#[tactic(auto, unfolding(crate::specs::Reader::read_byte))]
fn read_byte(s: &mut Reader, b: u8, arguments: &mut [u8; 2048])
    ensures { (s.new, arguments.new) ≡ read_byte (s.old, arguments.old) b }
{
    match b {
        b'\n' => {
            take::take_word(s, arguments);
            reader::next_line(s);
        }
        b' ' => {
            take::take_word(s, arguments);
            reader::next_column(s);
        }
        _ => s.word = word::next(s.word, b),
    }
}

// The next bytes of the text.
pub fn feed(s: Reader, chunk: &[u8], arguments: &mut [u8; 2048]) -> Reader
    ensures { (result, arguments.new) ≡ fed (s, arguments.old) chunk.now }
{
    let mut r = s;
    for b in chunk {
        read_byte(&mut r, *b, arguments);
    }
    r
}

// The end of the text: after a line feed, with one pair to 64. So many bytes of arguments, or the refusal.
#[tactic(auto, unfolding(crate::specs::Reader::finish, crate::specs::Reader::bad_form, crate::specs::Reader::is_empty))]
pub fn finish(s: Reader) -> Result<usize, Refusal>
    ensures { result ≡ finish s }
{
    let lines = s.lines;
    if !matches!(s.word, Word::Empty) || s.column != 0 || lines < 2 || 65 < lines {
        return Err(Refusal::Count);
    }
    if s.large {
        return Err(Refusal::Number);
    }
    Ok(32 * (lines - 1) as usize)
}
