// From the end of the text to what is printed: a refusal, or the listing of the `Affine` that is fitted to the pairs.
// For every state of the reader.
ghost use Rattle.std.specs.Prelude.{◌≡◌, length};
ghost use Rattle.listing.specs.Print.{put_text};
ghost use Rattle.listing.specs.Answer.{text_by, answer_text};

use crate::reader::Reader;
use crate::{print, text};
use arguments::method::Affine;
use fit::build::build;
use mappings::mapping::Mapping;
use refusals::Refusal;

// The fit of method 0 to the pairs of a whole text, whatever the picture's size.
fn fitted(s: Reader, arguments: &[u8; 2048]) -> Result<Mapping, Refusal>
    ensures { text_by result ≡ answer_text s arguments.now }
{
    let n = text::finish(s)?;
    build(Affine::CODE, &arguments[..n], 1, 1)
}

// The text to print is so many bytes at the start of `out`.
pub fn answer(s: Reader, arguments: &[u8; 2048], out: &mut [u8; 124]) -> usize
    ensures { (result ≡ length (answer_text s arguments.now))
        × (out.new ≡ put_text out.old 0 (answer_text s arguments.now)) }
{
    match fitted(s, arguments) {
        Ok(m) => print::listing(out, &m.coef),
        Err(r) => print::refused(out, r.number()),
    }
}
