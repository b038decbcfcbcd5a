// What a distort call answers, and the answer in bytes. Assumes nothing.
ghost use Rattle.std.specs.Prelude.{◌≡◌};
ghost use Rattle.distort.specs.Answer.{answered, numbered};
ghost use Rattle.distort.specs.Call.{number_of, store_answer};

use endian::bytes::StoreAt;
use refusals::Refusal;

// What an accepted call answers: the output's size, where it lies, its channels, and the matte pixels of the band.
#[derive(Clone, Copy)]
pub struct Output {
    pub width: u64,
    pub height: u64,
    pub x: i64,
    pub y: i64,
    pub channels: u64,
    pub matte_pixels: u64,
}

fn store_output(o: Output, out: &mut [u8; 48])
    ensures { out.new ≡ store_answer (numbered (Ok o)) out.old }
{
    o.width.store_at(out, 0);
    o.height.store_at(out, 8);
    o.x.store_at(out, 16);
    o.y.store_at(out, 24);
    o.channels.store_at(out, 32);
    o.matte_pixels.store_at(out, 40);
}

// The number, 0 where the call is accepted, and then its values in the bytes lent; a refusal, told by any number,
// writes nothing.
pub fn store_numbered(answer: Result<Output, u64>, out: &mut [u8; 48]) -> u64
    ensures { (result ≡ number_of (numbered answer)) × (out.new ≡ store_answer (numbered answer) out.old) }
{
    match answer {
        Ok(o) => {
            store_output(o, out);
            0
        }
        Err(number) => number,
    }
}

// The same of a row of the refusal table.
pub fn store_answer(answer: Result<Output, Refusal>, out: &mut [u8; 48]) -> u64
    ensures { (result ≡ number_of (answered answer)) × (out.new ≡ store_answer (answered answer) out.old) }
{
    match answer {
        Ok(o) => store_numbered(Ok(o), out),
        Err(refusal) => store_numbered(Err(refusal.number()), out),
    }
}
