// The program of specification 12.1, over `listing`: prints the coefficients of `Affine` for the pairs on standard
// input. Each read is fed to the reader, so the text may be of any length; a proved loop has to end, so it makes 2^40
// reads at most, which no run uses up.
#![tactic(auto)]

use listing::reader::Reader;
use listing::{answer, reader, text};
use std::io;
use std::io::{Read, Stdin};

const READS: u64 = 1 << 40;

// The reader after one more read, or none at the end of the input.
fn read_some(
    input: &mut Stdin,
    s: Reader,
    arguments: &mut [u8; 2048],
) -> io::Result<Option<Reader>> {
    let mut chunk = [0u8; 65536];
    let n = input.read(&mut chunk)?;
    if n == 0 {
        return Ok(None);
    }
    Ok(Some(text::feed(s, &chunk[..n], arguments)))
}

// The reader after the input. What cannot be read, and what comes after the last read, is no line of any form.
fn read_all(input: &mut Stdin, arguments: &mut [u8; 2048]) -> Reader {
    let mut s = reader::start_reader();
    for _ in 0..READS {
        match read_some(input, s, arguments) {
            Ok(Some(more)) => s = more,
            Ok(None) => return s,
            Err(_) => break,
        }
    }
    reader::fault(s)
}

fn main(rt: HostRuntime) -> io::Result<()> {
    let mut arguments = [0u8; 2048];
    let s = read_all(&mut rt.stdin(), &mut arguments);
    let mut out = [0u8; 124];
    let n = answer::answer(s, &arguments, &mut out);
    rt.write_all(&out[..n])
}
