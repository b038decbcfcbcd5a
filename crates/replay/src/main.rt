// Replays jobs with stored answers from standard input through the distort call, and prints how many answered as they
// should. The file's form: a number is 8 bytes, the lowest first. First the length of a text and the text, then the
// number of jobs. A job is 18 numbers (width, height, channels, method, policy, interpolation, bestfit, viewport, view
// width, view height, view x, view y, first row, rows, the lengths of picture, arguments and band, the refusal), 16
// bytes of background and 16 of matte, the picture, the arguments, and of an accepted job the answer's 48 bytes and the
// band. Nothing is longer than 4,096 bytes. No contract can speak of a file: what compares has one, and all is safe and
// ends. None is the answer wherever the file ends too early or has another form.
#![tactic(auto)]

ghost use Rattle.std.specs.Prelude.{◌≡◌, ◌&&◌, ◌≤◌, take};
ghost use Rattle.replay.specs.Same as Same;

use band::rows::Rows;
use distort::answer::{Output, store_answer};
use distort::call::distort;
use distort::job::Job;
use endian::bytes::ReadAt;
use picture::shape::Shape;
use refusals::Refusal;
use std::io;
use std::io::{Read, Stdin};
use window::view::{View, Window};

// A job as it stands in the file: its 18 numbers, and then what they give the lengths of.
#[derive(Clone, Copy)]
struct Case<'a> {
    head: &'a [u8; 144],
    background: &'a [u8; 16],
    matte: &'a [u8; 16],
    picture: &'a [u8],
    arguments: &'a [u8],
    answer: &'a [u8; 48],
    expected: &'a [u8],
}

fn same(a: &[u8], b: &[u8]) -> bool
    ensures { result ≡ Same.same a.now b.now }
{
    a == b
}

fn agree(got: &[u8; 48], answer: &[u8; 48], band: &[u8], expected: &[u8]) -> bool
    ensures { result ≡ Same.same got.now answer.now
        && Same.same band.now expected.now }
{
    same(got, answer) && same(band, expected)
}

// All of it where it is shorter.
fn first(s: &[u8], n: usize) -> &[u8]
    ensures { result.now ≡ take n s.now }
{
    s.get(..n).unwrap_or(s)
}

// The first n bytes of the buffer are read; none where it has no room for them.
fn fill(input: &mut Stdin, buffer: &mut [u8], n: usize) -> Option<()> {
    input.read_exact(buffer.get_mut(..n)?).ok()
}

// The stored answer and band, which a refused job has not.
fn stored(
    input: &mut Stdin,
    head: &[u8; 144],
    answer: &mut [u8; 48],
    expected: &mut [u8],
    n: usize,
) -> Option<()> {
    if u64::read_at(head, 136) == 0 {
        fill(input, answer, 48)?;
        fill(input, expected, n)?;
    }
    Some(())
}

// The word numbered k of a job's head.
fn word(head: &[u8; 144], k: usize) -> u64
    requires { k ≤ 17 }
{
    u64::read_at(head, 8 * k)
}

// The call of a job.
fn call(s: Case, band: &mut [u8]) -> Result<Output, Refusal> {
    let head = s.head;
    let shape = Shape {
        width: word(head, 0),
        height: word(head, 1),
        channels: word(head, 2),
    };
    let asked = Window {
        width: word(head, 8),
        height: word(head, 9),
        x: word(head, 10).cast_signed(),
        y: word(head, 11).cast_signed(),
    };
    let view = View::of_numbers(word(head, 6), word(head, 7), asked);
    let rows = Rows {
        first: word(head, 12),
        count: word(head, 13),
    };
    let job = Job {
        shape,
        method: word(head, 3),
        policy: word(head, 4),
        interpolation: word(head, 5),
        view,
        rows,
    };
    distort(s.picture, s.arguments, s.background, s.matte, job, band)
}

// Whether the call answers as stored: a refusal leaves band and answer as they were.
fn answers(s: Case, band: &mut [u8]) -> bool {
    let mut got = [90u8; 48];
    let (head, answer, expected) = (s.head, s.answer, s.expected);
    let answered = call(s, band);
    store_answer(answered, &mut got) == u64::read_at(head, 136)
        && agree(&got, answer, band, expected)
}

// With a band as long as the expected one.
fn replay(s: Case) -> Option<bool> {
    let mut band = [90u8; 4096];
    let n = s.expected.len();
    Some(answers(s, band.get_mut(..n)?))
}

// A job after its numbers, and whether it is answered as it should be.
fn rest(input: &mut Stdin, head: &[u8; 144]) -> Option<bool> {
    let mut background = [0u8; 16];
    let mut matte = [0u8; 16];
    let mut picture = [0u8; 4096];
    let mut arguments = [0u8; 4096];
    let mut answer = [90u8; 48];
    let mut expected = [90u8; 4096];
    let picture_length = u64::read_at(head, 112) as usize;
    let arguments_length = u64::read_at(head, 120) as usize;
    let band_length = u64::read_at(head, 128) as usize;
    if band_length > 4096 {
        return None;
    }
    fill(input, &mut background, 16)?;
    fill(input, &mut matte, 16)?;
    fill(input, &mut picture, picture_length)?;
    fill(input, &mut arguments, arguments_length)?;
    stored(input, head, &mut answer, &mut expected, band_length)?;
    replay(Case {
        head,
        background: &background,
        matte: &matte,
        picture: first(&picture, picture_length),
        arguments: first(&arguments, arguments_length),
        answer: &answer,
        expected: first(&expected, band_length),
    })
}

fn job(input: &mut Stdin) -> Option<bool> {
    let mut head = [0u8; 144];
    fill(input, &mut head, 144)?;
    rest(input, &head)
}

// How many jobs there are, after the text.
fn begin(input: &mut Stdin) -> Option<u64> {
    let mut number = [0u8; 8];
    let mut text = [0u8; 4096];
    fill(input, &mut number, 8)?;
    fill(input, &mut text, u64::read_at(&number, 0) as usize)?;
    fill(input, &mut number, 8)?;
    Some(u64::read_at(&number, 0))
}

fn print(rt: &impl Print, passed: u64, failed: u64) -> io::Result<()> {
    println!(rt; "replay: {passed} passed, {failed} failed")
}

// How many of them pass, up to where the file breaks off: the job there has not passed either.
fn passed(input: &mut Stdin, jobs: u64) -> u64
    ensures { result ≤ jobs }
{
    let mut n = 0;
    for k in 0..jobs {
        let Some(right) = job(input) else {
            break;
        };
        n += u64::from(right);
    }
    n
}

// A file without jobs is one failure.
fn main(rt: HostRuntime) -> io::Result<()> {
    let mut input = rt.stdin();
    let jobs = begin(&mut input).unwrap_or(0);
    if jobs == 0 {
        return print(&rt, 0, 1);
    }
    let n = passed(&mut input, jobs);
    print(&rt, n, jobs - n)
}
