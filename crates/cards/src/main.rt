// A program that tests/cards runs: it runs trial cards through the distort call (specification 12.2) and prints how
// many came out right: the limits of refusals 1, 4 and 5 on both sides, and those cards of the proved table that are
// calls. Each asks for no rows of a grey picture of zeros, under `Edge` and `Nearest`.
#![tactic(auto)]

ghost use Rattle.std.specs.Prelude.{◌≡◌, [], pos};
ghost use Rattle.distort.specs.Call.{answer, number_of, store_answer};
ghost use Rattle.distort.specs.Job.{call_of};
ghost use Rattle.policies.specs.Named.{edge_code};
ghost use Rattle.taps.specs.Interpolation.{nearest_code};
ghost use Rattle.cards.specs.Cards.{opaque_black};

use arguments::method::{AffineProjection, Polynomial, Shepards};
use band::rows::Rows;
use distort::answer::store_answer;
use distort::call::distort;
use distort::job::Job;
use endian::bytes::{ReadAt, StoreAt};
use picture::shape::Shape;
use policies::policy::Policy;
use std::io;
use taps::interpolation::Interpolation;
use window::view::{View, yes};

const ONE: u64 = 0x3ff0_0000_0000_0000;

// The bytes of -1 as a number.
const MINUS_ONE: u64 = 0xffff_ffff_ffff_ffff;

// 0, 0, 0, 1: opaque black.
const BLACK: [u8; 16] = [0, 0, 0, 0, 0, 0, 0, 0, 0, 0, 0, 0, 0, 0, 128, 63];

// What the call answers: its number, and the answer's bytes.
fn ask(
    picture: &[u8],
    width: u64,
    height: u64,
    method: u64,
    arguments: &[u8],
    bestfit: u64,
    out: &mut [u8; 48],
) -> u64
    ensures { (result ≡ number_of (answer (call_of picture.now width height 1 method arguments.now edge_code
        nearest_code opaque_black opaque_black bestfit 0 0 0 (pos 0) (pos 0) 0 0 [])))
        × (out.new ≡ store_answer
        (answer (call_of picture.now width height 1 method arguments.now edge_code
        nearest_code opaque_black opaque_black bestfit 0 0 0 (pos 0) (pos 0) 0 0 [])) out.old) }
{
    let mut band = [0u8; 0];
    let shape = Shape {
        width,
        height,
        channels: 1,
    };
    let view = View {
        bestfit: yes(bestfit),
        viewport: None,
    };
    let rows = Rows { first: 0, count: 0 };
    let job = Job {
        shape,
        method,
        policy: Policy::Edge.code(),
        interpolation: Interpolation::Nearest.code(),
        view,
        rows,
    };
    let answered = distort(picture, arguments, &BLACK, &BLACK, job, &mut band);
    store_answer(answered, out)
}

// The arguments 1, 0, 0, 1, 0, last by their bits, into the first 48 bytes.
fn projection(last: u64) -> [u8; 48] {
    let mut bytes = [0u8; 48];
    ONE.store_at(&mut bytes, 0);
    ONE.store_at(&mut bytes, 24);
    last.store_at(&mut bytes, 40);
    bytes
}

// 1: width 4,096 passes and 4,097 does not.
fn size_card(width: u64, number: u64) -> bool {
    let picture = [0u8; 16388];
    let mut out = [0u8; 48];
    let arguments = projection(0);
    if width > 4097 {
        return false;
    }
    ask(
        &picture[..4 * width as usize],
        width,
        1,
        AffineProjection::CODE,
        &arguments,
        0,
        &mut out,
    ) == number
}

// 5: the argument 1,048,576 passes, the next f64 does not.
fn number_card(bits: u64, number: u64) -> bool {
    let picture = [0u8; 4];
    let mut out = [0u8; 48];
    let arguments = projection(bits);
    let method = AffineProjection::CODE;
    ask(&picture, 1, 1, method, &arguments, 0, &mut out) == number
}

// 4: 64 pairs pass, 65 do not.
fn pairs_card(pairs: usize, number: u64) -> bool {
    let picture = [0u8; 4];
    let mut out = [0u8; 48];
    let arguments = [0u8; 2080];
    if pairs > 65 {
        return false;
    }
    ask(
        &picture,
        1,
        1,
        Shepards::CODE,
        &arguments[..32 * pairs],
        0,
        &mut out,
    ) == number
}

// 8: `AffineProjection` 1, 2, 2, 4, 0, 0.
fn singular_card() -> bool {
    let picture = [0u8; 4];
    let mut out = [0u8; 48];
    let mut arguments = [0u8; 48];
    ONE.store_at(&mut arguments, 0);
    0x4000_0000_0000_0000_u64.store_at(&mut arguments, 8);
    0x4000_0000_0000_0000_u64.store_at(&mut arguments, 16);
    0x4010_0000_0000_0000_u64.store_at(&mut arguments, 24);
    let method = AffineProjection::CODE;
    ask(&picture, 1, 1, method, &arguments, 0, &mut out) == 8
}

// 6: order 2.5 with nine pairs.
fn order_card() -> bool {
    let picture = [0u8; 4];
    let mut out = [0u8; 48];
    let mut arguments = [0u8; 296];
    0x4004_0000_0000_0000_u64.store_at(&mut arguments, 0);
    ask(&picture, 1, 1, Polynomial::CODE, &arguments, 0, &mut out) == 6
}

// Whether the answer is 6 by 5 at -1, -1.
fn grown(out: &[u8; 48]) -> bool {
    u64::read_at(out, 0) == 6
        && u64::read_at(out, 8) == 5
        && u64::read_at(out, 16) == MINUS_ONE
        && u64::read_at(out, 24) == MINUS_ONE
}

// The identity's bestfit on 4 by 3.
fn bestfit_card() -> bool {
    let picture = [0u8; 48];
    let mut out = [0u8; 48];
    let arguments = projection(0);
    let method = AffineProjection::CODE;
    ask(&picture, 4, 3, method, &arguments, 1, &mut out) == 0 && grown(&out)
}

// Whether each card came out right.
fn cards() -> [bool; 9] {
    [
        size_card(4096, 0),
        size_card(4097, 1),
        number_card(0x4130_0000_0000_0000, 0),
        number_card(0x4130_0000_0000_0001, 5),
        pairs_card(64, 0),
        pairs_card(65, 4),
        singular_card(),
        order_card(),
        bestfit_card(),
    ]
}

fn main(rt: HostRuntime) -> io::Result<()> {
    let cards = cards();
    let passed = cards.iter().filter(|right| **right).count();
    let failed = cards.len() - passed;
    println!(rt; "cards: {passed} passed, {failed} failed")
}
