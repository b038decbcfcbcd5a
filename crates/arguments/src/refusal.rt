// Refusals 3 to 7 of a method and its arguments: each test by itself, for every method code and every byte slice,
// then the first that applies. Assumes nothing.
ghost use Rattle.std.specs.Prelude.{◌≡◌, IfOk};
ghost use Rattle.arguments.specs.Method.{code_of};
ghost use Rattle.arguments.specs.Refusal.{bad_values, bad_for, bad_count, bad_argument, bad_order, pairs_in, few_pairs};
ghost use Rattle.arguments.specs.Refusal as Refusals;
ghost use Rattle.refusals.specs.Number.{told};

use crate::code::Method;
use crate::method::{AffineProjection, Barrel, BarrelInverse, PerspectiveProjection, Polynomial};
use crate::store::MOST_ARGUMENTS;
use crate::{code, store};
use endian::bytes::within;
use refusals::Refusal;

pub const MOST_PAIRS: u64 = 64;

// 1048576.0, the largest argument in magnitude, by its pattern.
const ARGUMENT_LIMIT: u64 = 0x4130_0000_0000_0000;

// The values of a pair method: fours, from one pair to 64.
#[tactic(auto, unfolding(crate::specs::Refusal::bad_values))]
fn bad_values(n: u64) -> bool
    ensures { result ≡ bad_values n }
{
    n < 4 || n % 4 != 0 || MOST_PAIRS < n / 4
}

// A number of arguments that the method does not take.
#[tactic(auto, unfolding(crate::specs::Refusal::bad_for))]
fn bad_for(method: u64, n: u64) -> bool
    ensures { result ≡ bad_for method n }
{
    match method {
        AffineProjection::CODE => n != AffineProjection::ARGUMENTS,
        PerspectiveProjection::CODE => n != PerspectiveProjection::ARGUMENTS,
        Barrel::CODE => n < Barrel::LEAST_ARGUMENTS,
        BarrelInverse::CODE => n < BarrelInverse::LEAST_ARGUMENTS,
        Polynomial::CODE => n == 0 || bad_values(n - 1),
        _ => bad_values(n),
    }
}

// 4, count.
#[tactic(auto, unfolding(crate::specs::Refusal::bad_count))]
pub fn bad_count(method: u64, arguments: &[u8]) -> bool
    ensures { result ≡ bad_count method arguments.now }
{
    let n = store::count_of(arguments);
    arguments.len() % 8 != 0 || MOST_ARGUMENTS < n || bad_for(method, n as u64)
}

// 5, number. (A loop, since the proof of `all` over the range did not close: the definition goes turn by turn.)
pub fn bad_argument(arguments: &[u8]) -> bool
    ensures { result ≡ bad_argument arguments.now }
{
    let n = store::count_of(arguments);
    for k in 0..n {
        if !within::<f64>(arguments, 8 * k, ARGUMENT_LIMIT) {
            return true;
        }
    }
    false
}

// 6, order.
#[tactic(auto, unfolding(crate::specs::Refusal::bad_order))]
pub fn bad_order(method: u64, arguments: &[u8]) -> bool
    ensures { result ≡ bad_order method arguments.now }
{
    method == Polynomial::CODE && !Polynomial::good_order(store::order_of(arguments))
}

// How many pairs n arguments are.
pub fn pairs_in(method: u64, n: u64) -> u64
    ensures { result ≡ pairs_in method n }
{
    n.saturating_sub(code::skip(method)) / 4
}

// 7, few.
#[tactic(auto, unfolding(crate::specs::Refusal::few_pairs, crate::specs::Refusal::pairs_of))]
pub fn few_pairs(method: u64, arguments: &[u8]) -> bool
    ensures { result ≡ few_pairs method arguments.now }
{
    let order = store::order_of(arguments);
    let n = store::count_of(arguments) as u64;
    pairs_in(method, n) < code::least_pairs(method, order)
}

// The first from 3 to 7 that applies, and else the method.
#[tactic(auto, unfolding(crate::specs::Refusal::arguments_refusal, exact::specs::Table::first_of))]
pub fn arguments_refusal(method: u64, arguments: &[u8]) -> Result<Method, Refusal>
    ensures number { told result ≡ Refusals.arguments_refusal method arguments.now }
    ensures code { IfOk result (λ m. code_of m ≡ method) }
{
    let judged = Method::try_from(method)?;
    if bad_count(method, arguments) {
        return Err(Refusal::Count);
    }
    if bad_argument(arguments) {
        return Err(Refusal::Number);
    }
    if bad_order(method, arguments) {
        return Err(Refusal::Order);
    }
    if few_pairs(method, arguments) {
        return Err(Refusal::Few);
    }
    Ok(judged)
}
