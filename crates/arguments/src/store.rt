// The argument store: 257 numbers, zero at first, filled from the caller's bytes, with the count beside them. Arguments
// for which it has no room are passed over; refusal 4 keeps such calls away. Assumes nothing.
ghost use Rattle.std.specs.Prelude.{◌≡◌};
ghost use Rattle.arguments.specs.Store.{count_of, held_of, values_of, order_of};

use endian::bytes::ReadAt;

// What the store has room for.
pub const MOST_ARGUMENTS: usize = 257;

// Nothing is allocated, so the numbers stand in an array that has room for any call's, with their count beside them.
#[derive(Drop)]
pub struct Store {
    pub values: [f64; 257],
    pub count: usize,
}

// How many whole arguments the bytes hold.
pub fn count_of(arguments: &[u8]) -> usize
    ensures { result ≡ count_of arguments.now }
{
    arguments.len() / 8
}

// How many of them the store has room for.
#[tactic(auto, unfolding(crate::specs::Store::held_of))]
fn held_of(arguments: &[u8]) -> usize
    ensures { result ≡ held_of arguments.now }
{
    count_of(arguments).min(MOST_ARGUMENTS)
}

// The store of the arguments in these bytes. By index: the number k is eight bytes of the arguments.
pub fn fill(arguments: &[u8]) -> Store
    ensures { (result.values ≡ values_of arguments.now) × (result.count ≡ held_of arguments.now) }
{
    let mut values = [0.0; 257];
    let count = held_of(arguments);
    for k in 0..count {
        values[k] = f64::read_at(arguments, 8 * k);
    }
    Store { values, count }
}

// The first argument, which is a polynomial's order; 0.0 where there is none.
#[tactic(auto, unfolding(crate::specs::Store::order_of))]
pub fn order_of(arguments: &[u8]) -> f64
    ensures { result ≡ order_of arguments.now }
{
    if arguments.len() < 8 {
        return 0.0;
    }
    f64::read_at(arguments, 0)
}
