// The product of two u64 modulo 2^64, made of the wrapping sums that the language supplies. Assumes nothing.
ghost use Rattle.std.specs.Prelude.{◌≡◌};
ghost use Rattle.number.specs.Wrapping.{wrapped};

// a * b modulo 2^64, from the products of the two numbers' halves of 32 bits. The product of the upper halves is a
// multiple of 2^64, and of the two crossed products only the lower 32 bits count.
pub fn wrapping_mul(a: u64, b: u64) -> u64
    ensures { result ≡ wrapped a b }
{
    let al = a % 4294967296;
    let ah = a / 4294967296;
    let bl = b % 4294967296;
    let bh = b / 4294967296;
    let crossed = std::num::wrapping_add_u64(ah * bl, al * bh) % 4294967296;
    std::num::wrapping_add_u64(al * bl, crossed * 4294967296)
}
