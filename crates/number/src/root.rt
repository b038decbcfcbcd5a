// The square root, rounded to the nearest f64, for every f64. A guess by float arithmetic, whose closeness
// nobody proves, is settled by an exact test on whole numbers; where no test passes, the root is worked out digit
// by digit. So the answer does not rest on how good the guess is, only the time does.
ghost use Rattle.std.specs.Prelude.{◌≡◌, ◌+◌, ◌-◌, ◌*◌, ◌/◌, ◌%◌, ◌^◌, ◌<◌, ◌≤◌, true, not, T, if◌then◌else◌, is_nan, nat_lt, to_bits};
ghost use Rattle.std.specs.Float.{binary64};
ghost use Rattle.std.specs.Float.Ieee.Positive as Positive;
ghost use Rattle.number.specs.Root.{nearest_root, seed};
ghost use Rattle.number.specs.Root as Root;

const DIGITS: u64 = 0x10_0000_0000_0000; // 2^52, the weight of the exponent's field

const HALF: u64 = 0x800_0000; // 2^27

const SMALL: u64 = 0x4000_0000; // 2^30

const MAGIC: u64 = 0x5fe6_b000_0000_0000; // less half the bits of x: those of about 1 / √x

pub fn root(x: f64) -> f64
    ensures { result ≡ Root.root x }
{
    root_by(x, guess(x))
}

// The root of x, whatever the guess: many guesses can be made first, several at a time.
pub fn root_by(x: f64, g: f64) -> f64
    ensures { result ≡ Root.root x }
{
    if x > 0.0 {
        let bits = f64::to_bits(x);
        if bits < 0x7ff0_0000_0000_0000 {
            return positive(x, bits, g);
        }
        return x;
    }
    if x == 0.0 {
        return x;
    }
    f64::NAN
}

// The root of x, which is finite and above 0. Its significand m is moved up by its leading zeros, and once
// more where the leading digit's place is odd: then x is n * 2^52 * 4^(half - 589), so the root's significand
// is the nearest root q of n * 2^52, in units of 2^(half - 589).
fn positive(x: f64, bits: u64, g: f64) -> f64
    requires { T (Positive.positive x) × (bits ≡ to_bits binary64 x) × (bits < 0x7ff0_0000_0000_0000) }
    ensures { result ≡ Root.root x }
{
    let m = significand(bits);
    let zeros = u64::leading_zeros(m) as u64;
    let lead = exponent(bits) + (63 - zeros);
    let half = lead / 2;
    let n = m << (zeros - 11 + lead % 2);
    let q = nearest(n, g);
    f64::from_bits((half + 485) * DIGITS + q)
}

// The digits of a finite f64 above 0, the leading one with them, and how many places they stand above 2^-1074.
fn significand(bits: u64) -> u64
    ensures { result ≡ (if nat_lt bits (2 ^ 52) then bits else bits % 2 ^ 52 + 2 ^ 52) }
{
    if bits < DIGITS {
        bits
    } else {
        bits % DIGITS + DIGITS
    }
}

fn exponent(bits: u64) -> u64
    ensures { result ≡ (if nat_lt bits (2 ^ 52) then 0 else bits / 2 ^ 52 - 1) }
{
    if bits < DIGITS { 0 } else { bits / DIGITS - 1 }
}

// What a guess starts from: x, or 1 where x is not above 0. It is no NaN, and has no sign.
fn seed(x: f64) -> f64
    ensures value { result ≡ seed x }
    ensures t { T (not (is_nan result)) × (to_bits binary64 result ≤ 0x7ff0_0000_0000_0000) }
{
    if x > 0.0 { x } else { 1.0 }
}

// Close to the root of x, where x is a normal number above 0: 1 / √x from the bit pattern within 4%, then by a
// polynomial within 2^-30; the root g from that, cut to its leading digits so that their square is exact, and a step
// from there. It has no branch.
pub fn guess(x: f64) -> f64
    ensures { result ≡ Root.guess x }
{
    let s = seed(x);
    let y = f64::from_bits(MAGIC - f64::to_bits(s) / 2);
    let z = s * y;
    let w = z * y;
    let w2 = w * w;
    let p = (2.733551153284358 - 4.6441040278970105 * w)
        + w2 * ((5.678322318750966 - 4.130854046499399 * w)
            + w2 * (1.6354015370325001 - 0.27231693469857376 * w));
    let g = z * p;
    let t = g * 134217729.0;
    let top = t - (t - g);
    let half = 0.5 * y * p;
    let d = (s - top * top) * half;
    top + (d + d * d * half)
}

// The whole number nearest to the root of n * 2^52, tried first at the digits of the guess.
fn nearest(n: u64, g: f64) -> u64
    requires { (2 ^ 52 ≤ n) × (n < 2 ^ 54) }
    ensures { result ≡ nearest_root (n * 2 ^ 52) }
{
    if g.is_nan() {
        return neighbour(n, DIGITS);
    }
    let q = f64::to_bits(g) % DIGITS + DIGITS;
    if settles(n, q) {
        return q;
    }
    neighbour(n, q)
}

// The same where q is not that number: a neighbour of q, else by digits.
fn neighbour(n: u64, q: u64) -> u64
    requires { (2 ^ 52 ≤ n) × (n < 2 ^ 54) × ((0 < q) × (q < 2 ^ 53)) }
    ensures { result ≡ nearest_root (n * 2 ^ 52) }
{
    if settles(n, q + 1) {
        return q + 1;
    }
    if settles(n, q - 1) {
        return q - 1;
    }
    by_digits(n)
}

// Whether q is that number: whether n * 2^52 + q - q * q is above 0 and at most 2 * q, which says that the root lies
// between q - 1/2 and q + 1/2. With q = h * 2^27 + l it is f * 2^27 + l - l * l, f being d * 2^25 + h - 2 * h * l and
// d being n - 4 * h * h. Each difference is small where q is right, and one that goes below 0 wraps to a large
// number, so that 64 bits do; t is the last one less 1.
fn settles(n: u64, q: u64) -> bool
    requires { (2 ^ 52 ≤ n) × (n < 2 ^ 54) × (q ≤ 2 ^ 53) }
    ensures { result ≡ true → q ≡ nearest_root (n * 2 ^ 52) }
{
    let h = q / HALF;
    let l = q % HALF;
    let d = std::num::wrapping_sub_u64(n, 4 * h * h);
    let f = std::num::wrapping_sub_u64(d % SMALL * 0x200_0000 + h, h * (2 * l));
    let t = std::num::wrapping_sub_u64(f % SMALL * HALF + l, l * l + 1);
    (d < SMALL) & (f < SMALL) & (t < 2 * q)
}

// The same root, two binary digits of n * 2^52 a turn, from the top: s is the whole root of the digits taken
// so far, r the remainder, rest the digits to come.
fn by_digits(n: u64) -> u64
    requires { n < 2 ^ 54 }
    ensures { result ≡ nearest_root (n * 2 ^ 52) }
{
    let mut s = 0u64;
    let mut r = 0u64;
    let mut rest = n * 1024;
    for _ in 0..53u64 {
        r = 4 * r + rest / 0x4000_0000_0000_0000;
        rest = rest % 0x4000_0000_0000_0000 * 4;
        if 4 * s < r {
            r = r - (4 * s + 1);
            s = 2 * s + 1;
        } else {
            s = 2 * s;
        }
    }
    if r > s { s + 1 } else { s }
}
