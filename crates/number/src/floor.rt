// Floor, toward minus infinity: -0.25 gives -1. The domain is the finite x of magnitude at most 2^31; outside it the
// answer of `floor_i64` is i64::MIN. The others ask for an x in the domain.
ghost use Rattle.std.specs.Prelude.{◌≡◌, T, if◌then◌else◌, from_bits};
ghost use Rattle.std.specs.Float.Ieee.{of_int, lt};
ghost use Rattle.std.specs.Float.{binary64};
ghost use Rattle.exact.specs.Double.{◌⊕◌, ◌⊖◌};
ghost use Rattle.number.specs.Floor.{in_domain, floorℤ, floor_i64, floor_f64};

fn in_domain(x: f64) -> bool
    ensures { result ≡ in_domain x }
{
    (x >= -2147483648.0) & (x <= 2147483648.0)
}

// A whole number next to x, for x up to 2^51 either way: 1.5 * 2^52 added leaves the sum no digits for a fraction, and
// taking it away is exact. No whole number comes out as -0.
fn whole_near(x: f64) -> f64
    ensures { result ≡ x ⊕ from_bits binary64 0x4338_0000_0000_0000 ⊖ from_bits binary64 0x4338_0000_0000_0000 }
{
    x + 6755399441055744.0 - 6755399441055744.0
}

// Whether x is below r, as the number to take from r. A choice of two constants needs no jump.
fn excess(x: f64, r: f64) -> f64
    ensures { result ≡ (if lt x r then from_bits binary64 0x3ff0_0000_0000_0000 else from_bits binary64 0) }
{
    if x < r { 1.0 } else { 0.0 }
}

// The floor of an x in the domain, +0 for a zero: the whole number next to x, or one less.
pub fn whole_below(x: f64) -> f64
    requires { T (in_domain x) }
    ensures { result ≡ of_int binary64 (floorℤ x) }
{
    let r = whole_near(x);
    r - excess(x, r)
}

// Where x is known to be in the domain: no test.
pub fn floor_i64_within(x: f64) -> i64
    requires { T (in_domain x) }
    ensures { result ≡ floor_i64 x }
{
    whole_below(x) as i64
}

pub fn floor_i64(x: f64) -> i64
    ensures { result ≡ floor_i64 x }
{
    if !in_domain(x) {
        return i64::MIN;
    }
    floor_i64_within(x)
}

// As a float, for x in the domain. The last choice is x only where the two are equal: it keeps the sign of a zero, as
// `f64::floor` of Rust does. The compiler finds the one instruction for it.
pub fn floor_within(x: f64) -> f64
    requires { T (in_domain x) }
    ensures { result ≡ floor_f64 x }
{
    let f = whole_below(x);
    if f < x {
        return f;
    }
    x
}
