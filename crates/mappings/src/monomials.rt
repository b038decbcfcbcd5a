// The monomials of a polynomial. Its order is a number here: 0 for the terms 1, x, y, xy and else the degree, where
// one above 5 counts as 5. Assumes nothing.
ghost use Rattle.std.specs.Prelude.{◌≡◌, ◌+◌, ◌≤◌, min};
ghost use Rattle.exact.specs.Loop.{up_to};
ghost use Rattle.mappings.specs.Monomials.{powers, store_term};
ghost use Rattle.mappings.specs.Padded.{padded};
ghost use Rattle.mappings.specs.Monomials as Monomials;

use number::power::powi;

// x to the exponents 0 to 5.
fn powers(x: f64) -> [f64; 6]
    ensures { result ≡ powers x }
{
    [
        powi(x, 0),
        powi(x, 1),
        powi(x, 2),
        powi(x, 3),
        powi(x, 4),
        powi(x, 5),
    ]
}

// The monomials of one degree, from place `start` on.
fn store_degree(m: &mut [f64; 21], px: &[f64; 6], py: &[f64; 6], start: usize, total: usize)
    requires { (total ≤ 5) × (start + total + 1 ≤ 21) }
    ensures { m.new ≡ up_to (store_term px.now py.now start total) 0 (total + 1)
        m.old }
{
    for j in 0..total + 1 {
        m[start + j] = px[total - j] * py[j];
    }
}

fn up_to_degree(n: usize, x: f64, y: f64) -> [f64; 21]
    requires { n ≤ 5 }
    ensures { result ≡ padded 21 (Monomials.up_to_degree n x y) }
{
    let px = powers(x);
    let py = powers(y);
    let mut m = [0.0; 21];
    let mut start = 0;
    for total in 0..n + 1 {
        store_degree(&mut m, &px, &py, start, total);
        start = start + total + 1;
    }
    m
}

// An order above 5 counts as 5.
fn degree_of(order: u64) -> usize
    ensures { result ≡ min order 5 }
{
    order.min(5) as usize
}

#[tactic(auto, unfolding(crate::specs::Monomials::monomials))]
pub fn monomials(order: u64, x: f64, y: f64) -> [f64; 21]
    ensures { result ≡ padded 21 (Monomials.monomials order x y) }
{
    if order == 0 {
        let mut m = [0.0; 21];
        m[0] = 1.0;
        m[1] = x;
        m[2] = y;
        m[3] = x * y;
        return m;
    }
    up_to_degree(degree_of(order), x, y)
}
