// The methods as types: each states its code, its least pair count and its term count, which the refusals and the fit
// read. A method that takes no pairs, or fits no terms, states 0. Assumes nothing.
ghost use Rattle.std.specs.Prelude.{◌≡◌};
ghost use Rattle.arguments.specs.Method.{affine_terms};
ghost use Rattle.arguments.specs.Order.{bilinear_order, degree, terms_of, good_order};

#[derive(Drop)]
pub struct Affine {}

impl Affine {
    pub const CODE: u64 = 0;

    pub const LEAST_PAIRS: u64 = 1;

    // A similarity, of two pairs, has four unknowns in one system; else there are three for u and three for v.
    #[tactic(auto, unfolding(crate::specs::Method::affine_terms))]
    pub fn terms(pairs: u64) -> u64
        ensures { result ≡ affine_terms pairs }
    {
        if pairs == 2 { 4 } else { 3 }
    }
}

#[derive(Drop)]
pub struct AffineProjection {}

impl AffineProjection {
    pub const CODE: u64 = 1;

    pub const ARGUMENTS: u64 = 6;

    pub const LEAST_PAIRS: u64 = 0;

    pub const TERMS: u64 = 0;
}

#[derive(Drop)]
pub struct Perspective {}

impl Perspective {
    pub const CODE: u64 = 3;

    pub const LEAST_PAIRS: u64 = 4;

    pub const TERMS: u64 = 8;
}

#[derive(Drop)]
pub struct PerspectiveProjection {}

impl PerspectiveProjection {
    pub const CODE: u64 = 4;

    pub const ARGUMENTS: u64 = 8;

    pub const LEAST_PAIRS: u64 = 0;

    pub const TERMS: u64 = 0;
}

#[derive(Drop)]
pub struct BilinearReverse {}

impl BilinearReverse {
    pub const CODE: u64 = 5;

    pub const LEAST_PAIRS: u64 = 4;

    pub const TERMS: u64 = 4;
}

#[derive(Drop)]
pub struct BilinearForward {}

impl BilinearForward {
    pub const CODE: u64 = 6;

    pub const LEAST_PAIRS: u64 = 4;

    pub const TERMS: u64 = 4;
}

#[derive(Drop)]
pub struct Polynomial {}

impl Polynomial {
    pub const CODE: u64 = 7;
    // The order stands before the pairs.
    pub const SKIP: u64 = 1;

    // Exactly 1.5: the terms 1, x, y, xy.
    #[tactic(auto, unfolding(crate::specs::Order::bilinear_order))]
    pub fn bilinear(order: f64) -> bool
        ensures { result ≡ bilinear_order order }
    {
        order == 1.5
    }

    // A whole order from 1 to 5 as a number; 0 for 1.5, which has no degree, and for what is no order.
    #[tactic(auto, unfolding(crate::specs::Order::degree))]
    pub fn degree(order: f64) -> u64
        ensures { result ≡ degree order }
    {
        if order == 1.0 {
            return 1;
        }
        if order == 2.0 {
            return 2;
        }
        if order == 3.0 {
            return 3;
        }
        if order == 4.0 {
            return 4;
        }
        if order == 5.0 {
            return 5;
        }
        0
    }

    #[tactic(auto, unfolding(crate::specs::Order::terms_of), using(crate::proofs::OrderLaws::degree_range, crate::proofs::OrderLaws::terms_twice))]
    pub fn terms(order: f64) -> u64
        ensures { result ≡ terms_of order }
    {
        if Polynomial::bilinear(order) {
            return 4;
        }
        let n = Polynomial::degree(order);
        (n + 1) * (n + 2) / 2
    }

    // As many pairs as terms.
    pub fn least_pairs(order: f64) -> u64
        ensures { result ≡ terms_of order }
    {
        Polynomial::terms(order)
    }

    // Exactly 1, 1.5, 2, 3, 4 or 5.
    #[tactic(auto, unfolding(crate::specs::Order::good_order))]
    pub fn good_order(order: f64) -> bool
        ensures { result ≡ good_order order }
    {
        Polynomial::bilinear(order) || 0 < Polynomial::degree(order)
    }
}

#[derive(Drop)]
pub struct Barrel {}

impl Barrel {
    pub const CODE: u64 = 11;

    pub const LEAST_ARGUMENTS: u64 = 3;

    pub const LEAST_PAIRS: u64 = 0;

    pub const TERMS: u64 = 0;
}

#[derive(Drop)]
pub struct BarrelInverse {}

impl BarrelInverse {
    pub const CODE: u64 = 12;

    pub const LEAST_ARGUMENTS: u64 = 3;

    pub const LEAST_PAIRS: u64 = 0;

    pub const TERMS: u64 = 0;
}

#[derive(Drop)]
pub struct Shepards {}

impl Shepards {
    pub const CODE: u64 = 13;

    pub const LEAST_PAIRS: u64 = 1;

    pub const TERMS: u64 = 0;
}
