// The fitted mapping: a kind, the order of its monomials, and its coefficients one after another. Assumes that there
// are at most 256 of these.
ghost use Rattle.std.specs.Prelude.{◌≡◌, ◌++◌, ◌+◌, ◌≤◌, length};
ghost use Rattle.mappings.specs.Mapping.{mapping};

// What a mapping's coefficients are of. Nothing is no mapping: it takes no point anywhere and has no box.
#[derive(Clone, Copy, Debug, PartialEq, Eq)]
pub enum Kind {
    Nothing,
    Affine,
    Perspective,
    Poly,
    BilinearForward,
    Barrel,
    BarrelInverse,
    Shepards,
}

// The order is 0 for the terms 1, x, y, xy and where there are no monomials, and else the degree.
#[derive(Drop)]
pub struct Mapping {
    pub kind: Kind,
    pub order: u64,
    pub count: u64,
    pub coef: [f64; 256],
}

impl Mapping {
    // The coefficients xs.
    pub fn new(kind: Kind, order: u64, xs: &[f64]) -> Mapping
        requires { length xs.now ≤ 256 }
        ensures { result ≡ mapping kind order xs.now }
    {
        let mut coef = [0.0; 256];
        let n = xs.len();
        coef[..n].copy_from_slice(xs);
        Mapping {
            kind,
            order,
            count: n as u64,
            coef,
        }
    }

    // The coefficients xs, and then ys.
    pub fn of_two(kind: Kind, order: u64, xs: &[f64], ys: &[f64]) -> Mapping
        requires { length xs.now + length ys.now ≤ 256 }
        ensures { result ≡ mapping kind order (xs.now ++ ys.now) }
    {
        let mut coef = [0.0; 256];
        let n = xs.len();
        let both = n + ys.len();
        coef[..n].copy_from_slice(xs);
        coef[n..both].copy_from_slice(ys);
        Mapping {
            kind,
            order,
            count: both as u64,
            coef,
        }
    }
}
