// Linear equations with up to 21 unknowns: a matrix, the right-hand sides, and how many unknowns there are. `normal`
// adds to them, `eliminate` clears them, and `solve` answers the unknowns.
ghost use Rattle.std.specs.Prelude.{◌≡◌, ◌≤◌};
ghost use Rattle.linear.specs.Matrix.{zeros, zero_matrix};

// The equations a · x = b in the first n unknowns. There is room for 21.
#[derive(Drop)]
pub struct Equations {
    pub a: [[f64; 21]; 21],
    pub b: [f64; 21],
    pub n: usize,
    ghost few: { n ≤ 21 },
}

impl Equations {
    // No equation yet.
    pub fn new(n: usize) -> Equations
        requires { n ≤ 21 }
        ensures matrix { result.a ≡ zero_matrix }
        ensures sides { result.b ≡ zeros }
        ensures unknowns { result.n ≡ n }
    {
        Equations {
            a: [[0.0; 21]; 21],
            b: [0.0; 21],
            n,
        }
    }
}
