// The solution of linear equations: elimination, then substitution. Assumes nothing.
ghost use Rattle.std.specs.Prelude.{◌≡◌, ◌<◌};
ghost use Rattle.linear.specs.Solve.{known, substituted, solved};

use crate::equations::Equations;

impl Equations {
    // The sum of row i's terms in the unknowns after the i-th. By index: a row and the unknowns go in step.
    fn known_terms(&self, x: &[f64; 21], i: usize) -> f64
        requires { i < self.now.n }
        ensures { result ≡ known self.now.n self.now.a x.now i }
    {
        let mut sum = 0.0;
        for k in i + 1..self.n {
            sum = sum + self.a[i][k] * x[k];
        }
        sum
    }

    // From the last row up.
    fn substitute(&self) -> [f64; 21]
        ensures { result ≡ substituted self.now.n (self.now.a, self.now.b) }
    {
        let mut x = [0.0; 21];
        for i in (0..self.n).rev() {
            x[i] = (self.b[i] - self.known_terms(&x, i)) / self.a[i][i];
        }
        x
    }

    // The unknowns, and zeros after them; none where there is no solution.
    pub fn solve(mut self) -> Option<[f64; 21]>
        ensures { result ≡ solved self.n (self.a, self.b) }
    {
        self.eliminate()?;
        Some(self.substitute())
    }
}
