// Normal equations of a fit, row by row. Assumes nothing.
ghost use Rattle.std.specs.Prelude.{◌≡◌, ◌<◌};
ghost use Rattle.exact.specs.Loop.{up_to};
ghost use Rattle.linear.specs.Normal.{add_product, add_term, add_row};

use crate::equations::Equations;

impl Equations {
    // Row i of the matrix gains `first` times the row. By index, as the definition counts: two rows go in step.
    fn add_products(&mut self, row: &[f64; 21], first: f64, i: usize)
        requires { i < 21 }
        ensures matrix { self.new.a ≡ up_to (add_product row.now first i) 0 self.old.n self.old.a }
        ensures rest { (self.new.b ≡ self.old.b) × (self.new.n ≡ self.old.n) }
    {
        for k in 0..self.n {
            self.a[i][k] = self.a[i][k] + first * row[k];
        }
    }

    // Row i of the equations gains the row's products with its i-th number, the first factor of them all.
    fn add_term(&mut self, row: &[f64; 21], y: f64, i: usize)
        requires { i < 21 }
        ensures system { (self.new.a, self.new.b) ≡ add_term row.now y self.old.n i (self.old.a, self.old.b) }
        ensures unknowns { self.new.n ≡ self.old.n }
    {
        let first = row[i];
        self.b[i] = self.b[i] + first * y;
        self.add_products(row, first, i);
    }

    // A row of numbers with the right-hand side y.
    pub fn add_row(&mut self, row: &[f64; 21], y: f64)
        ensures system { (self.new.a, self.new.b) ≡ add_row row.now y self.old.n (self.old.a, self.old.b) }
        ensures unknowns { self.new.n ≡ self.old.n }
    {
        for i in 0..self.n {
            self.add_term(row, y, i);
        }
    }
}
