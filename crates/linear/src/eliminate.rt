// Elimination in place, with the largest pivot of each column. Assumes nothing.
ghost use Rattle.std.specs.Prelude.{◌≡◌, ◌<◌};
ghost use Rattle.exact.specs.Loop.{up_to};
ghost use Rattle.linear.specs.Eliminate as Eliminate;
ghost use Rattle.linear.specs.Eliminate.{take_term, clear_row, clear_below, outcome, column, eliminated};

use crate::equations::Equations;
use number::magnitude::{LEAST_DIVISOR, abs, reaches};

impl Equations {
    // The rule by which a pivot is taken: the row that stays, `best` or `next`.
    #[tactic(auto, unfolding(crate::specs::Eliminate::better))]
    fn better(&self, col: usize, next: usize, best: usize) -> usize
        requires { (col < 21) × ((next < 21) × (best < 21)) }
        ensures { result ≡ Eliminate.better self.now.a col next best }
    {
        if reaches(self.a[best][col], self.a[next][col]) {
            next
        } else {
            best
        }
    }

    // The row of the largest magnitude in the column, from row `col` on.
    fn pivot(&self, col: usize) -> usize
        requires { col < self.now.n }
        ensures { result ≡ Eliminate.pivot self.now.a col self.now.n }
    {
        let mut best = col;
        for row in col + 1..self.n {
            best = self.better(col, row, best);
        }
        best
    }

    fn swap(&mut self, i: usize, j: usize)
        requires { (i < 21) × (j < 21) }
        ensures system { (self.new.a, self.new.b) ≡ Eliminate.swap i j (self.old.a, self.old.b) }
        ensures unknowns { self.new.n ≡ self.old.n }
    {
        self.a.swap(i, j);
        self.b.swap(i, j);
    }

    // Row `row` less f times row `col`. By index: a row changes by another row of the same matrix.
    fn take_row(&mut self, f: f64, col: usize, row: usize)
        requires { (col < self.old.n) × (row < 21) }
        ensures matrix { self.new.a ≡ up_to (take_term f col row) col self.old.n self.old.a }
        ensures rest { (self.new.b ≡ self.old.b) × (self.new.n ≡ self.old.n) }
    {
        for k in col..self.n {
            self.a[row][k] = self.a[row][k] - f * self.a[col][k];
        }
    }

    fn clear_row(&mut self, col: usize, row: usize)
        requires { (col < self.old.n) × (row < 21) }
        ensures system { (self.new.a, self.new.b) ≡ clear_row self.old.n col row (self.old.a, self.old.b) }
        ensures unknowns { self.new.n ≡ self.old.n }
    {
        let f = self.a[row][col] / self.a[col][col];
        self.take_row(f, col, row);
        self.b[row] = self.b[row] - f * self.b[col];
    }

    fn clear_below(&mut self, col: usize)
        requires { col < self.old.n }
        ensures system { (self.new.a, self.new.b) ≡ clear_below self.old.n col (self.old.a, self.old.b) }
        ensures unknowns { self.new.n ≡ self.old.n }
    {
        for row in col + 1..self.n {
            self.clear_row(col, row);
        }
    }

    // One column cleared below its pivot; none where the pivot is too small.
    fn clear_column(&mut self, col: usize) -> Option<()>
        requires { col < self.old.n }
        ensures system { outcome result (self.new.a, self.new.b) ≡ column self.old.n col (self.old.a, self.old.b) }
        ensures unknowns { self.new.n ≡ self.old.n }
    {
        let p = self.pivot(col);
        if abs(self.a[p][col]) < LEAST_DIVISOR {
            return None;
        }
        self.swap(col, p);
        self.clear_below(col);
        Some(())
    }

    // Every column in turn; none at the first whose pivot is too small, with the equations left as they are there.
    pub fn eliminate(&mut self) -> Option<()>
        ensures system { outcome result (self.new.a, self.new.b) ≡ eliminated self.old.n (self.old.a, self.old.b) }
        ensures unknowns { self.new.n ≡ self.old.n }
    {
        for col in 0..self.n {
            self.clear_column(col)?;
        }
        Some(())
    }
}
