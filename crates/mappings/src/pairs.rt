// The pairs of the argument store, as many as there are, after `skip` other numbers. Assumes nothing.
ghost use Rattle.std.specs.Prelude.{◌≡◌, ◌+◌, ◌*◌, ◌<◌, ◌≤◌};
ghost use Rattle.exact.specs.Limits.{most_arguments};
ghost use Rattle.mappings.specs.Pairs.{pair_at};

pub use crate::pair::Pair;

#[derive(Clone, Copy)]
pub struct Pairs<'a> {
    pub values: &'a [f64; 257],
    pub skip: usize,
    pub count: usize,
    ghost inside: { skip + 4 * count ≤ most_arguments },
}

impl Pairs<'_> {
    // The pair numbered j.
    pub fn at(&self, j: usize) -> Pair
        requires { j < self.now.count }
        ensures { result ≡ pair_at self.now.values.now self.now.skip j }
    {
        let k = self.skip + 4 * j;
        Pair {
            u: self.values[k],
            v: self.values[k + 1],
            x: self.values[k + 2],
            y: self.values[k + 3],
        }
    }
}
