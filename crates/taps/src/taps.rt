// The taps of an interpolation: a square of indexes from its cell on, numbered row by row. Assumes nothing.
ghost use Rattle.std.specs.Prelude.{◌≡◌, ◌≤◌, pos, ◌+ℤ◌};
ghost use Rattle.std.specs.Int.Signed.{mag};
ghost use Rattle.exact.specs.Limits.{farthest_tap};
ghost use Rattle.taps.specs.Taps.{side};
ghost use Rattle.taps.specs.Sampler.{plane_of};

use crate::cell::Cell;
use crate::interpolation::Interpolation;
use crate::sampler::Sampler;
use endian::pattern::bits_of_i64;
use picture::colour::Rgba;

impl Interpolation {
    // How many taps stand side by side.
    pub fn side(self) -> usize
        ensures { result ≡ side self }
    {
        match self {
            Interpolation::Integer | Interpolation::Nearest => 1,
            Interpolation::Average | Interpolation::Bilinear => 2,
            Interpolation::Average9 => 3,
            Interpolation::Average16 | Interpolation::Catrom | Interpolation::Spline => 4,
            Interpolation::Background => 0,
        }
    }
}

// The index k further on.
pub fn moved(v: i64, k: usize) -> i64
    requires { (mag v ≤ farthest_tap) × (k ≤ 4) }
    ensures { result ≡ v +ℤ pos k }
{
    v + k as i64
}

impl<'a> Sampler<'a> {
    // The tap i columns and j rows from the cell. It is `at` written out, so that the compiler keeps a tap's components
    // in registers.
    pub fn tap(self, cell: Cell, i: usize, j: usize) -> Rgba
        requires { (i ≤ 4) × (j ≤ 4) }
        ensures { result ≡ plane_of self.entry (cell.column +ℤ pos i) (cell.row +ℤ pos j) }
    {
        let p = self.picture;
        let t = self.policy.named(p.width, p.height, moved(cell.column, i), moved(cell.row, j));
        p.tap_samples(self.background, t)
    }

    // The same for a square, most of whose taps lie inside: there no policy is asked.
    pub fn nearby(self, cell: Cell, i: usize, j: usize) -> Rgba
        requires { (i ≤ 4) × (j ≤ 4) }
        ensures { result ≡ plane_of self.entry (cell.column +ℤ pos i) (cell.row +ℤ pos j) }
    {
        let p = self.picture;
        let x = moved(cell.column, i);
        let y = moved(cell.row, j);
        let m = bits_of_i64(x);
        let n = bits_of_i64(y);
        if m < p.width && n < p.height {
            return p.pixel_at(m, n);
        }
        p.tap_samples(self.background, self.policy.named(p.width, p.height, x, y))
    }
}
