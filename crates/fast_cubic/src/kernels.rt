// The weights of a span's taps by `Catrom` and `Spline`, several fractions at a time. Assumes at most 64 of them.
ghost use Rattle.std.specs.Prelude.{◌≡◌, true, ◌≤◌};
ghost use Rattle.exact.specs.Limits.{longest_span};
ghost use Rattle.taps.specs.Interpolation.{code_of};
ghost use Rattle.fast_cubic.specs.Kernels.{Weighed4, Kernels};

use cubic::cubic::{Catrom, Kernel, Spline, between, distances_of, middle};
use fast_colours::one_by_one::sized;
use taps::interpolation::Interpolation;

// The weights of the first n fractions by a kernel, an array for each of the four taps, if the answer is true: it is
// where no fraction is at a cell's end.
fn weigh4<K: Kernel>(ts: &[f32; 64], n: usize, w: &mut [[f32; 64]; 4]) -> bool
    requires { n ≤ longest_span }
    ensures { result ≡ true → Weighed4 K.numbers n ts.now w.new }
{
    sized(*w);
    let row = K::row();
    let mut good = true;
    for k in 0..n {
        let d = distances_of(ts[k]);
        // The test first: the loop is faster so.
        good = good & between(d);
        let m = middle(row, d);
        w[0][k] = m[0];
        w[1][k] = m[1];
        w[2][k] = m[2];
        w[3][k] = m[3];
    }
    good
}

// The same by the interpolation: another than `Catrom` counts as `Spline`.
fn kernels(interpolation: Interpolation, ts: &[f32; 64], n: usize, w: &mut [[f32; 64]; 4]) -> bool
    requires { n ≤ longest_span }
    ensures { result ≡ true → Kernels (code_of interpolation) n ts.now w.new }
{
    match interpolation {
        Interpolation::Catrom => weigh4::<Catrom>(ts, n, w),
        _ => weigh4::<Spline>(ts, n, w),
    }
}

// The weights of n points along rows and columns, if the answer is true.
pub fn both_kernels(
    interpolation: Interpolation,
    xs: &[f32; 64],
    ys: &[f32; 64],
    n: usize,
    wx: &mut [[f32; 64]; 4],
    wy: &mut [[f32; 64]; 4],
) -> bool
    requires { n ≤ longest_span }
    ensures { result ≡ true → Kernels (code_of interpolation) n xs.now wx.new
        × Kernels (code_of interpolation) n ys.now wy.new }
{
    let across = kernels(interpolation, xs, n, wx);
    let down = kernels(interpolation, ys, n, wy);
    across & down
}
