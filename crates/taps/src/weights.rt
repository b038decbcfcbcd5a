// The weights of an interpolation's taps, in the taps' order. Assumes nothing.
ghost use Rattle.std.specs.Prelude.{◌≡◌};
ghost use Rattle.taps.specs.declared.interpolation.Interpolation.TheVariants.{Bilinear};
ghost use Rattle.taps.specs.Weights.{bilinear_weights, products, weights};

use crate::interpolation::Interpolation;
use cubic::cubic::{Catrom, Spline, weights_by};

// Those of the columns times those of the rows.
fn products(wx: [f32; 4], wy: [f32; 4]) -> [f32; 16]
    ensures { result ≡ products wx wy }
{
    let a = wx[0];
    let b = wx[1];
    let c = wx[2];
    let d = wx[3];
    let e = wy[0];
    let f = wy[1];
    let g = wy[2];
    let h = wy[3];
    [
        a * e,
        b * e,
        c * e,
        d * e,
        a * f,
        b * f,
        c * f,
        d * f,
        a * g,
        b * g,
        c * g,
        d * g,
        a * h,
        b * h,
        c * h,
        d * h,
    ]
}

// The weights of the four taps of `Bilinear`: the cell's own pixel, the next, and both in the row after; and their sum.
#[derive(Clone, Copy)]
pub struct BilinearWeights {
    pub w00: f32,
    pub w10: f32,
    pub w01: f32,
    pub w11: f32,
    pub sum: f32,
}

pub fn bilinear_weights(tx: f32, ty: f32) -> BilinearWeights
    ensures { result ≡ bilinear_weights tx ty }
{
    let sx = 1.0 - tx;
    let sy = 1.0 - ty;
    let w00 = sx * sy;
    let w10 = tx * sy;
    let w01 = sx * ty;
    let w11 = tx * ty;
    BilinearWeights {
        w00,
        w10,
        w01,
        w11,
        sum: 0.0 + w00 + w10 + w01 + w11,
    }
}

fn bilinear(tx: f32, ty: f32) -> [f32; 16]
    ensures { result ≡ weights Bilinear tx ty }
{
    let w = bilinear_weights(tx, ty);
    [
        w.w00, w.w10, w.w01, w.w11, 0.0, 0.0, 0.0, 0.0, 0.0, 0.0, 0.0, 0.0, 0.0, 0.0, 0.0, 0.0,
    ]
}

impl Interpolation {
    pub fn weights(self, tx: f32, ty: f32) -> [f32; 16]
        ensures { result ≡ weights self tx ty }
    {
        match self {
            Interpolation::Bilinear => bilinear(tx, ty),
            Interpolation::Catrom => products(weights_by::<Catrom>(tx), weights_by::<Catrom>(ty)),
            Interpolation::Spline => products(weights_by::<Spline>(tx), weights_by::<Spline>(ty)),
            Interpolation::Integer
            | Interpolation::Nearest
            | Interpolation::Average
            | Interpolation::Average9
            | Interpolation::Average16
            | Interpolation::Background => [1.0; 16],
        }
    }
}
