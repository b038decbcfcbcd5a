// Where the corners of the picture come to lie in the output, under an inverted mapping f, and the box around them.
// Assumes nothing.
ghost use Rattle.std.specs.Prelude.{◌≡◌, ◌+◌, ◌≤◌, length};
ghost use Rattle.window.specs.Corners as Corners;

use crate::edges::{Corner, Edges, boxed};
use number::magnitude::{LEAST_DIVISOR, abs};

// Three coefficients from the one numbered k on.
fn form(f: &[f64], k: usize, u: f64, v: f64) -> f64
    requires { k + 3 ≤ length f.now }
    ensures { result ≡ Corners.form f.now k u v }
{
    f[k] * u + f[k + 1] * v + f[k + 2]
}

fn affine_corner(f: &[f64; 6], u: f64, v: f64) -> Corner
    ensures { result ≡ Corners.affine_corner f.now u v }
{
    let x = form(f, 0, u, v);
    let y = form(f, 3, u, v);
    Corner { x, y }
}

// The box around the picture's corners, each where `corner` puts it.
fn edges<F: Fn(f64, f64) -> Corner>(corner: F, w: f64, h: f64) -> Edges
    requires { F.IsAlwaysCallable corner }
    ensures { Corners.Around (F.post corner) w h result }
{
    boxed(
        corner(0.0, 0.0),
        corner(w, 0.0),
        corner(0.0, h),
        corner(w, h),
    )
}

pub fn affine_edges(f: &[f64; 6], w: f64, h: f64) -> Edges
    ensures { result ≡ Corners.affine_edges f.now w h }
{
    edges(|u, v| affine_corner(f, u, v), w, h)
}

// Whether the corner is too near to the horizon to lie anywhere.
fn lost(f: &[f64; 9], u: f64, v: f64) -> bool
    ensures { result ≡ Corners.lost f.now u v }
{
    abs(form(f, 6, u, v)) < LEAST_DIVISOR
}

pub fn any_lost(f: &[f64; 9], w: f64, h: f64) -> bool
    ensures { result ≡ Corners.any_lost f.now w h }
{
    lost(f, 0.0, 0.0) | lost(f, w, 0.0) | lost(f, 0.0, h) | lost(f, w, h)
}

fn perspective_corner(f: &[f64; 9], u: f64, v: f64) -> Corner
    ensures { result ≡ Corners.perspective_corner f.now u v }
{
    let wq = form(f, 6, u, v);
    let x = form(f, 0, u, v) / wq;
    let y = form(f, 3, u, v) / wq;
    Corner { x, y }
}

pub fn perspective_edges(f: &[f64; 9], w: f64, h: f64) -> Edges
    ensures { result ≡ Corners.perspective_edges f.now w h }
{
    edges(|u, v| perspective_corner(f, u, v), w, h)
}
