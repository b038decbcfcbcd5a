// The box around points, one after another. A coordinate that is no number is passed over. Assumes nothing.
ghost use Rattle.std.specs.Prelude.{◌≡◌};
ghost use Rattle.window.specs.Edges as Box;

use number::magnitude::{max, min};

#[derive(Drop)]
pub struct Corner {
    pub x: f64,
    pub y: f64,
}

#[derive(Drop)]
pub struct Edges {
    pub x0: f64,
    pub y0: f64,
    pub x1: f64,
    pub y1: f64,
}

// No point yet: every number is below the one infinity and above the other.
fn unbounded() -> Edges
    ensures { result ≡ Box.unbounded }
{
    Edges {
        x0: f64::INFINITY,
        y0: f64::INFINITY,
        x1: f64::NEG_INFINITY,
        y1: f64::NEG_INFINITY,
    }
}

#[tactic(auto, unfolding(crate::specs::Edges::grown))]
fn grown(e: Edges, p: Corner) -> Edges
    ensures { result ≡ Box.grown e p }
{
    let x0 = min(e.x0, p.x);
    let y0 = min(e.y0, p.y);
    let x1 = max(e.x1, p.x);
    let y1 = max(e.y1, p.y);
    Edges { x0, y0, x1, y1 }
}

#[tactic(auto, unfolding(crate::specs::Edges::boxed))]
pub fn boxed(a: Corner, b: Corner, c: Corner, d: Corner) -> Edges
    ensures { result ≡ Box.boxed a b c d }
{
    grown(grown(grown(grown(unbounded(), a), b), c), d)
}
