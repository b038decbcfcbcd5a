// The window of the output: its size and where it lies. A given viewport wins; bestfit is tried where it is asked for;
// else, or where it finds none, the window is the picture's own. Assumes nothing.
ghost use Rattle.std.specs.Prelude.{◌≡◌};
ghost use Rattle.refusals.specs.Number.{told};
ghost use Rattle.window.specs.Placed.{placed, placed_by};
ghost use Rattle.window.specs.Window.{refusal_of};
ghost use Rattle.window.specs.Window as Placing;

use crate::bestfit::bestfit;
use crate::edges::Edges;
use crate::extent::{Extent, extent_of, held};
use crate::view::{View, Window};
use mappings::mapping::Mapping;
use refusals::Refusal;

// None where a side or an offset is beyond the limits.
#[tactic(auto, unfolding(crate::specs::Window::of_extents))]
fn of_extents(across: Option<Extent>, down: Option<Extent>) -> Option<Window>
    ensures { placed result ≡ Placing.of_extents across down }
{
    let across = across?;
    let down = down?;
    Some(Window {
        width: across.length,
        height: down.length,
        x: across.from,
        y: down.from,
    })
}

fn given(w: Window) -> Option<Window>
    ensures { placed result ≡ Placing.given w.width w.height w.x w.y }
{
    of_extents(held(w.x, w.width), held(w.y, w.height))
}

fn around(e: Edges) -> Option<Window>
    ensures { placed result ≡ Placing.around e }
{
    of_extents(extent_of(e.x0, e.x1), extent_of(e.y0, e.y1))
}

// The picture's own window.
fn whole(width: u64, height: u64) -> Window
    ensures { result ≡ Placing.whole width height }
{
    Window {
        width,
        height,
        x: 0,
        y: 0,
    }
}

#[tactic(auto, unfolding(crate::specs::Window::judged))]
fn best(mapping: &Mapping, width: u64, height: u64) -> Option<Window>
    ensures { placed result ≡ Placing.best mapping.now.kind mapping.now.coef width height }
{
    let w = std::num::nearest_u64_to_f64(width);
    let h = std::num::nearest_u64_to_f64(height);
    match bestfit(mapping, w, h) {
        Some(e) => around(e),
        None => given(whole(width, height)),
    }
}

#[tactic(auto, unfolding(crate::specs::Window::window))]
fn window_of(mapping: &Mapping, width: u64, height: u64, view: View) -> Option<Window>
    ensures { placed result ≡ Placing.window mapping.now.kind mapping.now.coef width height view }
{
    match view.viewport {
        Some(w) => given(w),
        None if view.bestfit => best(mapping, width, height),
        None => given(whole(width, height)),
    }
}

pub fn window(mapping: &Mapping, width: u64, height: u64, view: View) -> Result<Window, Refusal>
    ensures window { placed_by result ≡ Placing.window mapping.now.kind mapping.now.coef width height view }
    ensures refusal { told result ≡ refusal_of (Placing.window mapping.now.kind mapping.now.coef width height view) }
{
    window_of(mapping, width, height, view).ok_or(Refusal::Window)
}
