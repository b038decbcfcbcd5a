// The window of the output in bytes: its size and where it lies. Assumes nothing.
ghost use Rattle.std.specs.Prelude.{◌≡◌, ◌≤◌, length};
ghost use Rattle.window.specs.Placed as Windows;
ghost use Rattle.probe_fit.specs.Placed.{store_placed, probe_window};

use crate::sized::sized_fit;
use endian::bytes::StoreAt;
use window::view::{View, Window};
use window::window::window;

#[tactic(auto, unfolding(crate::specs::Placed::store_placed))]
fn store_window(out: &mut [u8], w: Window)
    requires { 32 ≤ length out.old }
    ensures { (0, out.new) ≡ store_placed (Windows.placed (Some w)) out.old }
{
    w.width.store_at(out, 0);
    w.height.store_at(out, 8);
    w.x.store_at(out, 16);
    w.y.store_at(out, 24);
}

// Width or height 0 or above 4,096 is refused by 1, a window by 9. Of bestfit and viewport, 0 is no and anything else
// yes.
pub fn probe_window(
    method: u64,
    arguments: &[u8],
    width: u64,
    height: u64,
    bestfit: u64,
    viewport: u64,
    view_width: u64,
    view_height: u64,
    view_x: i64,
    view_y: i64,
    out: &mut [u8; 32],
) -> u64
    ensures { (result, out.new) ≡ probe_window method arguments.now width height bestfit viewport
        view_width view_height view_x view_y out.old }
{
    let mapping = match sized_fit(method, arguments, width, height) {
        Ok(m) => m,
        Err(r) => return r.number(),
    };
    let asked = Window {
        width: view_width,
        height: view_height,
        x: view_x,
        y: view_y,
    };
    let view = View::of_numbers(bestfit, viewport, asked);
    match window(&mapping, width, height, view) {
        Ok(w) => {
            store_window(out, w);
            0
        }
        Err(r) => r.number(),
    }
}
