// A static library for tests alone: its exports hand the fit and the window of `probe_fit` to the host, under the same
// names and with the same clauses. No product links it.
#![tactic(auto)]

ghost use Rattle.std.specs.Prelude.{◌≡◌};
ghost use Rattle.probe_fit.specs.Fitted.{probe_fit};
ghost use Rattle.probe_fit.specs.Placed.{probe_window};

use probe_fit::{fitted, placed};

// Width or height 0 or above 4,096 is refused by 1.
#[unsafe(no_mangle)]
pub extern "C" fn probe_fit(
    method: u64,
    arguments: &[u8],
    width: u64,
    height: u64,
    out: &mut [u8; 2064],
) -> u64
    ensures { (result, out.new) ≡ probe_fit method arguments.now width height out.old }
{
    fitted::probe_fit(method, arguments, width, height, out)
}

// Width or height 0 or above 4,096 is refused by 1, a window by 9. Of bestfit and viewport, 0 is no and anything else
// yes.
#[unsafe(no_mangle)]
pub extern "C" fn probe_window(
    method: u64,
    arguments: &[u8],
    width: u64,
    height: u64,
    bestfit: u64,
    viewport: u64,
    view_width: u64,
    view_height: u64,
    view_x: i64,
    view_y: i64,
    out: &mut [u8; 32],
) -> u64
    ensures { (result, out.new) ≡ probe_window method arguments.now width height bestfit viewport
        view_width view_height view_x view_y out.old }
{
    placed::probe_window(
        method,
        arguments,
        width,
        height,
        bestfit,
        viewport,
        view_width,
        view_height,
        view_x,
        view_y,
        out,
    )
}
