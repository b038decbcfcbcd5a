// What a call asks of its band: the channels of the output, and refusals 10 and 11. The last assumes that its product
// can be counted.
ghost use Rattle.std.specs.Prelude.{◌≡◌, not, ◌+◌, ◌*◌, ◌≤◌, eqb, ltb};
ghost use Rattle.exact.specs.Limits.{largest_side};
ghost use Rattle.distort.specs.Refusal as Refusal;

use picture::colour::Rgba;
use policies::policy::Policy;

// Four if the picture has four, the policy is `Transparent`, or the background's alpha is below 1; otherwise the
// picture's own.
#[tactic(auto, unfolding(crate::specs::Refusal::widest))]
pub fn widest(channels: u64, policy: u64, background: Rgba) -> u64
    ensures { result ≡ Refusal.widest channels policy background }
{
    if channels == 4 || policy == Policy::Transparent.code() || background.a < 1.0 {
        4
    } else {
        channels
    }
}

// 10, rows. The sum of both could wrap, so it is not made.
pub fn bad_rows(out_height: u64, first_row: u64, rows: u64) -> bool
    ensures { result ≡ ltb out_height (first_row + rows) }
{
    if out_height < first_row {
        return true;
    }
    out_height - first_row < rows
}

// 11, tray.
pub fn bad_tray(length: usize, rows: u64, out_width: u64, out_channels: u64) -> bool
    requires { (rows ≤ largest_side) × ((out_width ≤ largest_side) × (out_channels ≤ 4)) }
    ensures { result ≡ not (eqb length (rows * out_width * out_channels * 4)) }
{
    length as u64 != rows * out_width * out_channels * 4
}
