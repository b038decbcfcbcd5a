// The fit of a picture of any size. Assumes nothing.
ghost use Rattle.std.specs.Prelude.{◌≡◌};
ghost use Rattle.mappings.specs.Mapping.{fitted_by};
ghost use Rattle.probe_fit.specs.Sized.{sized_fit};

use fit::build::build;
use mappings::mapping::Mapping;
use picture::size::bad_side;
use refusals::Refusal;

// Width or height 0 or above 4,096 is refused by 1.
#[tactic(auto, unfolding(crate::specs::Sized::sized_fit))]
pub fn sized_fit(method: u64, arguments: &[u8], width: u64, height: u64) -> Result<Mapping, Refusal>
    ensures { fitted_by result ≡ sized_fit method arguments.now width height }
{
    if bad_side(width) | bad_side(height) {
        return Err(Refusal::Size);
    }
    build(method, arguments, width, height)
}
