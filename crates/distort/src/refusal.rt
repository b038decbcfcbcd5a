// Refusals 1 to 7 (specification 2): the first that applies; 1 and 2 are tests of `picture`, 4, 6 and 7 of
// `arguments`. The test that counts the picture's samples assumes that the tests before it failed; the others assume
// nothing.
ghost use Rattle.std.specs.Prelude.{◌≡◌, false};
ghost use Rattle.band.specs.Image.{shaped_image};
ghost use Rattle.distort.specs.Job.{given_by};
ghost use Rattle.distort.specs.Refusal as Table;
ghost use Rattle.distort.specs.Refusal.{bad_code, bad_number};
ghost use Rattle.picture.specs.Size.{bad_size, bad_stock};
ghost use Rattle.refusals.specs.Number.{told};

use crate::job::Job;
use arguments::code::is_present;
use arguments::refusal::{bad_count, bad_order, few_pairs};
use picture::shape::Shape;
use picture::size::{bad_size, bad_stock};
use policies::policy::Policy;
use refusals::Refusal;
use sample_limit::large::large;
use taps::interpolation::Interpolation;

// 3, code: `Random` is the last policy, `Background` the last interpolation.
#[tactic(auto, unfolding(crate::specs::Refusal::bad_code))]
pub fn bad_code(method: u64, policy: u64, interpolation: u64) -> bool
    ensures { result ≡ bad_code method policy interpolation }
{
    !is_present(method)
        | ((Policy::Random.code() < policy) | (Interpolation::Background.code() < interpolation))
}

// 5, number.
pub fn bad_number(
    picture: &[u8],
    shape: Shape,
    arguments: &[u8],
    background: &[u8; 16],
    matte: &[u8; 16],
) -> bool
    requires channels_value { bad_size shape.width shape.height shape.channels ≡ false }
    requires channels_value_2 { bad_stock picture.now shape.width shape.height shape.channels ≡ false }
    ensures { result ≡ bad_number (shaped_image picture.now shape) arguments.now background.now
        matte.now }
{
    if arguments::refusal::bad_argument(arguments) {
        return true;
    }
    if large(
        picture,
        (shape.width * shape.height * shape.channels) as usize,
    ) {
        return true;
    }
    if large(background, 4) {
        return true;
    }
    large(matte, 4)
}

// The first of 1 to 7 that applies, if one does.
#[tactic(auto, unfolding(crate::specs::Refusal::unfit, exact::specs::Table::first_of))]
pub fn unfit(
    picture: &[u8],
    arguments: &[u8],
    background: &[u8; 16],
    matte: &[u8; 16],
    job: Job,
) -> Result<(), Refusal>
    ensures { told result ≡ Table.unfit (shaped_image picture.now job.shape)
        (given_by arguments.now background.now matte.now job) }
{
    let shape = job.shape;
    if bad_size(shape.width, shape.height, shape.channels) {
        return Err(Refusal::Size);
    }
    if bad_stock(picture, shape) {
        return Err(Refusal::Stock);
    }
    if bad_code(job.method, job.policy, job.interpolation) {
        return Err(Refusal::Code);
    }
    if bad_count(job.method, arguments) {
        return Err(Refusal::Count);
    }
    if bad_number(picture, shape, arguments, background, matte) {
        return Err(Refusal::Number);
    }
    if bad_order(job.method, arguments) {
        return Err(Refusal::Order);
    }
    if few_pairs(job.method, arguments) {
        return Err(Refusal::Few);
    }
    Ok(())
}
