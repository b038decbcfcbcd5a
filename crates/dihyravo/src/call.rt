// The distort call over bytes, for every argument. What a caller owes is what the types say: each pointer is to as many
// bytes as it is said to be, and band and answer overlap nothing else that is lent. What is lent shared stays as it is:
// its types see to that, and the second clause says so.
ghost use Rattle.std.specs.Prelude.{◌≡◌};
ghost use Rattle.distort.specs.Job.{call_of};
ghost use Rattle.dihyravo.specs.Called.{called};

use band::rows::Rows;
use distort::answer::store_answer;
use distort::call::distort;
use distort::job::Job;
use picture::shape::Shape;
use window::view::{View, Window};

// 0 where the call is accepted, else the refusal's number. Of bestfit and viewport 0 is no, anything else yes. On 0 the
// answer holds width and height, x and y, the output's channels and the band's matte pixels; a refusal changes no byte
// of band or answer.
#[unsafe(no_mangle)]
pub extern "C" fn dihyravo_distort(
    picture: &[u8],
    width: u64,
    height: u64,
    channels: u64,
    method: u64,
    arguments: &[u8],
    policy: u64,
    interpolation: u64,
    background: &[u8; 16],
    matte: &[u8; 16],
    bestfit: u64,
    viewport: u64,
    view_width: u64,
    view_height: u64,
    view_x: i64,
    view_y: i64,
    first_row: u64,
    rows: u64,
    band: &mut [u8],
    answer: &mut [u8; 48],
) -> u64
    ensures answer_after { (result, (band.new, answer.new)) ≡ called
        (call_of picture.now width height channels method arguments.now policy interpolation
        background.now matte.now bestfit viewport view_width view_height view_x view_y
        first_row rows band.old) answer.old }
    ensures lent_kept { (picture.exit.now ≡ picture.entry.now)
        × ((arguments.exit.now ≡ arguments.entry.now)
        × ((background.exit.now ≡ background.entry.now) × (matte.exit.now ≡ matte.entry.now))) }
{
    let shape = Shape {
        width,
        height,
        channels,
    };
    let asked = Window {
        width: view_width,
        height: view_height,
        x: view_x,
        y: view_y,
    };
    let view = View::of_numbers(bestfit, viewport, asked);
    let rows = Rows {
        first: first_row,
        count: rows,
    };
    let job = Job {
        shape,
        method,
        policy,
        interpolation,
        view,
        rows,
    };
    let answered = distort(picture, arguments, background, matte, job, band);
    store_answer(answered, answer)
}
