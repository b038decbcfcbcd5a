// The distort call: its refusals in the table's order, and else the rows asked for, worked into the band. `distort`
// assumes nothing; what it calls assumes what the tests before it showed.
ghost use Rattle.std.specs.Prelude.{◌≡◌, ◌≤◌};
ghost use Rattle.exact.specs.Limits.{largest_side};
ghost use Rattle.picture.specs.Pixel.{Channels, Limited};
ghost use Rattle.band.specs.Band.{pictured, framed};
ghost use Rattle.band.specs.Image.{shaped_image};
ghost use Rattle.window.specs.Window as Windows;
ghost use Rattle.distort.specs.Answer.{answered};
ghost use Rattle.distort.specs.Call.{answer, left};
ghost use Rattle.distort.specs.Job.{call_by, colour_of, given_by};
ghost use Rattle.distort.specs.Placed.{in_window, windowed};
ghost use Rattle.distort.specs.Refusal as Table;

use crate::answer::Output;
use crate::job::Job;
use crate::refusal::unfit;
use crate::tray::{bad_rows, bad_tray, widest};
use band::look::Look;
use band::rows::Rows;
use fit::build::build;
use inverse::frame::Frame;
use mappings::mapping::Mapping;
use picture::colour::Rgba;
use picture::picture::Picture;
use picture::shape::Shape;
use policies::policy::Policy;
use refusals::Refusal;
use rows::rows::store_rows;
use taps::interpolation::Interpolation;
use window::view::View;
use window::window::window;

// In a window of the output's shape.
fn in_window(
    picture: Picture,
    look: Look,
    frame: Frame,
    out: Shape,
    rows: Rows,
    band: &mut [u8],
) -> Result<Output, Refusal>
    requires channels { Channels out.channels }
    requires width_le_largest_side { (out.width ≤ largest_side) × (out.height ≤ largest_side) }
    ensures { (answered result, band.new) ≡ in_window (pictured picture.entry look) (framed frame.entry) out
        rows band.old }
{
    if bad_rows(out.height, rows.first, rows.count) {
        return Err(Refusal::Rows);
    }
    if bad_tray(band.len(), rows.count, out.width, out.channels) {
        return Err(Refusal::Tray);
    }
    let matte_pixels = store_rows(picture, look, frame, out, rows, band);
    Ok(Output {
        width: out.width,
        height: out.height,
        x: frame.x,
        y: frame.y,
        channels: out.channels,
        matte_pixels,
    })
}

// With a mapping: the window comes next.
fn windowed(
    picture: Picture,
    look: Look,
    mapping: &Mapping,
    view: View,
    out_channels: u64,
    rows: Rows,
    band: &mut [u8],
) -> Result<Output, Refusal>
    requires channels { Channels out_channels }
    ensures { (answered result, band.new) ≡ windowed
        (Windows.window mapping.now.kind mapping.now.coef picture.entry.width picture.entry.height view)
        (pictured picture.entry look) mapping.now out_channels rows band.old }
{
    let w = window(mapping, picture.width, picture.height, view)?;
    let frame = Frame {
        mapping,
        x: w.x,
        y: w.y,
    };
    let out = Shape {
        width: w.width,
        height: w.height,
        channels: out_channels,
    };
    in_window(picture, look, frame, out, rows, band)
}

// A colour out of its four samples, which are numbers.
fn colour(bytes: &[u8; 16]) -> Rgba
    requires { Limited bytes.now }
    ensures { result ≡ colour_of bytes.now }
{
    let pixel = Shape {
        width: 1,
        height: 1,
        channels: 4,
    };
    Picture::new(bytes, pixel).pixel_at(0, 0)
}

// A call that the tests let through: the fit comes next. It is not inlined, so that a call which they keep away does
// not clear the room for a mapping.
#[inline(never)]
fn fitted(
    picture: &[u8],
    arguments: &[u8],
    background: &[u8; 16],
    matte: &[u8; 16],
    job: Job,
    band: &mut [u8],
) -> Result<Output, Refusal>
    requires { Table.unfit (shaped_image picture.now job.shape)
        (given_by arguments.now background.now matte.now job) ≡ 0 }
    ensures { (answered result ≡ answer (call_by picture.now arguments.now background.now
        matte.now job band.old))
        × (band.new ≡ left (call_by picture.now arguments.now background.now
        matte.now job band.old)) }
{
    let shape = job.shape;
    let mapping = build(job.method, arguments, shape.width, shape.height)?;
    let look = Look {
        policy: Policy::try_from(job.policy)?,
        interpolation: Interpolation::try_from(job.interpolation)?,
        background: colour(background),
        matte: colour(matte),
    };
    let out_channels = widest(shape.channels, job.policy, look.background);
    let source = Picture::new(picture, shape);
    windowed(
        source,
        look,
        &mapping,
        job.view,
        out_channels,
        job.rows,
        band,
    )
}

pub fn distort(
    picture: &[u8],
    arguments: &[u8],
    background: &[u8; 16],
    matte: &[u8; 16],
    job: Job,
    band: &mut [u8],
) -> Result<Output, Refusal>
    ensures { (answered result ≡ answer (call_by picture.now arguments.now background.now
        matte.now job band.old))
        × (band.new ≡ left (call_by picture.now arguments.now background.now
        matte.now job band.old)) }
{
    unfit(picture, arguments, background, matte, job)?;
    fitted(picture, arguments, background, matte, job, band)
}
