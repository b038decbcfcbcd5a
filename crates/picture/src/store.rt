// A colour stored as a pixel of a band. `NUMBER` says whether what is stored is known to be a number: then nothing is
// tested for a NaN. Assumes that the band has room for the pixel.
ghost use Rattle.std.specs.Prelude.{◌≡◌, ◌+◌, ◌*◌, ◌≤◌, ◌<◌, true, not, T, length};
ghost use Rattle.std.specs.Float.Ieee.{is_nan};
ghost use Rattle.picture.specs.Store as Store;
ghost use Rattle.picture.specs.Store.{store_sample, store_rgb, store_pixel, Numbers};

use crate::colour::{Rgba, luma};
use endian::bytes::{StoreAt, store_f32_number};

// The sample numbered k.
fn store_sample<const NUMBER: bool>(band: &mut [u8], k: u64, v: f32)
    requires k_in_bounds { (k + 1) * 4 ≤ length band.old }
    requires number { NUMBER ≡ true → T (not (is_nan v)) }
    ensures { band.new ≡ store_sample band.old k v }
{
    let at = 4 * k as usize;
    if NUMBER {
        store_f32_number(band, at, v);
    } else {
        v.store_at(band, at);
    }
}

// Three samples, from the one numbered k on.
fn store_three<const NUMBER: bool>(band: &mut [u8], k: u64, c: Rgba)
    requires k_in_bounds { (k + 3) * 4 ≤ length band.old }
    requires numbers { NUMBER ≡ true → T (not (is_nan c.r)) × (T (not (is_nan c.g)) × T (not (is_nan c.b))) }
    ensures { band.new ≡ store_rgb band.old k c }
{
    store_sample::<NUMBER>(band, k, c.r);
    store_sample::<NUMBER>(band, k + 1, c.g);
    store_sample::<NUMBER>(band, k + 2, c.b);
}

// Four numbers, from the sample numbered k on.
pub fn store_four(band: &mut [u8], k: u64, c: Rgba)
    requires k_in_bounds { (k + 4) * 4 ≤ length band.old }
    requires numbers { Numbers c }
    ensures { band.new ≡ store_sample (store_rgb band.old k c) (k + 3) c.a }
{
    store_three::<true>(band, k, c);
    store_sample::<true>(band, k + 3, c.a);
}

// The colour without its alpha, from the sample numbered k on. One branch for the three, which are numbers nearly
// always, costs less than a choice for each.
fn store_rgb(band: &mut [u8], k: u64, c: Rgba)
    requires { (k + 3) * 4 ≤ length band.old }
    ensures { band.new ≡ store_rgb band.old k c }
{
    if c.r == c.r && c.g == c.g && c.b == c.b {
        store_three::<true>(band, k, c);
    } else {
        store_three::<false>(band, k, c);
    }
}

// From the sample numbered k on, as many samples as there are channels.
fn narrowed<const NUMBER: bool>(band: &mut [u8], channels: u64, k: u64, c: Rgba)
    requires k_in_bounds { (0 < channels) × ((k + channels) * 4 ≤ length band.old) }
    requires numbers { NUMBER ≡ true → Numbers c }
    ensures { band.new ≡ Store.narrowed band.old channels k c }
{
    if channels == 4 {
        store_three::<NUMBER>(band, k, c);
        store_sample::<NUMBER>(band, k + 3, c.a);
        return;
    }
    if channels == 3 {
        if NUMBER {
            store_three::<true>(band, k, c);
        } else {
            store_rgb(band, k, c);
        }
        return;
    }
    store_sample::<NUMBER>(band, k, luma(c));
}

// The pixel numbered `pixel`.
#[tactic(auto, unfolding(crate::specs::Store::store_pixel))]
pub fn store_pixel(band: &mut [u8], channels: u64, pixel: u64, c: Rgba)
    requires { (0 < channels) × ((pixel * channels + channels) * 4 ≤ length band.old) }
    ensures { band.new ≡ store_pixel band.old channels pixel c }
{
    narrowed::<false>(band, channels, pixel * channels, c);
}

// The same of a colour of numbers.
#[tactic(auto, unfolding(crate::specs::Store::store_pixel))]
pub fn store_number_pixel(band: &mut [u8], channels: u64, pixel: u64, c: Rgba)
    requires channels_nonzero { (0 < channels) × ((pixel * channels + channels) * 4 ≤ length band.old) }
    requires numbers { Numbers c }
    ensures { band.new ≡ store_pixel band.old channels pixel c }
{
    narrowed::<true>(band, channels, pixel * channels, c);
}
