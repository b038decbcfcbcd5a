// The listing's text, put into a lent buffer. Assumes nothing.
ghost use Rattle.std.specs.Prelude.{◌≡◌, ◌+◌, ◌≤◌, ◌<◌, length};
ghost use Rattle.listing.specs.Print.{put_text, hex_digit, hex_text, line_text, lines_text, listing_text, refused_text};

use endian::pattern::Pattern;

// 0 to 9, then a to f.
#[tactic(auto, unfolding(crate::specs::Print::hex_digit))]
fn hex_digit(n: u64) -> u8
    requires { n < 16 }
    ensures { result ≡ hex_digit n }
{
    if n < 10 {
        b'0' + n as u8
    } else {
        b'a' - 10 + n as u8
    }
}

fn store_text(out: &mut [u8; 124], at: usize, text: &[u8]) -> usize
    requires { at + length text.now ≤ 124 }
    ensures { (result ≡ at + length text.now)
        × (out.new ≡ put_text out.old at text.now) }
{
    let end = at + text.len();
    out[at..end].copy_from_slice(text);
    end
}

// Sixteen digits, the highest first.
fn store_hex(out: &mut [u8; 124], at: usize, n: u64) -> usize
    requires { at + 16 ≤ 124 }
    ensures { (result ≡ at + 16) × (out.new ≡ put_text out.old at (hex_text 16 n)) }
{
    for k in 0..16 {
        out[at + k] = hex_digit((n >> (4 * (15 - k))) % 16);
    }
    at + 16
}

// A coefficient: its name and its bits.
fn store_line(out: &mut [u8; 124], at: usize, name: u8, x: f64) -> usize
    requires { at + 19 ≤ 124 }
    ensures { (result ≡ at + 19) × (out.new ≡ put_text out.old at (line_text name x)) }
{
    out[at] = name;
    out[at + 1] = b' ';
    store_hex(out, at + 2, x.bits());
    out[at + 18] = b'\n';
    at + 19
}

// The six coefficients of `Affine`.
fn store_lines(out: &mut [u8; 124], at: usize, coefficients: &[f64; 256]) -> usize
    requires { at + 114 ≤ 124 }
    ensures { (result ≡ at + 114)
        × (out.new ≡ put_text out.old at (lines_text 0 6 coefficients.now)) }
{
    for k in 0..6 {
        store_line(out, at + 19 * k, b'a' + k as u8, coefficients[k]);
    }
    at + 114
}

// The whole listing, of the coefficients that a fit has first.
pub fn listing(out: &mut [u8; 124], coefficients: &[f64; 256]) -> usize
    ensures { (result ≡ 124) ×
        (out.new ≡ put_text out.old 0 (listing_text coefficients.now)) }
{
    let at = store_text(out, 0, b"name bits\n");
    store_lines(out, at, coefficients)
}

// A refusal's number, of which the last digit is given: those of a fit have one.
#[tactic(auto, unfolding(crate::specs::Print::put_text, crate::specs::Print::refused_text))]
pub fn refused(out: &mut [u8; 124], n: u64) -> usize
    ensures { (result ≡ 10) × (out.new ≡ put_text out.old 0 (refused_text n)) }
{
    let at = store_text(out, 0, b"refused ");
    out[at] = b'0' + (n % 10) as u8;
    out[at + 1] = b'\n';
    at + 2
}
