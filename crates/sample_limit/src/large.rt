// Whether a sample is not finite or above 65,536 in magnitude. Every sample is read, with no way out in the middle, so
// that the compiler takes several at once; and eight parts of the picture are read side by side, since a processor
// fetches ahead along each by itself, and so waits less for memory: so no iterator over the samples takes the place of
// the indexes. Assumes that there are as many samples as is said.
ghost use Rattle.std.specs.Prelude.{◌≡◌, Bool, ◌||◌, ℕ, ◌+◌, ◌*◌, ◌≤◌, length};
ghost use Rattle.exact.specs.Loop.{up_to};
ghost use Rattle.sample_limit.specs.Samples as Samples;
ghost use Rattle.sample_limit.specs.Samples.{beyond_limit, one_of_eight, in_parts};

use endian::bytes::within;

// 65536.0, the largest sample in magnitude, by its pattern.
const SAMPLE_LIMIT: u32 = 0x4780_0000;

// The sample numbered k.
fn beyond_limit(bytes: &[u8], k: usize) -> bool
    requires { (k + 1) * 4 ≤ length bytes.now }
    ensures { result ≡ beyond_limit bytes.now k }
{
    !within::<f32>(bytes, 4 * k, SAMPLE_LIMIT)
}

// One of eight samples, m apart, from the one numbered k on.
fn one_of_eight(bytes: &[u8], m: usize, k: usize) -> bool
    requires { (k + 7 * m + 1) * 4 ≤ length bytes.now }
    ensures { result ≡ one_of_eight bytes.now m k }
{
    beyond_limit(bytes, k)
        | beyond_limit(bytes, k + m)
        | beyond_limit(bytes, k + 2 * m)
        | beyond_limit(bytes, k + 3 * m)
        | beyond_limit(bytes, k + 4 * m)
        | beyond_limit(bytes, k + 5 * m)
        | beyond_limit(bytes, k + 6 * m)
        | beyond_limit(bytes, k + 7 * m)
}

// One of the first 8 m.
fn in_parts(bytes: &[u8], m: usize) -> bool
    requires { 8 * m * 4 ≤ length bytes.now }
    ensures { result ≡ in_parts bytes.now m m }
{
    let mut found = false;
    for k in 0..m {
        found = found | one_of_eight(bytes, m, k);
    }
    found
}

// What was found already, or one of those from the one numbered `first` on, up to n.
fn in_rest(bytes: &[u8], first: usize, n: usize, already: bool) -> bool
    requires { (first ≤ n) × (n * 4 ≤ length bytes.now) }
    ensures { result ≡ up_to (λ (k : ℕ) (t : Bool). t || beyond_limit bytes.now k) first n already }
{
    let mut found = already;
    for k in first..n {
        found = found | beyond_limit(bytes, k);
    }
    found
}

// One of the first n.
pub fn large(bytes: &[u8], n: usize) -> bool
    requires { n * 4 ≤ length bytes.now }
    ensures { result ≡ Samples.large bytes.now n }
{
    let m = n / 8;
    in_rest(bytes, 8 * m, n, in_parts(bytes, m))
}
