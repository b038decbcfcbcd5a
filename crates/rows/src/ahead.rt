// One sample of every fourth cell of a span, out of the cell's second row, read before the colours are worked out. A
// mapping that slants goes over to another row of the picture every few pixels, and waits for memory there. Reading
// these samples close together hides a part of that latency (docs/SPEED). What they are decides nothing: a caller is
// right whatever the answer. Assumes nothing.
ghost use Rattle.std.specs.Prelude.{◌+◌, ◌≤◌, ◌<◌};
ghost use Rattle.exact.specs.Limits.{longest_span};
ghost use Rattle.fast_colours.specs.InsideSpan.{CellsInside};

use fast_colours::one_by_one::wide;
use picture::picture::Picture;

// Along fewer rows nothing was gained, across more it took longer, on the one machine where it was measured.
const FEWEST: u32 = 2;

const MOST: u32 = 9;

// The limit of a sample, which no sample of a picture is above.
const SAMPLE_LIMIT: f32 = 65536.0;

// The pixels of a whole span, and the last of them.
const WHOLE_SPAN: usize = 64;

const LAST: usize = 63;

// Whether a whole span goes over so many rows.
fn slants(rows: &[u32; 64], n: usize) -> bool {
    if n < WHOLE_SPAN {
        return false;
    }
    let first = rows[0];
    let last = rows[LAST];
    let over = if first < last {
        last - first
    } else {
        first - last
    };
    (over >= FEWEST) & (over <= MOST)
}

// A sample of the second row of the cell at column i and row j.
fn second(picture: Picture, i: u64, j: u64) -> f32
    requires i_bound { (i + 1 < picture.width) × (j + 1 < picture.height) }
{
    let p = picture.pixel_at(i, j + 1);
    p.r
}

// Whether none of them is above the limit. The compiler does not know that no sample is, and keeps the reads. Nothing
// is proved of the answer, and nothing rests on it.
fn read(picture: Picture, columns: &[u32; 64], rows: &[u32; 64], n: usize) -> bool
    requires n_le_longest_span { n ≤ longest_span }
    requires cells_inside { CellsInside picture.width picture.height n columns.now rows.now }
{
    let mut good = true;
    for k in (0..n).step_by(4) {
        good = good & (second(picture, wide(columns[k]), wide(rows[k])) <= SAMPLE_LIMIT);
    }
    good
}

// The samples are read where the span slants.
pub fn ahead(picture: Picture, columns: &[u32; 64], rows: &[u32; 64], n: usize) -> bool
    requires n_le_longest_span { n ≤ longest_span }
    requires cells_inside { CellsInside picture.width picture.height n columns.now rows.now }
{
    if slants(rows, n) {
        return read(picture, columns, rows, n);
    }
    true
}
