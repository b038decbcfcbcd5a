// Pixels of a row that are worked together: n from column `first` of row j on. The first goes to the place in the band
// that has the number `pixel`. Assumes nothing.

#[derive(Clone, Copy)]
pub struct Span {
    pub first: u64,
    pub j: u64,
    pub n: usize,
    pub pixel: u64,
}
