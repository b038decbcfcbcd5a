// The columns and the rows below which the cell of a point, or its place, must lie. Assumes nothing.

#[derive(Clone, Copy)]
pub struct Reach {
    pub wide: u64,
    pub high: u64,
}
