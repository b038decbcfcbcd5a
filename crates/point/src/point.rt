// A source point: two coordinates in the picture, with a mark for usable. Assumes nothing.

#[derive(Clone, Copy)]
pub struct Point {
    pub u: f64,
    pub v: f64,
    pub usable: bool,
}
