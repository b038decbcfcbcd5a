// A pair of points: u, v in the picture and x, y in the output.
#[derive(Clone, Copy)]
pub struct Pair {
    pub u: f64,
    pub v: f64,
    pub x: f64,
    pub y: f64,
}
