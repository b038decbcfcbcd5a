// What a distort call is given in numbers. The picture, the arguments, the two colours and the band are lent beside it.
// Assumes nothing.
use band::rows::Rows;
use picture::shape::Shape;
use window::view::View;

#[derive(Clone, Copy)]
pub struct Job {
    pub shape: Shape,
    pub method: u64,
    pub policy: u64,
    pub interpolation: u64,
    pub view: View,
    pub rows: Rows,
}
