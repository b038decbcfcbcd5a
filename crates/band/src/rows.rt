// The rows that a call asks for, and a row's place in the band. Assumes nothing.

// `count` rows of the output from `first` on.
#[derive(Clone, Copy)]
pub struct Rows {
    pub first: u64,
    pub count: u64,
}

// Row j of the output, stored from the band's pixel numbered `pixel` on.
#[derive(Clone, Copy)]
pub struct Row {
    pub j: u64,
    pub pixel: u64,
}
