// The names line: the column of each of u, v, x and y, counted from 0, once it is read. Assumes nothing.
ghost use Rattle.std.specs.Prelude.{◌≡◌};
ghost use Rattle.listing.specs.Names.{place, no_names, column_of, with_name, name_at};

// A name of the line: what a number of a pair is. An argument list has them in this order.
#[derive(Clone, Copy)]
pub enum Coordinate {
    U,
    V,
    X,
    Y,
}

impl Coordinate {
    // Its place in the order, which counts from 0.
    pub fn place(self) -> u64
        ensures { result ≡ place self }
    {
        match self {
            Coordinate::U => 0,
            Coordinate::V => 1,
            Coordinate::X => 2,
            Coordinate::Y => 3,
        }
    }
}

#[derive(Clone, Copy)]
pub struct Names {
    pub u: Option<u64>,
    pub v: Option<u64>,
    pub x: Option<u64>,
    pub y: Option<u64>,
}

pub fn no_names() -> Names
    ensures { result ≡ no_names }
{
    Names {
        u: None,
        v: None,
        x: None,
        y: None,
    }
}

pub fn column_of(n: Names, c: Coordinate) -> Option<u64>
    ensures { result ≡ column_of n c }
{
    match c {
        Coordinate::U => n.u,
        Coordinate::V => n.v,
        Coordinate::X => n.x,
        Coordinate::Y => n.y,
    }
}

// The name stands in a column.
pub fn with_name(n: Names, c: Coordinate, column: u64) -> Names
    ensures { result ≡ with_name n c column }
{
    let here = Some(column);
    match c {
        Coordinate::U => Names { u: here, ..n },
        Coordinate::V => Names { v: here, ..n },
        Coordinate::X => Names { x: here, ..n },
        Coordinate::Y => Names { y: here, ..n },
    }
}

// The name that stands in a column.
#[tactic(auto, unfolding(crate::specs::Names::name_at))]
pub fn name_at(n: Names, column: u64) -> Coordinate
    ensures { result ≡ name_at n column }
{
    let here = Some(column);
    if n.u == here {
        Coordinate::U
    } else if n.v == here {
        Coordinate::V
    } else if n.x == here {
        Coordinate::X
    } else {
        Coordinate::Y
    }
}
