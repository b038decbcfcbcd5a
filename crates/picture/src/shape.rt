// The size of a picture and how many samples a pixel has; a side less a few pixels. Assumes nothing.
ghost use Rattle.std.specs.Prelude.{◌≡◌, ◌-◌};

#[derive(Clone, Copy)]
pub struct Shape {
    pub width: u64,
    pub height: u64,
    pub channels: u64,
}

// A side less so many pixels, and 0 where it has fewer.
pub fn side_less(side: u64, by: u64) -> u64
    ensures { result ≡ side - by }
{
    if side < by {
        return 0;
    }
    side - by
}
