// A mapping in the output's window. Assumes nothing.
ghost use Rattle.std.specs.Prelude.{◌≤◌, nat_abs};
ghost use Rattle.exact.specs.Limits.{largest_offset};

use mappings::mapping::Mapping;

// The window starts at x, y, which lie within its limits.
#[derive(Clone, Copy)]
pub struct Frame<'a> {
    pub mapping: &'a Mapping,
    pub x: i64,
    pub y: i64,
    pub ghost near: { (nat_abs x ≤ largest_offset) × (nat_abs y ≤ largest_offset) },
}
