// The corners of a facet in range, in unsigned numbers.
ghost use Rattle.std.specs.Prelude.{◌≤◌};

use crate::point::Point;

pub(crate) mod placing;

// A vertex in range: its point of the plan, and its height in µm above the floor.
#[derive(Clone, Copy)]
pub(crate) struct Corner {
    pub at: Point,
    pub z: u32,
    ghost across: { at.x ≤ 1000000 },
    ghost along: { at.y ≤ 1000000 },
    ghost high: { z ≤ 1000000 },
}
