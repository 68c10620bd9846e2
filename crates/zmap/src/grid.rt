// The grid of a map.
ghost use Rattle.zmap.specs.Limits.{Within};

use crate::Pitch;

mod making;
mod places;

// A map's columns and rows, 1 to 512 of each, and its pitch.
#[derive(Clone, Copy)]
pub struct Grid {
    pub columns: usize,
    pub rows: usize,
    pub pitch: Pitch,
    ghost wide: { Within 1 512 columns },
    ghost deep: { Within 1 512 rows },
}
