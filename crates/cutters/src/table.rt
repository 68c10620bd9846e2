// The table inside a measured cutter.
ghost use Rattle.std.specs.Prelude.{◌≡◌, length, pos};
ghost use Rattle.cutters.specs.Cells.{cell};

use crate::row::Row;

mod reading;
mod writing;

// Fifteen rows of entries, from seven rows before the tip to seven after it; the entry at the tip itself is 0.
#[derive(Clone, Copy)]
pub(crate) struct Table {
    rows: [Row; 15],
    ghost sized: { length rows ≡ 15 },
    ghost centred: { cell rows 7 7 ≡ pos 0 },
}
