// The measured cutter.
use crate::table::Table;
use zmap::Pitch;

mod cutting;
mod making;

// A cutter whose underside is a table of heights, up to seven columns and rows away.
#[derive(Clone, Copy)]
pub struct Measured {
    pub pitch: Pitch,
    table: Table,
}
