// Where an entry of the table stands.
ghost use Rattle.std.specs.Prelude.{◌<◌};

mod finding;

// The row and the column of an entry.
#[derive(Clone, Copy)]
pub(crate) struct Place {
    pub(crate) row: usize,
    pub(crate) column: usize,
    ghost row_in: { row < 15 },
    ghost column_in: { column < 15 },
}
