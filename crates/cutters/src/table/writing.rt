// New tables, and entries written.
ghost use Rattle.std.specs.Prelude.{◌≡◌, MatchResult};
ghost use Rattle.zmap.specs.Faults.{FaultIs};
ghost use Rattle.cutters.specs.Entries.{entry_fault, is_allowed};
ghost use Rattle.cutters.specs.Tables.{Blank, Written};

use crate::place::Place;
use crate::row::Row;
use crate::table::Table;
use zmap::{Fault, Offset};

impl Table {
    // Makes a table with 0 everywhere.
    pub(crate) fn new() -> Table
        ensures { Blank result }
    {
        Table {
            rows: [Row { heights: [0; 15] }; 15],
        }
    }

    // Writes the height as the entry at the offset; or tells the first refusal, and leaves the table as it was.
    pub(crate) fn write(&mut self, o: Offset, height: i32) -> Result<(), Fault>
        ensures accepts { FaultIs result (entry_fault o.dx o.dy height) }
        ensures table { MatchResult result (λ _. Written self.old o height self.new) (λ e. self.new ≡ self.old) }
    {
        let at = Place::of(o).ok_or(Fault::EntryOffset)?;
        if !may_stand(o, height) {
            return Err(Fault::EntryHeight);
        }
        self.rows[at.row].heights[at.column] = height;
        Ok(())
    }
}

// Tells whether the height may be the entry at the offset: the tip takes only 0.
fn may_stand(o: Offset, height: i32) -> bool
    ensures { result ≡ is_allowed o.dx o.dy height }
{
    let at_tip = o.dx == 0 && o.dy == 0;
    (-1..=200000).contains(&height) && (!at_tip || height == 0)
}
