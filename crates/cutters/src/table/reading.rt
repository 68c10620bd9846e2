// Entries read.
ghost use Rattle.std.specs.Prelude.{◌≡◌, true, false, MatchOption};
ghost use Rattle.cutters.specs.Entries.{has_entry};
ghost use Rattle.cutters.specs.Tables.{entry_at, height_of, measured_shape, MeasuredDrawn};

use crate::place::Place;
use crate::table::Table;
use zmap::Offset;

impl Table {
    // Tells the height at the offset, or nothing where that is not covered.
    #[tactic(auto, using(crate::specs::TablesLemmas::entry_drawn))]
    pub(crate) fn read(&self, o: Offset) -> Option<u32>
        ensures value { result ≡ measured_shape self.now o }
        ensures drawn { MeasuredDrawn self.now o result }
    {
        told(self.entry(o)?)
    }

    // Reads the entry at the offset, or nothing past seven columns and rows.
    #[tactic(auto, using(crate::specs::TablesLemmas::entry_read))]
    fn entry(&self, o: Offset) -> Option<i32>
        ensures { MatchOption result (has_entry o ≡ false) (λ z. (has_entry o ≡ true) × (z ≡ entry_at self.now o)) }
    {
        let at = Place::of(o)?;
        Some(self.rows[at.row].heights[at.column])
    }
}

// Takes an entry as a height, if it is one.
fn told(entry: i32) -> Option<u32>
    ensures { result ≡ height_of entry }
{
    u32::try_from(entry).ok()
}
