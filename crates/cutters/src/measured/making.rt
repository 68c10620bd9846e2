// A measured cutter, entry by entry.
ghost use Rattle.std.specs.Prelude.{◌≡◌, MatchResult};
ghost use Rattle.zmap.specs.Faults.{FaultIs};
ghost use Rattle.cutters.specs.Entries.{entry_fault};
ghost use Rattle.cutters.specs.Tables.{Blank, Written};

use crate::Measured;
use crate::table::Table;
use zmap::{Fault, Offset, Pitch};

impl Measured {
    // Makes a measured cutter of the pitch, with 0 everywhere.
    pub fn new(pitch: Pitch) -> Measured
        ensures { (result.pitch ≡ pitch) × Blank result.table }
    {
        Measured {
            pitch,
            table: Table::new(),
        }
    }

    // Writes the height as the entry at the offset, -1 for nothing there; or tells the first refusal, and leaves the cutter as it was.
    pub fn write(&mut self, o: Offset, height: i32) -> Result<(), Fault>
        ensures accepts { FaultIs result (entry_fault o.dx o.dy height) }
        ensures table { MatchResult result (λ _. Written self.old.table o height self.new.table) (λ e. self.new.table ≡ self.old.table) }
        ensures rest { self.new.pitch ≡ self.old.pitch }
    {
        self.table.write(o, height)
    }
}
