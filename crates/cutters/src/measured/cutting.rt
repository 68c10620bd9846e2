// The measured cutter behind the interface.
ghost use Rattle.std.specs.Prelude.{◌≡◌};
ghost use Rattle.cutters.specs.Tables.{measured_shape, MeasuredDrawn};
ghost use Rattle.cutters.specs.TablesLemmas.{measured_lawful};

use crate::{Cutter, Measured};
use zmap::{Offset, Pitch};

// As high as its entries tell, and covers nothing past seven columns and rows.
impl Cutter for Measured {
    const REACH: u32 = 7;

    ghost REACH = { 7 };

    ghost spacing = { λ t. t.pitch.microns };

    ghost shape = { λ t. measured_shape t.table };

    ghost lawful = { λ t. measured_lawful t.table };

    fn pitch(&self) -> Pitch {
        self.pitch
    }

    fn profile(&self, o: Offset) -> Option<u32>
        ensures value { result ≡ measured_shape self.now.table o }
        ensures drawn { MeasuredDrawn self.now.table o result }
    {
        self.table.read(o)
    }
}
