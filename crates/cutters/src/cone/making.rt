// A cone out of plain numbers.
ghost use Rattle.std.specs.Prelude.{◌≡◌, pos, IfOk};
ghost use Rattle.zmap.specs.Faults.{FaultIs};
ghost use Rattle.cutters.specs.Making.{cone_fault};

use crate::{Cone, Disc};
use zmap::{Fault, within};

impl Cone {
    // Makes a cone of such a pitch, radius, tip radius and rise, or tells the first refusal of the four.
    pub fn new(pitch: i32, radius: i32, tip: i32, rise: i32) -> Result<Cone, Fault>
        ensures accepts { FaultIs result (cone_fault pitch radius tip rise) }
        ensures holds { IfOk result (λ t. (pos t.disc.pitch.microns ≡ pitch) × (pos t.disc.radius ≡ radius) × (pos t.tip ≡ tip) × (pos t.rise ≡ rise)) }
    {
        let disc = Disc::new(pitch, radius)?;
        let tip = within(0, disc.radius, tip).ok_or(Fault::TipRadius)?;
        let rise = within(0, 10000, rise).ok_or(Fault::Rise)?;
        Ok(Cone { disc, tip, rise })
    }
}
