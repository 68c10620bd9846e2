// A flat cutter out of plain numbers.
ghost use Rattle.std.specs.Prelude.{◌≡◌, pos, IfOk};
ghost use Rattle.zmap.specs.Faults.{FaultIs};
ghost use Rattle.cutters.specs.Making.{flat_fault};

use crate::{Disc, Flat};
use zmap::Fault;

impl Flat {
    // Makes a flat cutter of such a pitch and radius, or tells the first refusal of the two.
    pub fn new(pitch: i32, radius: i32) -> Result<Flat, Fault>
        ensures accepts { FaultIs result (flat_fault pitch radius) }
        ensures holds { IfOk result (λ t. (pos t.disc.pitch.microns ≡ pitch) × (pos t.disc.radius ≡ radius)) }
    {
        Disc::new(pitch, radius).map(|disc| Flat { disc })
    }
}
