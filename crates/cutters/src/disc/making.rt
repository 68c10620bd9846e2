// A disc out of plain numbers.
ghost use Rattle.std.specs.Prelude.{◌≡◌, pos, IfOk};
ghost use Rattle.zmap.specs.Faults.{FaultIs};
ghost use Rattle.cutters.specs.Making.{round_fault};

use crate::Disc;
use zmap::{Fault, Pitch, within};

impl Disc {
    // Makes a disc of such a pitch and radius, or tells the first refusal of the two.
    pub(crate) fn new(pitch: i32, radius: i32) -> Result<Disc, Fault>
        ensures accepts { FaultIs result (round_fault pitch radius) }
        ensures holds { IfOk result (λ d. (pos d.pitch.microns ≡ pitch) × (pos d.radius ≡ radius)) }
    {
        let pitch = Pitch::new(pitch)?;
        let radius = within(0, 15999, radius)
            .filter(|r| *r < 16 * pitch.microns)
            .ok_or(Fault::Radius)?;
        Ok(Disc { pitch, radius })
    }
}
