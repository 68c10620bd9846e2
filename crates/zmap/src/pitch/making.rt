// A pitch out of a plain number.
ghost use Rattle.std.specs.Prelude.{◌≡◌, pos, IfOk};
ghost use Rattle.zmap.specs.Faults.{FaultIs, pitch_fault};

use crate::{Fault, Pitch, within};

impl Pitch {
    // Makes a pitch of so many µm, or answers a refusal where that is not 10 to 1,000.
    pub fn new(microns: i32) -> Result<Pitch, Fault>
        ensures accepts { FaultIs result (pitch_fault microns) }
        ensures holds { IfOk result (λ p. pos p.microns ≡ microns) }
    {
        let microns = within(10, 1000, microns).ok_or(Fault::Pitch)?;
        Ok(Pitch { microns })
    }
}
