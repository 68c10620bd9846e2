// A ball out of plain numbers.
ghost use Rattle.std.specs.Prelude.{◌≡◌, pos, IfOk};
ghost use Rattle.zmap.specs.Faults.{FaultIs};
ghost use Rattle.cutters.specs.Making.{ball_fault};

use crate::{Ball, Disc};
use zmap::Fault;

impl Ball {
    // Makes a ball of such a pitch and radius, or tells the first refusal of the two.
    pub fn new(pitch: i32, radius: i32) -> Result<Ball, Fault>
        ensures accepts { FaultIs result (ball_fault pitch radius) }
        ensures holds { IfOk result (λ t. (pos t.disc.pitch.microns ≡ pitch) × (pos t.disc.radius ≡ radius)) }
    {
        Disc::new(pitch, radius).map(|disc| Ball { disc })
    }
}
