// A round cutter of any kind behind the interface.
ghost use Rattle.cutters.specs.RoundTools.{round_shape, round_spacing};
ghost use Rattle.cutters.specs.BallsLemmas.{ball_lawful};
ghost use Rattle.cutters.specs.ConesLemmas.{cone_lawful};
ghost use Rattle.cutters.specs.FlatsLemmas.{flat_lawful};
ghost use Rattle.cutters.specs.declared.round.RoundTool.TheVariants.{Flat, Cone, Ball};

use crate::{Cutter, RoundTool};
use zmap::{Offset, Pitch};

// As its kind.
impl Cutter for RoundTool {
    const REACH: u32 = 15;

    ghost REACH = { 15 };

    ghost spacing = { round_spacing };

    ghost shape = { round_shape };

    ghost lawful = { elim [
      | Flat t ↦ flat_lawful t.disc.pitch.microns t.disc.radius t.disc.near
      | Cone t ↦ cone_lawful t.disc.pitch.microns t.disc.radius t.tip t.rise t.disc.near
      | Ball t ↦ ball_lawful t.disc.pitch.microns t.disc.radius t.disc.slim t.disc.near
    ] };

    fn pitch(&self) -> Pitch {
        match self {
            RoundTool::Flat(t) => t.pitch(),
            RoundTool::Cone(t) => t.pitch(),
            RoundTool::Ball(t) => t.pitch(),
        }
    }

    fn profile(&self, o: Offset) -> Option<u32> {
        match self {
            RoundTool::Flat(t) => t.profile(o),
            RoundTool::Cone(t) => t.profile(o),
            RoundTool::Ball(t) => t.profile(o),
        }
    }
}
