// The cone behind the interface.
ghost use Rattle.std.specs.Prelude.{◌≡◌};
ghost use Rattle.cutters.specs.Cones.{cone_shape, ConeDrawn};
ghost use Rattle.cutters.specs.ConesLemmas.{cone_lawful};

use crate::{Cone, Cutter};
use zmap::{Offset, Pitch};

// Level up to the tip radius, then rising, and covers nothing past the radius.
impl Cutter for Cone {
    const REACH: u32 = 15;

    ghost REACH = { 15 };

    ghost spacing = { λ t. t.disc.pitch.microns };

    ghost shape = { λ t. cone_shape t.disc.pitch.microns t.disc.radius t.tip t.rise };

    ghost lawful = { λ t. cone_lawful t.disc.pitch.microns t.disc.radius t.tip t.rise t.disc.near };

    fn pitch(&self) -> Pitch {
        self.disc.pitch
    }

    #[tactic(auto, using(crate::specs::ConesLemmas::cone_drawing))]
    fn profile(&self, o: Offset) -> Option<u32>
        ensures value { result ≡ cone_shape self.now.disc.pitch.microns self.now.disc.radius self.now.tip self.now.rise o }
        ensures drawn { ConeDrawn self.now.disc.pitch.microns self.now.disc.radius self.now.tip self.now.rise o result }
    {
        let square = self.disc.square_at(o)?;
        Some(self.height(square))
    }
}
