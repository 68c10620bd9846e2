// The flat cutter behind the interface.
ghost use Rattle.std.specs.Prelude.{◌≡◌};
ghost use Rattle.cutters.specs.Flats.{flat_shape, FlatDrawn};
ghost use Rattle.cutters.specs.FlatsLemmas.{flat_lawful};

use crate::{Cutter, Flat};
use zmap::{Offset, Pitch};

// Level over the disc, and covers nothing past it.
impl Cutter for Flat {
    const REACH: u32 = 15;

    ghost REACH = { 15 };

    ghost spacing = { λ t. t.disc.pitch.microns };

    ghost shape = { λ t. flat_shape t.disc.pitch.microns t.disc.radius };

    ghost lawful = { λ t. flat_lawful t.disc.pitch.microns t.disc.radius t.disc.near };

    fn pitch(&self) -> Pitch {
        self.disc.pitch
    }

    #[tactic(auto, using(crate::specs::DiscsLemmas::disc_past, crate::specs::DiscsLemmas::disc_le))]
    fn profile(&self, o: Offset) -> Option<u32>
        ensures value { result ≡ flat_shape self.now.disc.pitch.microns self.now.disc.radius o }
        ensures drawn { FlatDrawn self.now.disc.pitch.microns self.now.disc.radius o result }
    {
        self.disc.square_at(o).map(|_| 0)
    }
}
