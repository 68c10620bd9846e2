// A hook behind the interface of cutters.
ghost use Rattle.strangers.specs.Hooks.{hook_shape};
ghost use Rattle.std.proofs.Common.{rules};

use crate::hook::Hook;
use cutters::Cutter;
use zmap::{Offset, Pitch};

impl Cutter for Hook {
    const REACH: u32 = 2;

    ghost REACH = { 2 };

    ghost spacing = { λ t. t.pitch.microns };

    ghost shape = { λ t. hook_shape };

    ghost lawful = { Prim.search rules };

    fn pitch(&self) -> Pitch {
        self.pitch
    }

    fn profile(&self, o: Offset) -> Option<u32> {
        match (o.dx, o.dy) {
            (0, 0) => Some(0),
            (1, 0) => Some(250),
            (2, 0) => Some(500),
            (2, -1) => Some(520),
            _ => None,
        }
    }
}
