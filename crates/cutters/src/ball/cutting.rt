// The ball behind the interface.
ghost use Rattle.std.specs.Prelude.{◌≡◌};
ghost use Rattle.cutters.specs.Balls.{ball_shape, BallDrawn};
ghost use Rattle.cutters.specs.BallsLemmas.{ball_lawful};

use crate::{Ball, Cutter};
use zmap::{Offset, Pitch};

// Round from the tip out to the radius, and covers nothing past it.
impl Cutter for Ball {
    const REACH: u32 = 15;

    ghost REACH = { 15 };

    ghost spacing = { λ t. t.disc.pitch.microns };

    ghost shape = { λ t. ball_shape t.disc.pitch.microns t.disc.radius };

    ghost lawful = { λ t. ball_lawful t.disc.pitch.microns t.disc.radius t.disc.slim t.disc.near };

    fn pitch(&self) -> Pitch {
        self.disc.pitch
    }

    #[tactic(auto, using(crate::specs::BallsLemmas::ball_drawing))]
    fn profile(&self, o: Offset) -> Option<u32>
        ensures value { result ≡ ball_shape self.now.disc.pitch.microns self.now.disc.radius o }
        ensures drawn { BallDrawn self.now.disc.pitch.microns self.now.disc.radius o result }
    {
        let square = self.disc.square_at(o)?;
        Some(self.height(square))
    }
}
