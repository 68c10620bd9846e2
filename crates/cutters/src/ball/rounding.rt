// How high a ball stands above its tip.
ghost use Rattle.std.specs.Prelude.{◌*◌, ◌≤◌};
ghost use Rattle.cutters.specs.Balls.{BallStands, RootUp};

use crate::Ball;

impl Ball {
    // Tells the height where the square of the distance is so many µm².
    #[tactic(auto, using(crate::specs::BallsLemmas::root_under, crate::specs::BallsLemmas::ball_root))]
    pub(crate) fn height(&self, square: u32) -> u32
        requires { square ≤ self.now.disc.radius * self.now.disc.radius }
        ensures { BallStands self.now.disc.radius square result }
    {
        let radius = self.disc.radius;
        radius - root_up(radius * radius - square)
    }
}

// Takes the root of a number, rounded up.
#[tactic(auto, using(crate::specs::BallsLemmas::root_whole, crate::specs::BallsLemmas::root_more))]
fn root_up(n: u32) -> u32
    ensures { RootUp n result }
{
    let root = n.isqrt();
    if root * root < n { root + 1 } else { root }
}
