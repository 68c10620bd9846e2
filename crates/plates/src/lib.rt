// The worked examples: profiles of a ball and of a cone by the cutters themselves, facets, and a pile of layers.
#![tactic(auto)]

ghost use Rattle.std.specs.Prelude.{◌≡◌};
ghost use Rattle.plates.specs.Plates.{Plates, worked};

mod pile;
mod slopes;

use cutters::{Ball, Cone, Cutter};
pub use pile::worked_pile;
pub use slopes::worked_facets;
use zmap::Offset;

// Tells the seven worked profiles, those of the ball first, at a pitch of 100 µm.
pub fn worked_profiles() -> [Option<u32>; 7]
    ensures values { result ≡ worked }
    ensures plates { Plates }
{
    let ball = Ball::new(100, 500).unwrap();
    let cone = Cone::new(100, 500, 100, 1000).unwrap();
    let beside = ball.profile(Offset { dx: 1, dy: 0 });
    let second = ball.profile(Offset { dx: 2, dy: 0 });
    let rim = ball.profile(Offset { dx: 3, dy: 4 });
    let past = ball.profile(Offset { dx: 4, dy: 4 });
    let level = cone.profile(Offset { dx: 1, dy: 0 });
    let slant = cone.profile(Offset { dx: 2, dy: 2 });
    let third = cone.profile(Offset { dx: 3, dy: 0 });
    [beside, second, rim, past, level, slant, third]
}
