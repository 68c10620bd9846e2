// The cone.
ghost use Rattle.std.specs.Prelude.{◌≤◌};

use crate::Disc;

mod cutting;
mod making;
mod rising;

// A cutter that is level up to its tip radius, in µm, and past it rises by so many µm in each 1,000 µm, out to the edge of its disc.
// The disc is what round kinds share; each is a type of its own, with a profile, a promise and a law of its own.
#[derive(Clone, Copy)]
pub struct Cone {
    pub disc: Disc,
    pub tip: u32,
    pub rise: u32,
    ghost blunt: { tip ≤ disc.radius },
    ghost steep: { rise ≤ 10000 },
}
