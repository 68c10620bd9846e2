// The ball.
use crate::Disc;

mod cutting;
mod making;
mod rounding;

// A cutter whose underside is the lower half of a ball over the disc.
// The disc is what round kinds share; each is a type of its own, with a profile, a promise and a law of its own.
#[derive(Clone, Copy)]
pub struct Ball {
    pub disc: Disc,
}
