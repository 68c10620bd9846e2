// The flat cutter.
use crate::Disc;

mod cutting;
mod making;

// A cutter whose underside is the level disc.
// The disc is what round kinds share; each is a type of its own, with a profile, a promise and a law of its own.
#[derive(Clone, Copy)]
pub struct Flat {
    pub disc: Disc,
}
