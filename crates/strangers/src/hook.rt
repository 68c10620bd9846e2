// A hook: a cutter that no turn and no mirror maps onto itself.
use zmap::Pitch;

mod cutting;

// A cutter over four samples: the tip, two more to the east, and one north of the last.
#[derive(Clone, Copy)]
pub struct Hook {
    pub pitch: Pitch,
}
