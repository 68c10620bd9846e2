// How high the clamps stand at a sample.
ghost use Rattle.std.specs.Prelude.{◌≡◌};
ghost use Rattle.setups.specs.Tables.{clamps_of, lifted, raised_by};

use crate::{Clamp, Clamps};
use zmap::{Node, greater};

impl Clamps {
    // Answers the greatest of the height below and of the clamps over the sample.
    pub(crate) fn over(&self, n: Node, below: i32) -> i32
        ensures { result ≡ raised_by n below (clamps_of self.now) }
    {
        self.standing()
            .iter()
            .fold(below, |height, clamp| lifted(n, height, *clamp))
    }

    // Answers the clamps by their numbers, without the spare entries.
    fn standing(&self) -> &[Clamp]
        ensures { result.now ≡ clamps_of self.now }
    {
        &self.entries[..self.count]
    }
}

// Answers the greater of a height and the clamp, where that is over the sample.
fn lifted(n: Node, height: i32, clamp: Clamp) -> i32
    ensures { result ≡ lifted n height clamp }
{
    if clamp.covers(n) {
        greater(height, clamp.height)
    } else {
        height
    }
}
