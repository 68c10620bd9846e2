// What an accepted call answers.
ghost use Rattle.std.specs.Prelude.{◌≡◌, ◌+◌, ◌*◌, ◌<◌, ◌≤◌, if◌then◌else◌, nat_lt};

use zmap::Contact;

// How many samples stand lower than before, the sum of what they lost in µm, and the highest class that was met.
#[derive(Clone, Copy)]
pub struct Removed {
    pub samples: usize,
    pub loss: u64,
    pub contact: Contact,
}

impl Removed {
    // Counts one more sample, where it fell.
    pub(crate) fn count(&mut self, fell: u32)
        requires few { self.old.samples < 1000 }
        requires little { self.old.loss ≤ 1000 * 4294967296 }
        ensures samples { self.new.samples ≡ self.old.samples + (if nat_lt 0 fell then 1 else 0) }
        ensures loss { self.new.loss ≡ self.old.loss + fell }
        ensures contact { self.new.contact ≡ self.old.contact }
    {
        if fell > 0 {
            self.samples += 1;
            self.loss += u64::from(fell);
        }
    }
}
