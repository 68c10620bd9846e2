// Where a pose invades the guard.
ghost use Rattle.std.specs.Prelude.{◌≡◌, ◌≤ℤ◌, MatchOption};
ghost use Rattle.milling.specs.Cuts.{Clears, First};
ghost use Rattle.milling.specs.Scans.{Here, InvadedAt};

use crate::scan::Scan;
use cutters::{Cutter, offsets};
use zmap::{Class, Field, Node, Offset};

// A sample where the underside stands below the guard, and its class.
#[derive(Clone, Copy)]
pub(crate) struct Invaded {
    pub sample: Node,
    pub class: Class,
}

impl<F: Field, C: Cutter> Scan<'_, F, C> {
    // Finds the first invaded sample in the order of the offsets, if the pose invades one.
    pub(crate) fn first_invaded(&self) -> Option<Invaded>
        ensures { let G = F.Field.surface self.now.guard.now in
            let P = C.Cutter.shape self.now.cutter.now in
            MatchOption result (Clears self.now.grid G P self.now.pose)
            (λ w. First self.now.grid G P self.now.pose w.sample × (w.class ≡ (G w.sample).class)) }
    {
        let mut found = None;
        // a loop, since by a rule of the project a scan is left by its label
        'scan: for o in offsets() {
            if let Some(invaded) = self.invaded_at(*o) {
                found = Some(invaded);
                break 'scan;
            }
        }
        found
    }

    // Finds the sample at one offset, if the pose invades it.
    fn invaded_at(&self, o: Offset) -> Option<Invaded>
        ensures { let G = F.Field.surface self.now.guard.now in
            let P = C.Cutter.shape self.now.cutter.now in
            MatchOption result (Here self.now.grid P self.now.pose o (λ s u. (G s).height ≤ℤ u))
            (λ w. InvadedAt self.now.grid G P self.now.pose o w.sample w.class) }
    {
        let cover = self.covered(o)?;
        let told = self.told(cover.sample);
        if cover.underside < told.height {
            return Some(Invaded {
                sample: cover.sample,
                class: told.class,
            });
        }
        None
    }
}
