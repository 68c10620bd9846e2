// Where a pose meets the guard.
ghost use Rattle.milling.specs.Cuts.{Contacts, Only};
ghost use Rattle.milling.specs.Scans.{MetAt};

use crate::scan::Scan;
use cutters::{Cutter, offsets};
use zmap::{Contact, Field, Offset, greater};

impl<F: Field, C: Cutter> Scan<'_, F, C> {
    // Tells the highest class among the samples where the underside stands at the guard, or clear.
    pub(crate) fn contact(&self) -> Contact
        ensures { let G = F.Field.surface self.now.guard.now in
            let P = C.Cutter.shape self.now.cutter.now in
            Contacts self.now.grid G P (Only self.now.pose) result }
    {
        let mut contact = Contact::Clear;
        // not `max`, since by a rule of the project `greater` is the one text for the greatest of a run
        for o in offsets() {
            contact = greater(contact, self.met_at(*o));
        }
        contact
    }

    // Tells the contact at one offset.
    fn met_at(&self, o: Offset) -> Contact
        ensures { let G = F.Field.surface self.now.guard.now in
            let P = C.Cutter.shape self.now.cutter.now in
            MetAt self.now.grid G P self.now.pose o result }
    {
        if let Some(cover) = self.covered(o) {
            let told = self.told(cover.sample);
            if cover.underside == told.height {
                return Contact::from(told.class);
            }
        }
        Contact::Clear
    }
}
