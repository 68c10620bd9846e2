// The numbers of the sections.
ghost use Rattle.std.specs.Prelude.{◌≡◌};
ghost use Rattle.jobs.specs.Texts.{section_number};

use crate::Section;

impl Section {
    // Tells the number of the section: from 1 in their order, and 0 for the whole job.
    pub fn number(self) -> u32
        ensures { result ≡ section_number self }
    {
        self as u32
    }
}
