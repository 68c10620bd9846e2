// The words for a bad job.
ghost use Rattle.std.specs.Prelude.{Some};
ghost use Rattle.jobs.specs.Texts.{bad_text};

use crate::Bad;
use std::error::Error;
use std::fmt;

// The word bad and the numbers of the fault, the section and the record, with a space between.
impl fmt::Display for Bad {
    ghost output = { λ b. Some (bad_text b) };

    fn fmt<W: fmt::Write>(&self, f: &mut fmt::Formatter<W>) -> fmt::Result {
        let code = self.fault.parts().number;
        let section = self.section.number();
        let at = self.at;
        write!(f, "bad {code} {section} {at}")
    }
}

impl Error for Bad {}
