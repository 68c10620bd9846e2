// The words for a fault.
ghost use Rattle.std.specs.Prelude.{Some};
ghost use Rattle.zmap.specs.Faults.{parts_of};
ghost use Rattle.zmap.specs.Texts.{parts_text};

use crate::{Fault, Parts};
use std::error::Error;
use std::fmt;

// Its five values, with a space between.
impl fmt::Display for Fault {
    ghost output = { λ e. Some (parts_text (parts_of e)) };

    fn fmt<W: fmt::Write>(&self, f: &mut fmt::Formatter<W>) -> fmt::Result {
        let Parts {
            number,
            step,
            column,
            row,
            class,
        } = self.parts();
        write!(f, "{number} {step} {column} {row} {class}")
    }
}

impl Error for Fault {}
