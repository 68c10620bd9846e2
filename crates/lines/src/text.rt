// The text of a line.
ghost use Rattle.std.specs.Prelude.{Some};
ghost use Rattle.lines.specs.Texts.{line_text};

use crate::Line;
use milling::Removed;
use std::fmt;

// The words of the line with a space between, and no end of line.
impl fmt::Display for Line {
    ghost output = { λ l. Some (line_text l) };

    fn fmt<W: fmt::Write>(&self, f: &mut fmt::Formatter<W>) -> fmt::Result {
        match *self {
            Line::Move {
                number,
                answer: Ok(
                    Removed {
                        samples,
                        loss,
                        contact,
                    },
                ),
            } => write!(f, "{number} ok {samples} {loss} {contact}"),
            Line::Move {
                number,
                answer: Err(fault),
            } => write!(f, "{number} no {fault}"),
            Line::Bad { fault, section, at } => {
                let code = fault.parts().number;
                write!(f, "bad {code} {section} {at}")
            }
        }
    }
}
