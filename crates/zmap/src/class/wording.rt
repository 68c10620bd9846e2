// The words for contacts and classes.
ghost use Rattle.std.specs.Prelude.{Some};
ghost use Rattle.zmap.specs.Contacts.{contact_of};
ghost use Rattle.zmap.specs.Texts.{contact_text};

use crate::{Class, Contact};
use std::fmt;

// One word for what was met.
impl fmt::Display for Contact {
    ghost output = { λ k. Some (contact_text k) };

    fn fmt<W: fmt::Write>(&self, f: &mut fmt::Formatter<W>) -> fmt::Result {
        f.write_str(match self {
            Contact::Clear => "clear",
            Contact::Part => "part",
            Contact::Allowance => "allowance",
            Contact::Fixture => "fixture",
        })
    }
}

// The word for the contact that it makes.
impl fmt::Display for Class {
    ghost output = { λ k. Some (contact_text (contact_of k)) };

    fn fmt<W: fmt::Write>(&self, f: &mut fmt::Formatter<W>) -> fmt::Result {
        let contact = Contact::from(*self);
        write!(f, "{contact}")
    }
}
