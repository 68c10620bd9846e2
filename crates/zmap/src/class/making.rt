// The contact that a class makes.
ghost use Rattle.std.specs.Prelude.{◌≡◌};
ghost use Rattle.zmap.specs.Contacts.{contact_of};

use crate::{Class, Contact};

// The contact of a cut that meets a sample of the class.
impl From<Class> for Contact {
    ghost from_gives = { λ k r. r ≡ contact_of k };

    fn from(class: Class) -> Contact {
        match class {
            Class::Part => Contact::Part,
            Class::Allowance => Contact::Allowance,
            Class::Fixture => Contact::Fixture,
        }
    }
}
