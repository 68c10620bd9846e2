// What a sample's height belongs to, and what a cut met there.

mod making;
mod wording;

// What gives a sample its height.
#[derive(Clone, Copy, Debug, PartialEq, Eq)]
pub enum Class {
    Part,
    Allowance,
    Fixture,
}

// The highest class that a cut met, or clear; the order is that of the cases. No `Option<Class>`, since it prints itself.
#[derive(Clone, Copy, PartialEq, Eq, PartialOrd, Ord)]
pub enum Contact {
    Clear,
    Part,
    Allowance,
    Fixture,
}
