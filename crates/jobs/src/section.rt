// The sections of a job.

mod numbering;

// Where a job is bad: in it as a whole, or in one of its seven sections, in their order.
#[derive(Clone, Copy, Debug, PartialEq, Eq, PartialOrd, Ord)]
pub enum Section {
    Whole,
    Grid,
    Cutter,
    Heights,
    Facets,
    Allowance,
    Clamps,
    Moves,
}
