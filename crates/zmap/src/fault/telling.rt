// What a fault says.
ghost use Rattle.std.specs.Prelude.{◌≡◌};
ghost use Rattle.zmap.specs.Faults.{parts_of, bare, at_step};

use crate::{Contact, Fault, Node, Parts};

impl Fault {
    // Tells the number, step, column, row and class of the fault.
    pub fn parts(&self) -> Parts
        ensures { result ≡ parts_of self.now }
    {
        match *self {
            Fault::Columns => bare(1),
            Fault::Rows => bare(2),
            Fault::Pitch => bare(3),
            Fault::Radius => bare(4),
            Fault::TipRadius => bare(5),
            Fault::Rise => bare(6),
            Fault::EntryOffset => bare(7),
            Fault::EntryHeight => bare(8),
            Fault::RasterLength => bare(9),
            Fault::RasterHeight(place) => at_step(10, place),
            Fault::FacetVertex(facet) => at_step(11, facet),
            Fault::ClampExtent => bare(12),
            Fault::ClampHeight => bare(13),
            Fault::ClampsFull => bare(14),
            Fault::NoClamp => bare(15),
            Fault::Allowance => bare(16),
            Fault::CutterPitch => bare(17),
            Fault::BlockLength => bare(18),
            Fault::NodeOff(end) => at_step(19, end as usize),
            Fault::TipRange(end) => at_step(20, end as usize),
            Fault::Uncovered => bare(21),
            Fault::Invaded(step, s, class) => at_sample(22, step, s, Contact::from(class)),
            Fault::BlockMet(step, s) => at_sample(23, step, s, Contact::Clear),
            Fault::MapLength => bare(24),
            Fault::Band => bare(25),
            Fault::MapHeight(place) => at_step(26, place),
            Fault::Short => bare(27),
            Fault::Count => bare(28),
            Fault::Kind => bare(29),
            Fault::Over => bare(30),
        }
    }
}

// Makes what a fault says that names nothing but its number; here and below a number, since the rules number the faults and programs print it.
fn bare(number: u32) -> Parts
    ensures { result ≡ bare number }
{
    at_step(number, 0)
}

// Makes what a fault says that names a step, a place or a facet.
fn at_step(number: u32, step: usize) -> Parts
    ensures { result ≡ at_step number step }
{
    at_sample(number, step, Node { column: 0, row: 0 }, Contact::Clear)
}

// Makes what a fault says that names a step, a sample and its class.
fn at_sample(number: u32, step: usize, s: Node, class: Contact) -> Parts
    ensures { result ≡ record { number = number; step = step; column = s.column; row = s.row; class = class } }
{
    Parts {
        number,
        step,
        column: s.column,
        row: s.row,
        class,
    }
}
