// The line of each fault and of each contact.
use lines::Line;
use milling::Removed;
use zmap::{Class, Contact, End, Fault, Node};

// The faults by number, those that name an end or a class with each.
const FAULTS: [Fault; 34] = [
    Fault::Columns,
    Fault::Rows,
    Fault::Pitch,
    Fault::Radius,
    Fault::TipRadius,
    Fault::Rise,
    Fault::EntryOffset,
    Fault::EntryHeight,
    Fault::RasterLength,
    Fault::RasterHeight(4095),
    Fault::FacetVertex(7),
    Fault::ClampExtent,
    Fault::ClampHeight,
    Fault::ClampsFull,
    Fault::NoClamp,
    Fault::Allowance,
    Fault::CutterPitch,
    Fault::BlockLength,
    Fault::NodeOff(End::Start),
    Fault::NodeOff(End::Finish),
    Fault::TipRange(End::Start),
    Fault::TipRange(End::Finish),
    Fault::Uncovered,
    Fault::Invaded(0, Node { column: 3, row: 0 }, Class::Part),
    Fault::Invaded(5, Node { column: 1, row: 2 }, Class::Allowance),
    Fault::Invaded(
        6,
        Node {
            column: 511,
            row: 510,
        },
        Class::Fixture,
    ),
    Fault::BlockMet(8, Node { column: 9, row: 10 }),
    Fault::MapLength,
    Fault::Band,
    Fault::MapHeight(11),
    Fault::Short,
    Fault::Count,
    Fault::Kind,
    Fault::Over,
];

// The contacts in their order.
const CONTACTS: [Contact; 4] = [
    Contact::Clear,
    Contact::Part,
    Contact::Allowance,
    Contact::Fixture,
];

// Prints a refused line of each fault, and a cut line of each contact.
pub(crate) fn print(rt: &HostRuntime) -> anyhow::Result<()> {
    for fault in FAULTS {
        let line = Line::Move {
            number: 1,
            answer: Err(fault),
        };
        println!(rt; "{line}")?;
    }
    for contact in CONTACTS {
        let removed = Removed {
            samples: 3,
            loss: 1499700,
            contact,
        };
        let line = Line::Move {
            number: 2,
            answer: Ok(removed),
        };
        println!(rt; "{line}")?;
    }
    Ok(())
}
