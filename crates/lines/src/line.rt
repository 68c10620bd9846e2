// The lines that the program prints.
use milling::Removed;
use zmap::Fault;

// One line.
#[derive(Clone, Copy)]
pub enum Line {
    // what the move of that number, from 1, removed, or why it was refused
    Move {
        number: usize,
        answer: Result<Removed, Fault>,
    },
    // why a job is bad, with the section and the record there
    Bad {
        fault: Fault,
        section: u32,
        at: usize,
    },
}
