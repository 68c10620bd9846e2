// Why a job is bad.
use crate::Section;
use zmap::Fault;

mod wording;

// The first fault of a job, with its section and its record there, from 0.
#[derive(Clone, Copy, Debug)]
pub struct Bad {
    pub fault: Fault,
    pub section: Section,
    pub at: usize,
}
