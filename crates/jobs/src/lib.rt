// Jobs: what a job holds, the memory for the largest one, and the reader of its bytes.
#![tactic(auto)]

mod bad;
mod clamps;
mod count;
mod cutter;
mod empty;
mod grid;
mod heights;
mod job;
mod kind;
mod moves;
mod reader;
mod section;
mod store;
mod whole;

pub use bad::Bad;
pub use empty::Empty;
pub use job::{Job, Move};
pub use section::Section;
pub use store::Store;
pub use whole::read;
