// Cutting a block: new blocks and poses, against a locked set-up and with any cutter.
#![tactic(auto)]

mod poses;
mod posing;
mod removed;
mod renewing;
mod scan;

pub use posing::pose;
pub use removed::Removed;
pub use renewing::new;
