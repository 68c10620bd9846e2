// Jobs carried out: what is cut against, the cuts, and a line for each move.
#![tactic(auto)]

mod guard;
mod printing;

pub use printing::{carry_out, run};
