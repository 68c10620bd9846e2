// Layers over any field: the allowance, and the set-up with its clamps, first open, then locked.
#![tactic(auto)]

mod allowance;
mod clamp;
mod layer;
mod setup;
mod stock;
mod table;

pub use allowance::Allowance;
pub use clamp::{Clamp, Span};
pub use setup::{OpenSetup, Setup};
pub use stock::Stock;
use table::Clamps;
