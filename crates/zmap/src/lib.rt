// Heights on a grid: pitch, grid, nodes and offsets, ranges, classes and contacts, faults, and the interface of fields.
#![tactic(auto)]

mod class;
mod fault;
mod field;
mod grid;
pub mod heights;
mod node;
mod order;
mod pitch;
mod ranges;
mod sample;

pub use class::{Class, Contact};
pub use fault::{End, Fault, Parts};
pub use field::Field;
pub use grid::Grid;
pub use node::{Node, Offset, Spot};
pub use order::greater;
pub use pitch::Pitch;
pub use ranges::within;
pub use sample::Sample;
