// The text of the lines that the program prints.
#![tactic(auto)]

mod line;
mod text;

pub use line::Line;
