// The three round kinds as one type.
use crate::{Ball, Cone, Flat};

mod cutting;

// A flat cutter, a cone or a ball; each kind is a type of its own, so that it stands behind the interface by itself too.
#[derive(Clone, Copy)]
pub enum RoundTool {
    Flat(Flat),
    Cone(Cone),
    Ball(Ball),
}
