// What a field tells of a sample.
use crate::Class;

// A height in µm, and what gives it.
#[derive(Clone, Copy)]
pub struct Sample {
    pub height: i32,
    pub class: Class,
}
