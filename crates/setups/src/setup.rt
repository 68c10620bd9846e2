// The set-up as two types: open while it takes clamps, then locked, which alone is a field.
use crate::Clamps;

mod opening;
pub mod sampling;

// A field and the clamps over it, which may still change.
#[derive(Drop)]
pub struct OpenSetup<F> {
    below: F,
    clamps: Clamps,
}

// A field and the clamps over it, for good; a type of its own, so that an open set-up is no field and a locked one takes no clamp.
#[derive(Drop)]
pub struct Setup<F> {
    below: F,
    clamps: Clamps,
}
