// Points of the plan.

// A point of the plan, in µm from the first sample.
#[derive(Clone, Copy)]
pub(crate) struct Point {
    pub x: u32,
    pub y: u32,
}
