// Clamps as they are asked for, in plain numbers.

mod checking;
mod covering;

// The columns, or the rows, from the first to the last, both included.
#[derive(Clone, Copy)]
pub struct Span {
    pub first: i32,
    pub last: i32,
}

// A clamp over the samples of its columns and rows, of such a height in µm.
#[derive(Clone, Copy)]
pub struct Clamp {
    pub columns: Span,
    pub rows: Span,
    pub height: i32,
}
