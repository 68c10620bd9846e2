// Where samples stand, and how far apart.

// A sample of a map, or the node over it where a tip stands; both count from 0.
#[derive(Clone, Copy, Debug)]
pub struct Node {
    pub column: usize,
    pub row: usize,
}

// How many columns and rows a sample stands from a node.
#[derive(Clone, Copy)]
pub struct Offset {
    pub dx: i32,
    pub dy: i32,
}

// A column, a row and a height of the tip in µm, as a move asks for them, in plain numbers.
#[derive(Clone, Copy)]
pub struct Spot {
    pub column: i32,
    pub row: i32,
    pub tip: i32,
}
