// A triangle in space, in plain numbers.

mod checking;
mod covering;

// A corner of a facet: x along the columns, y along the rows and z upward, all in µm.
#[derive(Clone, Copy)]
pub struct Vertex {
    pub x: i32,
    pub y: i32,
    pub z: i32,
}

// The plane triangle between three vertices, which go round it either way.
#[derive(Clone, Copy)]
pub struct Facet {
    pub a: Vertex,
    pub b: Vertex,
    pub c: Vertex,
}
