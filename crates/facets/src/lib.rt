// Facets: triangles in space, and the height of one over a point.
#![tactic(auto)]

mod corner;
mod facet;
mod point;
mod shoelace;

pub use facet::{Facet, Vertex};
