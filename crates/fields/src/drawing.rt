// Facets over a map, lent.
use facets::Facet;
use zmap::Grid;

mod checking;
pub mod sampling;

// A field over a lent slice of facets, taken as they are.
#[derive(Clone, Copy)]
pub struct Facets<'a> {
    pub grid: Grid,
    pub facets: &'a [Facet],
}
