// Facets as a field.
ghost use Rattle.std.specs.Prelude.{◌≡◌, ◌*◌, ◌<◌, IfSome, MatchOption};
ghost use Rattle.zmap.specs.Maps.{On};
ghost use Rattle.fields.specs.DrawingRange.{drawing_in_range};
ghost use Rattle.fields.specs.Drawings.{Highest, along, facets_height, facets_sample, heightened};

use crate::Facets;
use facets::Facet;
use zmap::heights::FLOOR;
use zmap::{Class, Field, Grid, Node, Pitch, Sample, greater};

impl Field for Facets<'_> {
    ghost extent = { λ x. x.grid };

    ghost surface = { λ x n. facets_sample x.grid x.facets.now n };

    ghost heights = { λ x n on. drawing_in_range x.facets.now (along x.grid n.column) (along x.grid n.row) };

    fn grid(&self) -> Grid {
        self.grid
    }

    fn sample(&self, n: Node) -> Option<Sample>
        ensures value { MatchOption result (On self.now.grid n → ⊥) (λ s. On self.now.grid n × (s ≡ facets_sample self.now.grid self.now.facets.now n)) }
        ensures highest { IfSome result (λ s. Highest self.now.facets.now (along self.now.grid n.column) (along self.now.grid n.row) s.height) }
    {
        if !self.grid.has(n) {
            return None;
        }
        let x = away(n.column, self.grid.pitch);
        let y = away(n.row, self.grid.pitch);
        Some(Sample {
            height: highest(self.facets, x, y),
            class: Class::Part,
        })
    }
}

// Tells how far so many columns or rows are from the first, in µm.
fn away(index: usize, pitch: Pitch) -> u32
    requires { index < 512 }
    ensures { result ≡ index * pitch.microns }
{
    index as u32 * pitch.microns
}

// Tells the greatest height that the facets give over a point, or the floor where they give none.
fn highest(facets: &[Facet], x: u32, y: u32) -> i32
    ensures { result ≡ facets_height facets.now x y }
{
    facets
        .iter()
        .fold(FLOOR, |height, facet| heightened(height, *facet, x, y))
}

// Answers the greater of a height and of what the facet gives over a point, where it gives one.
fn heightened(height: i32, facet: Facet, x: u32, y: u32) -> i32
    ensures { result ≡ heightened x y height facet }
{
    facet
        .height_over(x, y)
        .map_or(height, |h| greater(height, h))
}
