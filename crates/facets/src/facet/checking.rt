// Whether the vertices of a facet are in range.
ghost use Rattle.std.specs.Prelude.{T};
ghost use Rattle.facets.specs.Vertices.{Sound};

use crate::Facet;
use crate::corner::placing::placed;

impl Facet {
    // Tells whether every vertex has x and y from 0 to 1,000,000 µm and a height for z.
    pub fn is_sound(&self) -> bool
        ensures yes { T result → Sound self.now }
        ensures no { Sound self.now → T result }
    {
        placed(self.a) && placed(self.b) && placed(self.c)
    }
}
