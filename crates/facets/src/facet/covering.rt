// What a facet gives over a point.
ghost use Rattle.std.specs.Prelude.{◌≡◌};
ghost use Rattle.facets.specs.Drawn.{facet_at};
ghost use Rattle.facets.specs.Geometry.{Sole};

use crate::Facet;
use crate::corner::placing::corner_of;
use crate::point::Point;
use crate::shoelace::height;
use zmap::heights::{CEILING, FLOOR};

impl Facet {
    // Tells the height over the point (x, y) of the plan, in µm; nothing where the facet does not cover it or stands upright, and the ceiling where a vertex is out of range.
    #[tactic(auto, unfolding(crate::specs::Drawn::facet_at))]
    pub fn height_over(&self, x: u32, y: u32) -> Option<i32>
        ensures value { result ≡ facet_at self.now x y }
        ensures sole { Sole self.now x y result }
    {
        // one after another: a vertex out of range ends it
        let Some(a) = corner_of(self.a) else {
            return Some(CEILING);
        };
        let Some(b) = corner_of(self.b) else {
            return Some(CEILING);
        };
        let Some(c) = corner_of(self.c) else {
            return Some(CEILING);
        };
        height(Point { x, y }, a, b, c).map(|h| h as i32 + FLOOR)
    }
}
