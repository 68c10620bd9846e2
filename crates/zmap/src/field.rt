// The interface of fields: a grid, and a height and a class at each of its samples.
ghost use Rattle.std.specs.Prelude.{◌≡◌, MatchOption};
ghost use Rattle.zmap.specs.Limits.{Height};
ghost use Rattle.zmap.specs.Maps.{On};
ghost use Rattle.zmap.specs.declared.grid.Grid.{Grid as Extent};
ghost use Rattle.zmap.specs.declared.node.Node.{Node as Place};
ghost use Rattle.zmap.specs.declared.sample.Sample.{Sample as Told};

use crate::{Grid, Node, Sample};

// A field tells its grid and its samples, and changes nothing.
pub trait Field {
    // The grid of the map.
    ghost extent: { Self → Extent };

    // The height and class at each node of the map; off the map it says nothing.
    ghost surface: { Self → Place → Told };

    // Tells the grid of the map.
    fn grid(&self) -> Grid
        ensures { result ≡ extent self.now };

    // Tells the height and class at a column and row, or nothing off the map.
    fn sample(&self, n: Node) -> Option<Sample>
        ensures { MatchOption result (On (extent self.now) n → ⊥) (λ s. On (extent self.now) n × (s ≡ surface self.now n)) };

    // On the map heights are in range: what each field has to show.
    ghost heights: { (x : Self) (n : Place) → On (extent x) n → Height (surface x n).height };
}
