// The worked facets, by the facets themselves.
ghost use Rattle.std.specs.Prelude.{◌≡◌};
ghost use Rattle.plates.specs.Plates.{Plates, slope, sloped};

use facets::{Facet, Vertex};

// Tells what the facet that rises and the one that falls by 100 µm give over the sample (0, 1) at a pitch of 100 µm.
pub fn worked_facets() -> [Option<i32>; 2]
    ensures values { result ≡ sloped }
    ensures plates { Plates }
{
    let up = slope(100).height_over(0, 100);
    let down = slope(-100).height_over(0, 100);
    [up, down]
}

// Makes the facet between (0, 0, 0), (300, 0, 0) and (0, 300, z).
fn slope(z: i32) -> Facet
    ensures { result ≡ slope z }
{
    Facet {
        a: Vertex { x: 0, y: 0, z: 0 },
        b: Vertex { x: 300, y: 0, z: 0 },
        c: Vertex { x: 0, y: 300, z },
    }
}
