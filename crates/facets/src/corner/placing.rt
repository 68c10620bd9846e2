// The corner that a vertex is.
ghost use Rattle.std.specs.Prelude.{◌≡◌};
ghost use Rattle.facets.specs.Corners.{corner_of};
ghost use Rattle.facets.specs.Vertices.{is_placed};

use crate::Vertex;
use crate::corner::Corner;
use crate::point::Point;
use zmap::heights::{FLOOR, is_height};
use zmap::within;

// The most that x and y of a vertex may be, in µm.
const FARTHEST: u32 = 1000000;

// Answers the corner of a vertex in range, or nothing.
#[tactic(auto, using(crate::proofs::Placing::corner_off))]
pub(crate) fn corner_of(v: Vertex) -> Option<Corner>
    ensures { result ≡ corner_of v }
{
    let x = within(0, FARTHEST, v.x)?;
    let y = within(0, FARTHEST, v.y)?;
    if !is_height(v.z) {
        return None;
    }
    let z = (v.z - FLOOR) as u32;
    Some(Corner {
        at: Point { x, y },
        z,
    })
}

// Tells whether a vertex is in range: whether it has a corner.
#[tactic(auto, using(crate::proofs::Placing::has_corner))]
pub(crate) fn placed(v: Vertex) -> bool
    ensures { result ≡ is_placed v }
{
    corner_of(v).is_some()
}
