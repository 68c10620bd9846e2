// What stands at one offset from the tip: the sample there, and the underside and the guard over it.
ghost use Rattle.std.specs.Prelude.{◌≡◌, ◌≤◌, T, MatchOption};
ghost use Rattle.zmap.specs.Maps.{On};
ghost use Rattle.cutters.specs.Profiles.{Near};
ghost use Rattle.milling.specs.Scans.{Bare, Stood};

use crate::scan::Scan;
use cutters::Cutter;
use zmap::{Field, Node, Offset, Sample};

// A sample of the map under the cutter, and the height of the underside over it.
#[derive(Clone, Copy)]
pub(crate) struct Cover {
    pub sample: Node,
    pub underside: i32,
}

impl<F: Field, C: Cutter> Scan<'_, F, C> {
    // Tells the sample at an offset from the tip, where the cutter covers one.
    pub(crate) fn covered(&self, o: Offset) -> Option<Cover>
        ensures { let P = C.Cutter.shape self.now.cutter.now in
            MatchOption result (Bare self.now.grid P self.now.pose.node o)
            (λ c. Stood self.now.grid P self.now.pose o c.sample c.underside) }
    {
        if !is_near(o, C::REACH) {
            return None;
        }
        let sample = self.grid.beside(self.pose.node, o)?;
        let rise = self.cutter.profile(o)?;
        Some(Cover {
            sample,
            underside: self.pose.tip + rise as i32,
        })
    }

    // Tells the height and the class of the guard at a sample of its map.
    pub(crate) fn told(&self, s: Node) -> Sample
        requires { On self.now.grid s }
        ensures { result ≡ F.Field.surface self.now.guard.now s }
    {
        self.guard.sample(s).unwrap()
    }
}

// Tells whether an offset is within the reach, on every side.
fn is_near(o: Offset, reach: u32) -> bool
    requires { reach ≤ 15 }
    ensures yes { T result → Near reach o }
    ensures no { Near reach o → T result }
{
    let reach = reach as i32;
    (-reach..=reach).contains(&o.dx) && (-reach..=reach).contains(&o.dy)
}
