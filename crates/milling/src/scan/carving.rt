// The cut of one pose.
ghost use Rattle.std.specs.Prelude.{◌≡◌, length, slice_set};
ghost use Rattle.std.specs.Int.{int_min};
ghost use Rattle.zmap.specs.Maps.{On, place, relief, size};
ghost use Rattle.milling.specs.Cuts.{Carved, Only};
ghost use Rattle.milling.specs.Losses.{Removes, fall};

use crate::Removed;
use crate::scan::Scan;
use crate::scan::covering::Cover;
use cutters::{Cutter, offsets};
use zmap::{Field, Grid};

impl<F: Field, C: Cutter> Scan<'_, F, C> {
    // Lowers each covered sample to the underside, where it stands higher, and tells what that removed.
    pub(crate) fn carve(&self, block: &mut [i32]) -> Removed
        requires { length block.old ≡ size self.now.grid }
        ensures block { let P = C.Cutter.shape self.now.cutter.now in
            Carved self.now.grid P (Only self.now.pose) (relief self.now.grid block.old) (relief self.now.grid block.new) }
        ensures removed { let G = F.Field.surface self.now.guard.now in
            let P = C.Cutter.shape self.now.cutter.now in
            Removes self.now.grid G P (Only self.now.pose) block.old block.new result }
    {
        let mut removed = Removed {
            samples: 0,
            loss: 0,
            contact: self.contact(),
        };
        for o in offsets() {
            if let Some(cover) = self.covered(*o) {
                removed.count(lower(&self.grid, cover, block));
            }
        }
        removed
    }
}

// Lowers a covered sample, where it stands higher, and tells how far it fell.
fn lower(grid: &Grid, cover: Cover, block: &mut [i32]) -> u32
    requires on { On grid.now cover.sample }
    requires whole { length block.old ≡ size grid.now }
    ensures fell { result ≡ fall (relief grid.now block.old cover.sample) cover.underside }
    ensures block { block.new ≡ slice_set block.old (place grid.now cover.sample)
        (int_min (relief grid.now block.old cover.sample) cover.underside) }
{
    let i = grid.place_of(cover.sample).unwrap();
    let was = block[i];
    let lowered = was.min(cover.underside);
    block[i] = lowered;
    was.abs_diff(lowered)
}
