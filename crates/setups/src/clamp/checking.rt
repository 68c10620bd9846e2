// Whether a clamp may stand on a map.
ghost use Rattle.std.specs.Prelude.{◌≡◌, ◌≤◌};
ghost use Rattle.zmap.specs.Faults.{FaultIs};
ghost use Rattle.setups.specs.Clamps.{is_span, clamp_fault};

use crate::{Clamp, Span};
use zmap::heights::is_height;
use zmap::{Fault, Grid};

impl Clamp {
    // Answers nothing, or the first refusal of the clamp on this grid: its extent, then its height.
    pub fn check(&self, grid: &Grid) -> Result<(), Fault>
        ensures { FaultIs result (clamp_fault grid.now.columns grid.now.rows self.now) }
    {
        if !self.columns.fits(grid.columns) || !self.rows.fits(grid.rows) {
            return Err(Fault::ClampExtent);
        }
        if !is_height(self.height) {
            return Err(Fault::ClampHeight);
        }
        Ok(())
    }
}

impl Span {
    // Tells whether the span lies on a map of so many columns, or rows, and does not run backward.
    fn fits(&self, end: usize) -> bool
        requires { end ≤ 512 }
        ensures { result ≡ is_span self.now end }
    {
        0 <= self.first && self.first <= self.last && self.last < end as i32
    }
}
