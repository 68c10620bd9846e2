// Whether a raster is whole and its entries are heights.
ghost use Rattle.std.specs.Prelude.{MatchOption, MatchResult};
ghost use Rattle.fields.specs.Rasters.{Whole, Flawed, AllHeights, FirstBad};

use crate::Raster;
use zmap::Fault;
use zmap::heights::is_height;

impl Raster<'_> {
    // Answers nothing, or what is wrong first: the length, then the first entry that is no height.
    pub fn check(&self) -> Result<(), Fault>
        ensures { MatchResult result (λ _. Whole self.now.grid self.now.entries.now) (λ e. Flawed self.now.grid self.now.entries.now e) }
    {
        if self.entries.len() != self.grid.samples() {
            return Err(Fault::RasterLength);
        }
        // The refusal stands in plain sight, which it would not in a `map_or`.
        match first_bad(self.entries) {
            Some(i) => Err(Fault::RasterHeight(i)),
            None => Ok(()),
        }
    }
}

// Finds the place of the first entry that is no height.
fn first_bad(heights: &[i32]) -> Option<usize>
    ensures { MatchOption result (AllHeights heights.now) (λ i. FirstBad heights.now i) }
{
    heights.iter().position(|z| !is_height(*z))
}
