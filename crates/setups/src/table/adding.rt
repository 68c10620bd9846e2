// New clamps.
ghost use Rattle.std.specs.Prelude.{◌≡◌, ◌<◌, [], ◌∷◌, ◌++◌, length, IfOk, MatchResult};
ghost use Rattle.zmap.specs.Faults.{FaultIs};
ghost use Rattle.setups.specs.Clamps.{adding_fault};
ghost use Rattle.setups.specs.Tables.{clamps_of};

use crate::{Clamp, Clamps, Span};
use zmap::heights::FLOOR;
use zmap::{Fault, Grid};

impl Clamps {
    // Makes a table with no clamp.
    pub(crate) fn new() -> Clamps
        ensures { clamps_of result ≡ [] }
    {
        let spare = Clamp {
            columns: Span { first: 0, last: 0 },
            rows: Span { first: 0, last: 0 },
            height: FLOOR,
        };
        Clamps {
            entries: [spare; 16],
            count: 0,
        }
    }

    // Adds the clamp under the next number and answers that; or answers the first refusal, and leaves the table as it was.
    pub(crate) fn add(&mut self, grid: &Grid, clamp: Clamp) -> Result<usize, Fault>
        ensures accepts { FaultIs result (adding_fault grid.now (clamps_of self.old) clamp) }
        ensures number { IfOk result (λ i. i ≡ length (clamps_of self.old)) }
        ensures table { MatchResult result (λ i. clamps_of self.new ≡ clamps_of self.old ++ clamp ∷ []) (λ e. self.new ≡ self.old) }
    {
        clamp.check(grid)?;
        let number = self.count;
        if number >= 16 {
            return Err(Fault::ClampsFull);
        }
        self.entries[number] = clamp;
        self.count = number + 1;
        Ok(number)
    }
}
