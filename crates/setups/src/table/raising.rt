// Clamps raised or lowered.
ghost use Rattle.std.specs.Prelude.{◌≡◌, MatchResult};
ghost use Rattle.zmap.specs.Faults.{FaultIs};
ghost use Rattle.setups.specs.Clamps.{raising_fault};
ghost use Rattle.setups.specs.Tables.{clamps_of, Raised};

use crate::Clamps;
use zmap::Fault;
use zmap::heights::is_height;

impl Clamps {
    // Brings the clamp of that number to that height; or answers the first refusal, and leaves the table as it was.
    pub(crate) fn raise(&mut self, number: usize, height: i32) -> Result<(), Fault>
        ensures accepts { FaultIs result (raising_fault (clamps_of self.old) number height) }
        ensures table { MatchResult result (λ _. Raised (clamps_of self.old) number height (clamps_of self.new)) (λ e. self.new ≡ self.old) }
    {
        if !is_height(height) {
            return Err(Fault::ClampHeight);
        }
        if number >= self.count {
            return Err(Fault::NoClamp);
        }
        self.entries[number].height = height;
        Ok(())
    }
}
