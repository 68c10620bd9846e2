// A ramp out of plain numbers.
ghost use Rattle.std.specs.Prelude.{◌≡◌, true, false, IfSome, MatchOption};
ghost use Rattle.strangers.specs.Ramps.{is_ramp};

use crate::ramp::Ramp;
use zmap::Grid;
use zmap::heights::is_height;

impl Ramp {
    // Makes a ramp of such a base and step, or answers nothing where the base is no height or the step is above 1,000,000.
    pub fn new(grid: Grid, base: i32, step: u32) -> Option<Ramp>
        ensures accepts { MatchOption result (is_ramp base step ≡ false) (λ x. is_ramp base step ≡ true) }
        ensures holds { IfSome result (λ x. (x.grid ≡ grid) × (x.base ≡ base) × (x.step ≡ step)) }
    {
        if !is_height(base) || step > 1000000 {
            return None;
        }
        Some(Ramp { grid, base, step })
    }
}
