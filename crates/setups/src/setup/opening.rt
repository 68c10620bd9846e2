// The open set-up: clamps are added, raised and lowered, until it is locked.
ghost use Rattle.std.specs.Prelude.{◌≡◌, [], ◌∷◌, ◌++◌, length, IfOk, MatchResult};
ghost use Rattle.zmap.specs.Faults.{FaultIs};
ghost use Rattle.setups.specs.Clamps.{adding_fault, raising_fault};
ghost use Rattle.setups.specs.Tables.{clamps_of, Raised};

use crate::{Clamp, Clamps, OpenSetup, Setup};
use zmap::{Fault, Field};

impl<F: Field> OpenSetup<F> {
    // Makes a set-up over the field, with no clamp yet.
    pub fn new(below: F) -> OpenSetup<F>
        ensures { (result.below ≡ below) × (clamps_of result.clamps ≡ []) }
    {
        OpenSetup {
            below,
            clamps: Clamps::new(),
        }
    }

    // Adds the clamp under the next number and answers that; or answers the first refusal, and leaves the set-up as it was.
    pub fn add(&mut self, clamp: Clamp) -> Result<usize, Fault>
        ensures accepts { FaultIs result (adding_fault (F.Field.extent self.old.below) (clamps_of self.old.clamps) clamp) }
        ensures number { IfOk result (λ i. i ≡ length (clamps_of self.old.clamps)) }
        ensures table { MatchResult result (λ i. clamps_of self.new.clamps ≡ clamps_of self.old.clamps ++ clamp ∷ []) (λ e. self.new.clamps ≡ self.old.clamps) }
        ensures rest { self.new.below ≡ self.old.below }
    {
        self.clamps.add(&self.below.grid(), clamp)
    }

    // Brings the clamp of that number to that height; or answers the first refusal, and leaves the set-up as it was.
    pub fn raise(&mut self, number: usize, height: i32) -> Result<(), Fault>
        ensures accepts { FaultIs result (raising_fault (clamps_of self.old.clamps) number height) }
        ensures table { MatchResult result (λ _. Raised (clamps_of self.old.clamps) number height (clamps_of self.new.clamps)) (λ e. self.new.clamps ≡ self.old.clamps) }
        ensures rest { self.new.below ≡ self.old.below }
    {
        self.clamps.raise(number, height)
    }

    // Locks the set-up, with the same field and clamps.
    pub fn lock(self) -> Setup<F>
        ensures { (result.below ≡ self.below) × (result.clamps ≡ self.clamps) }
    {
        let OpenSetup { below, clamps } = self;
        Setup { below, clamps }
    }
}
