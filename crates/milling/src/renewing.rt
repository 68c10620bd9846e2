// New blocks.
ghost use Rattle.std.specs.Prelude.{◌≡◌, ℕ, ◌<◌, [], ◌∷◌, length, pos, MatchResult, slice_index_or};
ghost use Rattle.zmap.specs.Limits.{ceiling};
ghost use Rattle.milling.specs.Checks.{Passed, Refused, whole_block};

use zmap::heights::CEILING;
use zmap::{Fault, Grid};

// Fills the block with the ceiling, or refuses one whose length is wrong and leaves it.
pub fn new(grid: &Grid, block: &mut [i32]) -> Result<(), Fault>
    ensures accepts { MatchResult result (λ _. Passed (whole_block grid.now (length block.old) ∷ []))
        (λ e. Refused (whole_block grid.now (length block.old) ∷ []) e) }
    ensures block { MatchResult result (λ _. (i : ℕ) → i < length block.new → slice_index_or block.new i (pos 0) ≡ ceiling)
        (λ e. block.new ≡ block.old) }
{
    if block.len() != grid.samples() {
        return Err(Fault::BlockLength);
    }
    block.fill(CEILING);
    Ok(())
}
