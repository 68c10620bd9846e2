// The place of an entry, found by its offset.
ghost use Rattle.std.specs.Prelude.{◌≡◌, ◌<◌, true, false, MatchOption};
ghost use Rattle.cutters.specs.Entries.{has_entry, index, is_close};

use crate::place::Place;
use zmap::Offset;

impl Place {
    // Finds the place of the entry at the offset, or nothing past seven columns and rows.
    pub(crate) fn of(o: Offset) -> Option<Place>
        ensures { MatchOption result (has_entry o ≡ false) (λ p. (has_entry o ≡ true) × (p.row ≡ index o.dy) × (p.column ≡ index o.dx)) }
    {
        let column = index_of(o.dx)?;
        let row = index_of(o.dy)?;
        Some(Place { row, column })
    }
}

// Counts a row or a column from seven before the tip on, or answers nothing past seven.
fn index_of(away: i32) -> Option<usize>
    ensures { MatchOption result (is_close away ≡ false) (λ i. (is_close away ≡ true) × (i ≡ index away) × (i < 15)) }
{
    (-7..=7).contains(&away).then(|| (away + 7) as usize)
}
