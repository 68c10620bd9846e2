// The kind of the grids.
ghost use Rattle.std.specs.Prelude.{◌≡◌, Ok, Err, MatchResult};
ghost use Rattle.jobs.specs.Items.{Extent, extent, extent_of};

use crate::kind::Kind;
use crate::reader::Reader;
use zmap::{Fault, Grid};

// The kind of the grids of at most 4,096 samples: three words each.
#[derive(Clone, Copy)]
pub(crate) struct Grids;

impl Kind for Grids {
    type Item = Grid;

    ghost Told = { Extent };

    ghost told = { extent };

    ghost width = { 3 };

    ghost item = { λ _. extent_of };

    fn read(&self, input: &mut Reader<'_>) -> Result<Grid, Fault> {
        let words = input.words()?;
        to_grid(words)
    }
}

// Takes the words columns, rows and pitch as a grid; no TryFrom, since only a job has at most 4,096 samples.
fn to_grid(words: [i32; 3]) -> Result<Grid, Fault>
    ensures { MatchResult result (λ g. extent_of words ≡ Ok (extent g)) (λ e. extent_of words ≡ Err e) }
{
    let [columns, rows, pitch] = words;
    let grid = Grid::new(columns, rows, pitch)?;
    if grid.samples() > 4096 {
        return Err(Fault::Count);
    }
    Ok(grid)
}
