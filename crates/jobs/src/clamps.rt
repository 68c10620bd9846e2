// The kind of the clamps.
ghost use Rattle.std.specs.Prelude.{◌≡◌};
ghost use Rattle.setups.specs.declared.clamp.Clamp.{Clamp as Held};
ghost use Rattle.jobs.specs.Items.{clamp_of};

use crate::kind::Kind;
use crate::reader::Reader;
use setups::{Clamp, Span};
use zmap::{Fault, Grid};

// The kind of the clamps on a grid: five words each.
#[derive(Clone, Copy)]
pub(crate) struct Clamps {
    pub grid: Grid,
}

impl Kind for Clamps {
    type Item = Clamp;

    ghost Told = { Held };

    ghost told = { λ k. k };

    ghost width = { 5 };

    ghost item = { λ k. clamp_of k.grid.columns k.grid.rows };

    fn read(&self, input: &mut Reader<'_>) -> Result<Clamp, Fault> {
        let words = input.words()?;
        to_clamp(words, &self.grid)
    }
}

// Takes the words first column, first row, last column, last row and height as a clamp on the grid; no TryFrom, since it needs the grid.
fn to_clamp(words: [i32; 5], grid: &Grid) -> Result<Clamp, Fault>
    ensures { result ≡ clamp_of grid.now.columns grid.now.rows words }
{
    let [west, north, east, south, height] = words;
    let clamp = Clamp {
        columns: Span {
            first: west,
            last: east,
        },
        rows: Span {
            first: north,
            last: south,
        },
        height,
    };
    clamp.check(grid)?;
    Ok(clamp)
}
