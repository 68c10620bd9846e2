// A grid out of plain numbers.
ghost use Rattle.std.specs.Prelude.{◌≡◌, pos, IfOk};
ghost use Rattle.zmap.specs.Faults.{FaultIs, grid_fault};

use crate::{Fault, Grid, Pitch, within};

impl Grid {
    // Makes a grid of so many columns and rows and such a pitch, or answers the first refusal of the three.
    pub fn new(columns: i32, rows: i32, pitch: i32) -> Result<Grid, Fault>
        ensures accepts { FaultIs result (grid_fault columns rows pitch) }
        ensures holds { IfOk result (λ g. (pos g.columns ≡ columns) × (pos g.rows ≡ rows) × (pos g.pitch.microns ≡ pitch)) }
    {
        let columns = within(1, 512, columns).ok_or(Fault::Columns)? as usize;
        let rows = within(1, 512, rows).ok_or(Fault::Rows)? as usize;
        let pitch = Pitch::new(pitch)?;
        Ok(Grid {
            columns,
            rows,
            pitch,
        })
    }
}
