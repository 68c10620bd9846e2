// A ramp: heights that are computed, column by column.
ghost use Rattle.std.specs.Prelude.{◌≤◌};
ghost use Rattle.zmap.specs.Limits.{Height};

use zmap::Grid;

mod making;
pub mod sampling;

// A field that stands at the base over column 0 and rises by the step with each column, up to the ceiling; both in µm.
#[derive(Clone, Copy)]
pub struct Ramp {
    pub grid: Grid,
    pub base: i32,
    pub step: u32,
    ghost low: { Height base },
    ghost gentle: { step ≤ 1000000 },
}
