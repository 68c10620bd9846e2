// What a scan of the offsets goes by.
ghost use Rattle.std.specs.Prelude.{◌≡◌};
ghost use Rattle.zmap.specs.Limits.{Height};
ghost use Rattle.zmap.specs.Maps.{On};

use crate::poses::Pose;
use zmap::{Field, Grid};

mod carving;
mod covering;
mod invading;
mod meeting;

// A cutter at a pose over a guard, and the grid of the guard's map.
#[derive(Drop)]
pub(crate) struct Scan<'a, F: Field, C> {
    pub guard: &'a F,
    pub cutter: &'a C,
    pub grid: Grid,
    pub pose: Pose,
    ghost map: { grid ≡ F.Field.extent guard.now },
    ghost over: { On grid pose.node },
    ghost high: { Height pose.tip },
}
