// The trial: a ramp under two clamps, cut by a hook, with a line for each pose and one for each row of the block.
ghost use Rattle.std.specs.Prelude.{◌≡◌, [], ◌∷◌, IfOk};
ghost use Rattle.zmap.specs.Faults.{FaultIs};
ghost use Rattle.setups.specs.Tables.{clamps_of, Raised};
ghost use Rattle.strangers.specs.Trials.{clamped_fault};

use crate::hook::Hook;
use crate::ramp::Ramp;
use anyhow::Context;
use cutters::Cutter;
use lines::Line;
use milling::pose;
use setups::{Clamp, OpenSetup, Setup, Span};
use zmap::{Fault, Field, Grid, Spot};

// The poses of the trial in their order: a column, a row and a tip in µm. Each is a tuple, which takes a line where a `Spot` takes five.
const POSES: [(i32, i32, i32); 12] = [
    // the far end of the hook, two columns east and one row north, stands below the second clamp
    (0, 1, 499400),
    // at that clamp: a fixture is met
    (0, 1, 499430),
    // at the ramp under the tip, an allowance, and at the part east of it
    (1, 1, 499650),
    // the far end hangs outside, and nothing is met
    (0, 0, 499500),
    // at the second clamp again, from the west
    (1, 0, 499700),
    // half of the hook hangs outside
    (2, 2, 499900),
    // in the corner only the tip is over the map, at the ceiling, where the ramp ends
    (3, 0, 500000),
    (3, 0, 499999),
    // at the first clamp as it was raised, and below it
    (0, 2, 499700),
    (1, 2, 499680),
    // off the map, and above the ceiling
    (4, 0, 500000),
    (3, 2, 500001),
];

// Makes the ramp, its set-up, a new block and the hook, and prints what came of the poses.
pub(crate) fn print(rt: &HostRuntime) -> anyhow::Result<()> {
    let grid = Grid::new(4, 3, 100)?;
    let ramp = Ramp::new(grid, 499400, 250).context("no ramp")?;
    let low = Clamp {
        columns: Span { first: 0, last: 1 },
        rows: Span { first: 2, last: 2 },
        height: 499500,
    };
    let high = Clamp {
        columns: Span { first: 2, last: 2 },
        rows: Span { first: 0, last: 0 },
        height: 499950,
    };
    let guard = clamped(ramp, low, high, 499700)?;
    let mut block = [0; 12];
    milling::new(&grid, &mut block)?;
    let hook = Hook { pitch: grid.pitch };
    cut_all(rt, &guard, &hook, &mut block)?;
    for row in block.chunks(4) {
        show_row(rt, row)?;
    }
    Ok(())
}

// Locks the field under two clamps, of which the first is raised before; or answers the first refusal.
fn clamped<F: Field + Drop>(
    field: F,
    first: Clamp,
    second: Clamp,
    height: i32,
) -> Result<Setup<F>, Fault>
    ensures accepts { FaultIs result (clamped_fault (F.Field.extent field) first second height) }
    ensures holds { IfOk result (λ m. (m.below ≡ field) × Raised (first ∷ second ∷ []) 0 height (clamps_of m.clamps)) }
{
    let mut setup = OpenSetup::new(field);
    let number = setup.add(first)?;
    setup.add(second)?;
    setup.raise(number, height)?;
    Ok(setup.lock())
}

// Makes the poses one after the other, and prints the line of each; what carries out a job takes its moves, and these are none of a job.
fn cut_all<F: Field, C: Cutter>(
    rt: &HostRuntime,
    guard: &Setup<F>,
    cutter: &C,
    block: &mut [i32],
) -> anyhow::Result<()> {
    for (i, &(column, row, tip)) in POSES.iter().enumerate() {
        let line = Line::Move {
            number: i + 1,
            answer: pose(guard, cutter, block, Spot { column, row, tip }),
        };
        println!(rt; "{line}")?;
    }
    Ok(())
}

// Prints the heights of a row, with a space between.
fn show_row(rt: &HostRuntime, row: &[i32]) -> anyhow::Result<()> {
    for (i, z) in row.iter().enumerate() {
        if i > 0 {
            print!(rt; " ")?;
        }
        print!(rt; "{z}")?;
    }
    println!(rt; "")?;
    Ok(())
}
