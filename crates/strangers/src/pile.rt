// The pile: a ramp under a clamp, an allowance and a clamp again, and the survey of it.
ghost use Rattle.std.specs.Prelude.{◌≡◌, IfOk};

use crate::ramp::Ramp;
use anyhow::Context;
use fields::Survey;
use setups::{Allowance, Clamp, OpenSetup, Setup, Span, Stock};
use zmap::{Class, Fault, Field, Grid, Node, Sample};

// Prints the samples of a ramp under three layers, and then those of its survey, which are the same.
pub(crate) fn print(rt: &HostRuntime) -> anyhow::Result<()> {
    let grid = Grid::new(4, 3, 100)?;
    let ramp = Ramp::new(grid, 499500, 250).context("no ramp")?;
    let pile = piled(ramp, Stock::new(60)?)?;
    show(rt, &pile)?;
    let none = Sample {
        height: 0,
        class: Class::Part,
    };
    let mut memory = [none; 12];
    Survey::take(&pile, &mut memory)?;
    let survey = Survey {
        grid,
        entries: &memory,
    };
    show(rt, &survey)
}

// Makes the field under a clamp, an allowance and another clamp, or tells the refusal of a clamp.
fn piled<F: Field + Drop>(field: F, stock: Stock) -> Result<Setup<Allowance<Setup<F>>>, Fault>
    ensures { IfOk result (λ m. (m.below.stock ≡ stock) × (m.below.below.below ≡ field)) }
{
    let low = Clamp {
        columns: Span { first: 0, last: 1 },
        rows: Span { first: 1, last: 2 },
        height: 499600,
    };
    let high = Clamp {
        columns: Span { first: 0, last: 2 },
        rows: Span { first: 0, last: 1 },
        height: 499660,
    };
    let below = clamped(field, low)?;
    clamped(Allowance { below, stock }, high)
}

// Makes the field under one clamp, locked, or tells the refusal of the clamp.
fn clamped<F: Field + Drop>(field: F, clamp: Clamp) -> Result<Setup<F>, Fault>
    ensures { IfOk result (λ m. m.below ≡ field) }
{
    let mut setup = OpenSetup::new(field);
    setup.add(clamp)?;
    Ok(setup.lock())
}

// Prints the height and the class of every sample, a row to a line.
fn show<F: Field>(rt: &HostRuntime, field: &F) -> anyhow::Result<()> {
    let grid = field.grid();
    for row in 0..grid.rows {
        for column in 0..grid.columns {
            if column > 0 {
                print!(rt; ", ")?;
            }
            let Sample { height, class } = field.sample(Node { column, row }).context("no sample")?;
            print!(rt; "{height} {class}")?;
        }
        println!(rt; "")?;
    }
    Ok(())
}
