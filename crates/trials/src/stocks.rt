// Allowances at the limits of their thickness, and their samples over a part and under a clamp.
use crate::answer::{Perhaps, Taking, Told, index, taking};
use crate::clamps::clamp;
use fields::Raster;
use setups::{Allowance, OpenSetup, Stock};
use zmap::{Fault, Field, Grid, Node};

// The thickness in µm.
pub(crate) const STOCKS: [[i32; 1]; 7] = [
    [-1],
    [0],
    [1],
    [100000],
    [100001],
    [i32::MIN],
    [i32::MAX],
];

// The thickness, the height of a clamp over columns 1 to 4, and column and row.
pub(crate) const LAYERS: [[i32; 4]; 38] = [
    [0, -500000, 0, 0],
    [0, -500000, 1, 0],
    [0, -500000, 2, 0],
    [0, -500000, 3, 0],
    [0, -500000, 4, 0],
    [1, -500000, 0, 0],
    [1, -500000, 1, 0],
    [1, -500000, 2, 0],
    [1, -500000, 3, 0],
    [1, -500000, 4, 0],
    [50, -500000, 0, 0],
    [50, -500000, 1, 0],
    [50, -500000, 2, 0],
    [50, -500000, 3, 0],
    [50, -500000, 4, 0],
    [99999, -500000, 0, 0],
    [99999, -500000, 1, 0],
    [99999, -500000, 2, 0],
    [99999, -500000, 3, 0],
    [99999, -500000, 4, 0],
    [100000, -500000, 0, 0],
    [100000, -500000, 1, 0],
    [100000, -500000, 2, 0],
    [100000, -500000, 3, 0],
    [100000, -500000, 4, 0],
    [50, 49, 1, 0],
    [50, 50, 1, 0],
    [50, 51, 1, 0],
    [0, -1, 1, 0],
    [0, 0, 1, 0],
    [0, 1, 1, 0],
    [100000, 499999, 2, 0],
    [100000, 500000, 2, 0],
    [1, 500000, 3, 0],
    [100000, 500000, 4, 0],
    [50, 0, 5, 0],
    [50, 0, 0, 1],
    [50, 0, -1, 0],
];

// Tells whether a thickness makes a stock.
pub(crate) fn made([microns]: [i32; 1]) -> Taking {
    taking(Stock::new(microns))
}

// Tells the sample of a part from the floor to the ceiling, with an allowance over it and a clamp over that.
pub(crate) fn layered([microns, height, column, row]: [i32; 4]) -> Result<Perhaps<Told>, Fault> {
    let below = Raster {
        grid: Grid::new(5, 1, 100)?,
        entries: &[-500000, 0, 400000, 499999, 500000],
    };
    let stock = Stock::new(microns)?;
    let mut setup = OpenSetup::new(Allowance { below, stock });
    setup.add(clamp([1, 0, 4, 0, height]))?;
    let n = Node {
        column: index(column),
        row: index(row),
    };
    Ok(Perhaps(setup.lock().sample(n).map(Told)))
}
