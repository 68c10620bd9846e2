// Rasters at the limits of their length and heights, and their samples.
use crate::answer::{Outcome, Perhaps, Taken, Told, index};
use fields::Raster;
use lines::Line;
use zmap::{Fault, Field, Grid, Node};

// The heights of rasters on three columns and two rows: one too few.
pub(crate) const SHORT: [[i32; 5]; 2] = [[0, 0, 0, 0, 0], [500001, 0, 0, 0, 0]];

// As many as there are samples, at the ends of the range and past them.
pub(crate) const WHOLE: [[i32; 6]; 12] = [
    [0, 0, 0, 0, 0, 0],
    [-500000, 500000, 0, 0, 0, 0],
    [500001, 0, 0, 0, 0, 0],
    [-500001, 0, 0, 0, 0, 0],
    [0, 0, 500001, 0, 0, 0],
    [0, 0, 0, -500001, 0, 0],
    [0, 0, 0, 0, 0, 500001],
    [0, 0, 0, 0, 0, -500001],
    [0, -500001, 0, 500001, 0, 0],
    [0, 500001, 0, -500001, 0, 0],
    [0, 0, i32::MIN, 0, 0, 0],
    [0, 0, 0, 0, i32::MAX, 0],
];

// One too many.
pub(crate) const LONG: [[i32; 7]; 2] = [[0, 0, 0, 0, 0, 0, 0], [0, 0, 0, 0, 0, 0, 500001]];

// Columns and rows on the map and off it; -1 stands for the greatest.
pub(crate) const NODES: [[i32; 2]; 12] = [
    [0, 0],
    [1, 0],
    [2, 0],
    [0, 1],
    [1, 1],
    [2, 1],
    [3, 0],
    [3, 1],
    [0, 2],
    [-1, 0],
    [0, -1],
    [-1, -1],
];

// What the check of a raster of these heights answers.
pub(crate) fn checked(entries: &[i32]) -> Result<Outcome<Taken, Line>, Fault> {
    let grid = Grid::new(3, 2, 100)?;
    let outcome = Raster { grid, entries }.check();
    Ok(Outcome(
        outcome.map(|()| Taken).map_err(|fault| Line::Move {
            number: 1,
            answer: Err(fault),
        }),
    ))
}

// The sample at a column and a row of a raster with entries out of range and the last one missing.
pub(crate) fn sampled([column, row]: [i32; 2]) -> Result<Perhaps<Told>, Fault> {
    let raster = Raster {
        grid: Grid::new(3, 2, 100)?,
        entries: &[-500000, 500001, -500001, 7, i32::MIN],
    };
    let n = Node {
        column: index(column),
        row: index(row),
    };
    Ok(Perhaps(raster.sample(n).map(Told)))
}
