// Grids at the limits of their columns, rows and pitch.
use crate::answer::{Taking, taking};
use zmap::Grid;

// Columns, rows and pitch; the last ones fail more checks than one.
pub(crate) const GRIDS: [[i32; 3]; 28] = [
    [0, 1, 10],
    [1, 1, 10],
    [512, 1, 10],
    [513, 1, 10],
    [-1, 1, 10],
    [i32::MIN, 1, 10],
    [i32::MAX, 1, 10],
    [1, 0, 10],
    [1, 512, 10],
    [1, 513, 10],
    [1, -1, 10],
    [1, i32::MIN, 10],
    [1, i32::MAX, 10],
    [1, 1, 9],
    [1, 1, 1000],
    [1, 1, 1001],
    [1, 1, 0],
    [1, 1, -10],
    [1, 1, i32::MIN],
    [1, 1, i32::MAX],
    [512, 512, 10],
    [512, 512, 1000],
    [0, 0, 0],
    [513, 513, 1001],
    [0, 1, 9],
    [1, 0, 9],
    [1, 513, 1001],
    [0, 0, 10],
];

// Whether columns, rows and pitch make a grid.
pub(crate) fn answer([columns, rows, pitch]: [i32; 3]) -> Taking {
    taking(Grid::new(columns, rows, pitch))
}
