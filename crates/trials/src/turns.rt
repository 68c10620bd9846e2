// Poses one after another on one block.
use crate::answer::{Perhaps, index};
use crate::clamps::clamp;
use cutters::Flat;
use fields::Raster;
use lines::Line;
use milling::pose;
use setups::OpenSetup;
use zmap::{Fault, Grid, Spot};

// How many poses there are.
pub(crate) const TURNS: [[i32; 1]; 14] = [
    [0],
    [1],
    [2],
    [3],
    [4],
    [5],
    [6],
    [7],
    [8],
    [9],
    [10],
    [11],
    [12],
    [13],
];

// How many poses there are, and a place of the block.
pub(crate) const PLACES: [[i32; 2]; 12] = [
    [0, 0],
    [1, 1],
    [2, 0],
    [2, 1],
    [2, 3],
    [2, 4],
    [13, 0],
    [13, 1],
    [13, 2],
    [13, 3],
    [13, 4],
    [13, 5],
];

// Column, row and tip, in their order.
const POSES: [[i32; 3]; 13] = [
    [2, 0, 99],
    [2, 0, 100],
    [2, 0, 100],
    [2, 0, 101],
    [0, 0, 0],
    [0, 0, -1],
    [4, 0, 100],
    [4, 0, 99],
    [1, 0, 50],
    [1, 0, 0],
    [5, 0, 0],
    [1, 0, 500001],
    [1, 0, 49],
];

// The line of the last of so many poses.
pub(crate) fn last([count]: [i32; 1]) -> Result<Perhaps<Line>, Fault> {
    let mut block = [0; 5];
    Ok(Perhaps(turns(&mut block, count)?))
}

// What stands at a place after so many poses.
pub(crate) fn placed([count, place]: [i32; 2]) -> Result<Perhaps<i32>, Fault> {
    let mut block = [0; 5];
    turns(&mut block, count)?;
    Ok(Perhaps(block.get(index(place)).copied()))
}

// Takes so many of the poses on a new block, over five samples with a clamp over the middle one, and answers the line of the last.
fn turns(block: &mut [i32], count: i32) -> Result<Option<Line>, Fault> {
    let grid = Grid::new(5, 1, 100)?;
    let part = Raster {
        grid,
        entries: &[0, 0, 0, 100, 0],
    };
    let mut setup = OpenSetup::new(part);
    setup.add(clamp([2, 0, 2, 0, 50]))?;
    let guard = setup.lock();
    let cutter = Flat::new(100, 100)?;
    milling::new(&grid, block)?;
    let mut last = None;
    for p in POSES.iter().take(index(count)) {
        let [column, row, tip] = *p;
        let answer = pose(&guard, &cutter, block, Spot { column, row, tip });
        last = Some(Line::Move { number: 1, answer });
    }
    Ok(last)
}
