// What a job holds.
use cutters::RoundTool;
use setups::Clamp;
use zmap::{Grid, Spot};

// A move as it is asked for, in plain numbers.
#[derive(Clone, Copy)]
pub enum Move {
    // a pose with the tip over this column and row, at this height in µm
    Pose(Spot),
}

// A grid, a cutter of its pitch, a height for each sample in row order, and the clamps and moves in the order of the bytes.
#[derive(Drop)]
pub struct Job {
    pub grid: Grid,
    pub cutter: RoundTool,
    pub heights: Vec<i32>,
    pub clamps: Vec<Clamp>,
    pub moves: Vec<Move>,
}
