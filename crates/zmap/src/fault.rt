// The refusals: one case for each, with what that case names.
use crate::{Class, Contact, Node};

mod telling;
mod wording;

// Which end of a move a fault is about.
#[derive(Clone, Copy, Debug)]
pub enum End {
    Start,
    Finish,
}

// Why a call was refused; the comments give the numbers.
#[derive(Clone, Copy, Debug)]
pub enum Fault {
    // 1: columns of a grid not 1 to 512
    Columns,
    // 2: rows of a grid not 1 to 512
    Rows,
    // 3: a pitch not 10 to 1,000
    Pitch,
    // 4: a radius not 0 to 15,999, or not below 16 pitches
    Radius,
    // 5: a tip radius not 0 to the radius
    TipRadius,
    // 6: a rise not 0 to 10,000
    Rise,
    // 7: the offset of a measured entry not -7 to 7
    EntryOffset,
    // 8: the height of a measured entry not -1 to 200,000, or not 0 at the centre
    EntryHeight,
    // 9: a raster whose length is not columns times rows
    RasterLength,
    // 10: a raster's entry that is no height, at this place first
    RasterHeight(usize),
    // 11: a facet with a vertex out of range, this one first
    FacetVertex(usize),
    // 12: a clamp off the map, or whose first column or row is after its last
    ClampExtent,
    // 13: a clamp's height out of range
    ClampHeight,
    // 14: a clamp more than sixteen
    ClampsFull,
    // 15: no clamp of that number
    NoClamp,
    // 16: an allowance not 0 to 100,000
    Allowance,
    // 17: a cutter whose pitch is not the guard's
    CutterPitch,
    // 18: a block whose length is not columns times rows
    BlockLength,
    // 19: a node off the map
    NodeOff(End),
    // 20: a tip or level that is no height
    TipRange(End),
    // 21: no sample covered
    Uncovered,
    // 22: at this step first, the guard invaded at this sample first, which has this class
    Invaded(usize, Node, Class),
    // 23: at this step first, the block met at this sample first
    BlockMet(usize, Node),
    // 24: a map whose length is not columns times rows
    MapLength,
    // 25: a band of rows that is empty, runs backward or passes the last row
    Band,
    // 26: a map's entry that is no height, at this place first
    MapHeight(usize),
    // 27: a job whose bytes end early
    Short,
    // 28: a count that is not allowed
    Count,
    // 29: an unknown kind
    Kind,
    // 30: bytes over
    Over,
}

// What a fault says as five values; what its case does not name is 0, or clear. The numbers are those that are printed.
#[derive(Clone, Copy)]
pub struct Parts {
    pub number: u32,
    pub step: usize,
    pub column: usize,
    pub row: usize,
    pub class: Contact,
}
