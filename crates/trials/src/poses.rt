// New blocks of right and wrong lengths, and poses at the limits of every check, each on a block of its own.
use crate::answer::{Perhaps, Taking, index, taking};
use crate::clamps::clamp;
use cutters::Flat;
use fields::Raster;
use lines::Line;
use milling::pose;
use setups::{OpenSetup, Setup};
use std::fmt;
use zmap::{Fault, Field, Grid, Spot};

// The lengths of blocks for a map of six samples.
pub(crate) const LENGTHS: [[i32; 1]; 5] = [[0], [1], [5], [6], [7]];

// A length and a place.
pub(crate) const PLACES: [[i32; 2]; 6] = [[5, 0], [5, 4], [6, 0], [6, 5], [7, 0], [7, 6]];

// The cutter's pitch, the block's length, and column, row and tip: other pitches and lengths, then nodes off the map and in its corners.
pub(crate) const FORMS: [[i32; 5]; 26] = [
    [99, 15, 2, 1, 500000],
    [101, 15, 2, 1, 500000],
    [1000, 15, 2, 1, 500000],
    [100, 0, 2, 1, 500000],
    [100, 14, 2, 1, 500000],
    [100, 15, 2, 1, 500000],
    [100, 16, 2, 1, 500000],
    [100, 15, -1, 0, 500000],
    [100, 15, 5, 0, 500000],
    [100, 15, 0, -1, 500000],
    [100, 15, 0, 3, 500000],
    [100, 15, i32::MIN, 0, 500000],
    [100, 15, i32::MAX, 0, 500000],
    [100, 15, 0, i32::MIN, 500000],
    [100, 15, 0, i32::MAX, 500000],
    [100, 15, 0, 0, 200],
    [100, 15, 4, 0, 200],
    [100, 15, 0, 2, 200],
    [100, 15, 4, 2, 200],
    [101, 14, -1, 3, 500001],
    [100, 14, -1, 3, 500001],
    [100, 15, -1, 3, 500001],
    [100, 15, 2, 1, 500001],
    [100, 15, 2, 1, -500001],
    [100, 15, 2, 1, i32::MIN],
    [100, 15, 2, 1, i32::MAX],
];

// Tips one below the guard and at it, where part and fixtures are met and the order of the offsets tells.
pub(crate) const TIPS: [[i32; 5]; 22] = [
    [100, 15, 2, 1, -500000],
    [100, 15, 2, 1, -1],
    [100, 15, 2, 1, 0],
    [100, 15, 2, 1, 49],
    [100, 15, 2, 1, 50],
    [100, 15, 3, 0, 99],
    [100, 15, 3, 0, 100],
    [100, 15, 3, 0, 101],
    [100, 15, 2, 0, 99],
    [100, 15, 2, 0, 100],
    [100, 15, 1, 1, 49],
    [100, 15, 1, 1, 50],
    [100, 15, 1, 1, 99],
    [100, 15, 1, 1, 100],
    [100, 15, 0, 1, -1],
    [100, 15, 0, 1, 49],
    [100, 15, 0, 1, 50],
    [100, 15, 0, 1, 100],
    [100, 15, 3, 1, 0],
    [100, 15, 4, 1, -1],
    [100, 15, 4, 1, 0],
    [100, 15, 4, 1, 399999],
];

// The height of one sample, and the tip over it, at the ends of the range.
pub(crate) const ENDS: [[i32; 2]; 8] = [
    [-500000, -500001],
    [-500000, -500000],
    [-500000, 500000],
    [-500000, 500001],
    [500000, -500001],
    [500000, 499999],
    [500000, 500000],
    [500000, 500001],
];

// A block with another height at each place.
const MARKED: [i32; 16] = [
    400000, 400001, 400002, 400003, 400004, 400005, 400006, 400007, 400008, 400009, 400010, 400011,
    400012, 400013, 400014, 400015,
];

// Whether a block of the length is renewed.
pub(crate) fn renewed([long]: [i32; 1]) -> Result<Taking, Fault> {
    let grid = Grid::new(3, 2, 100)?;
    let mut marked = MARKED;
    Ok(taking(milling::new(&grid, cut(&mut marked, long))))
}

// What stands at a place after a block of the length was to be renewed.
pub(crate) fn placed([long, place]: [i32; 2]) -> Result<Perhaps<i32>, Fault> {
    let grid = Grid::new(3, 2, 100)?;
    let mut marked = MARKED;
    let _ = milling::new(&grid, cut(&mut marked, long));
    Ok(Perhaps(marked.get(index(place)).copied()))
}

// The block cut to the length.
fn cut(block: &mut [i32], long: i32) -> &mut [i32] {
    let long = index(long);
    if long > block.len() {
        return block;
    }
    &mut block[0..long]
}

// The line of a pose, and that it left the block as it was.
#[derive(Clone, Copy)]
pub(crate) struct Posed {
    line: Line,
    kept: bool,
}

impl fmt::Display for Posed {
    fn fmt<W: fmt::Write>(&self, f: &mut fmt::Formatter<W>) -> fmt::Result {
        let line = self.line;
        if self.kept {
            return write!(f, "{line}, kept");
        }
        write!(f, "{line}")
    }
}

// The line of a pose over fifteen samples, with clamps above the part on two sides and one level with it.
pub(crate) fn clamped([pitch, long, column, row, tip]: [i32; 5]) -> Result<Posed, Fault> {
    let part = Raster {
        grid: Grid::new(5, 3, 100)?,
        entries: &[0, 0, 0, 100, 0, 0, 50, 0, 0, 0, 0, 0, 0, 0, -20],
    };
    let mut setup = OpenSetup::new(part);
    setup.add(clamp([0, 2, 1, 2, 100]))?;
    setup.add(clamp([1, 0, 1, 0, 100]))?;
    setup.add(clamp([4, 0, 4, 0, 0]))?;
    let at = Spot { column, row, tip };
    cut_by(&setup.lock(), Flat::new(pitch, 100)?, long, at)
}

// The line of a pose over one sample of the height.
pub(crate) fn single([height, tip]: [i32; 2]) -> Result<Posed, Fault> {
    let part = Raster {
        grid: Grid::new(1, 1, 100)?,
        entries: &[height],
    };
    let at = Spot {
        column: 0,
        row: 0,
        tip,
    };
    cut_by(&OpenSetup::new(part).lock(), Flat::new(100, 100)?, 1, at)
}

// The line of a pose of the cutter over a guard, on a marked block of the length.
fn cut_by<F: Field>(guard: &Setup<F>, cutter: Flat, long: i32, at: Spot) -> Result<Posed, Fault> {
    let mut marked = MARKED;
    let answer = pose(guard, &cutter, cut(&mut marked, long), at);
    Ok(Posed {
        line: Line::Move { number: 1, answer },
        kept: marked == MARKED,
    })
}
