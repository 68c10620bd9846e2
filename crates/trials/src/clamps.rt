// Clamps at the limits of the map, of their height and of their number.
use crate::answer::{Number, Outcome, Taking, index, taking};
use fields::Raster;
use setups::{Clamp, OpenSetup, Span};
use zmap::{Fault, Grid};

// On five columns and four rows, after so many others: first column, first row, last column, last row and height.
pub(crate) const CLAMPS: [[i32; 6]; 46] = [
    [0, 0, 0, 4, 3, 0],
    [0, 0, 0, 0, 0, 0],
    [0, 4, 3, 4, 3, 0],
    [0, -1, 0, 4, 3, 0],
    [0, 0, -1, 4, 3, 0],
    [0, 0, 0, 5, 3, 0],
    [0, 0, 0, 4, 4, 0],
    [0, 5, 0, 5, 0, 0],
    [0, 0, 4, 0, 4, 0],
    [0, 2, 0, 1, 0, 0],
    [0, 2, 0, 2, 0, 0],
    [0, 0, 2, 0, 1, 0],
    [0, 0, 2, 0, 2, 0],
    [0, -1, 0, -1, 0, 0],
    [0, i32::MIN, 0, i32::MAX, 0, 0],
    [0, 0, i32::MIN, 0, i32::MAX, 0],
    [0, i32::MAX, 0, i32::MIN, 0, 0],
    [0, 0, 0, 0, 0, -500001],
    [0, 0, 0, 0, 0, -500000],
    [0, 0, 0, 0, 0, 500000],
    [0, 0, 0, 0, 0, 500001],
    [0, 0, 0, 0, 0, i32::MIN],
    [0, 0, 0, 0, 0, i32::MAX],
    [0, -1, 0, 4, 3, 500001],
    [0, 0, 0, 5, 3, -500001],
    [0, 1, 0, 0, 0, i32::MAX],
    [1, 1, 1, 2, 2, 3],
    [2, 1, 1, 2, 2, 3],
    [3, 1, 1, 2, 2, 3],
    [4, 1, 1, 2, 2, 3],
    [5, 1, 1, 2, 2, 3],
    [6, 1, 1, 2, 2, 3],
    [7, 1, 1, 2, 2, 3],
    [8, 1, 1, 2, 2, 3],
    [9, 1, 1, 2, 2, 3],
    [10, 1, 1, 2, 2, 3],
    [11, 1, 1, 2, 2, 3],
    [12, 1, 1, 2, 2, 3],
    [13, 1, 1, 2, 2, 3],
    [14, 1, 1, 2, 2, 3],
    [15, 1, 1, 2, 2, 3],
    [16, 1, 1, 2, 2, 3],
    [15, 0, 0, 0, 0, 500001],
    [16, 0, 0, 5, 0, 500001],
    [16, 0, 0, 0, 0, 500001],
    [16, 0, 0, 0, 0, 500000],
];

// How many clamps there are, which number is raised, and to which height; -1 stands for the greatest number.
pub(crate) const RAISES: [[i32; 3]; 19] = [
    [0, 0, 0],
    [0, 0, 500001],
    [1, 0, 0],
    [1, 1, 0],
    [3, 0, 0],
    [3, 2, 0],
    [3, 3, 0],
    [3, -1, 0],
    [16, 15, 0],
    [16, 16, 0],
    [3, 2, -500001],
    [3, 2, -500000],
    [3, 2, 500000],
    [3, 2, 500001],
    [3, 2, i32::MIN],
    [3, 2, i32::MAX],
    [3, 3, -500001],
    [3, 3, 500001],
    [3, -1, i32::MAX],
];

// The number of one more clamp after so many others, or its refusal.
pub(crate) fn added([count, west, north, east, south, height]: [i32; 6]) -> Outcome<usize, Number> {
    Outcome(
        opened(count)
            .and_then(|mut setup| setup.add(clamp([west, north, east, south, height])))
            .map_err(Number),
    )
}

// Whether a clamp of so many is raised.
pub(crate) fn raised([count, number, height]: [i32; 3]) -> Taking {
    taking(opened(count).and_then(|mut setup| setup.raise(index(number), height)))
}

// A set-up with so many clamps, all alike.
fn opened(count: i32) -> Result<OpenSetup<Raster<'static>>, Fault> {
    let part = Raster {
        grid: Grid::new(5, 4, 100)?,
        entries: &[],
    };
    let mut setup = OpenSetup::new(part);
    for _ in 0..count {
        setup.add(clamp([1, 1, 2, 2, 3]))?;
    }
    Ok(setup)
}

// Makes the clamp of first column, first row, last column, last row and height; the job reader's own way of that is what other trials are about.
pub(crate) fn clamp(words: [i32; 5]) -> Clamp {
    let [west, north, east, south, height] = words;
    Clamp {
        columns: Span {
            first: west,
            last: east,
        },
        rows: Span {
            first: north,
            last: south,
        },
        height,
    }
}
