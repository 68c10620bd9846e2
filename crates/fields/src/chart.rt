// Charts: what stands at each sample of a map, in row order, lent.
use zmap::{Grid, Sample};

mod checking;
pub mod sampling;
mod taking;

// A field over a lent slice of entries in row order, taken as they are; where one is missing or tells no height, the ceiling, class part.
#[derive(Clone, Copy)]
pub struct Chart<'a, T> {
    pub grid: Grid,
    pub entries: &'a [T],
}

// A chart of heights, each of class part.
pub type Raster<'a> = Chart<'a, i32>;

// A chart of samples, such as `Survey::take` writes.
pub type Survey<'a> = Chart<'a, Sample>;
