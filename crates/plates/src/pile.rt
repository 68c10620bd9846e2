// The worked pile: a part under an allowance and a clamp of the same height.
ghost use Rattle.std.specs.Prelude.{◌≡◌, Some};
ghost use Rattle.plates.specs.Plates.{Plates, piled};

use fields::Raster;
use setups::{Allowance, Clamp, OpenSetup, Span, Stock};
use zmap::{Field, Grid, Node, Sample};

// Tells what a part of one sample at 0 µm is under an allowance of 50 µm and a clamp at 50 µm.
pub fn worked_pile() -> Option<Sample>
    ensures value { result ≡ Some piled }
    ensures plates { Plates }
{
    let grid = Grid::new(1, 1, 100).unwrap();
    let stock = Stock::new(50).unwrap();
    let below = Raster {
        grid,
        entries: &[0],
    };
    let mut setup = OpenSetup::new(Allowance { below, stock });
    let clamp = Clamp {
        columns: Span { first: 0, last: 0 },
        rows: Span { first: 0, last: 0 },
        height: 50,
    };
    setup.add(clamp).unwrap();
    setup.lock().sample(Node { column: 0, row: 0 })
}
