// A stock out of a plain number.
ghost use Rattle.std.specs.Prelude.{◌≡◌, pos, IfOk};
ghost use Rattle.zmap.specs.Faults.{FaultIs};
ghost use Rattle.setups.specs.Stocks.{stock_fault};

use crate::Stock;
use zmap::{Fault, within};

impl Stock {
    // Makes a stock of so many µm, or refuses where that is not 0 to 100,000.
    pub fn new(microns: i32) -> Result<Stock, Fault>
        ensures accepts { FaultIs result (stock_fault microns) }
        ensures holds { IfOk result (λ a. pos a.microns ≡ microns) }
    {
        let microns = within(0, 100000, microns).ok_or(Fault::Allowance)?;
        Ok(Stock { microns })
    }
}
