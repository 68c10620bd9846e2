// The allowance as a layer over any field.
use crate::Stock;

pub mod sampling;

// A field and the stock that is left on it everywhere.
#[derive(Drop)]
pub struct Allowance<F> {
    pub below: F,
    pub stock: Stock,
}
