// The fields at the bottom of a pile: charts of heights or of samples, and facets.
#![tactic(auto)]

mod chart;
mod drawing;
mod entry;

pub use chart::{Chart, Raster, Survey};
pub use drawing::Facets;
pub use entry::Entry;
