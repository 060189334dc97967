//! Counts what a text has by its series: how many lines each series has, the measurements with the kinds of their fields' values, and
//! the values of each tag.
#![tactic(auto)]

mod counter;
mod counts;
mod kinds;
mod lines;
mod measurements;
mod sums;
mod tables;
mod texts;
mod times;

pub use counter::SeriesCounter;
pub use counts::SeriesCounts;
pub use kinds::FieldKinds;
pub use measurements::MeasurementCounts;
