//! Reads one line as InfluxDB 1.x does, as its parser was measured, and proves that it reads portable lines as the strict reader
//! does.
#![tactic(auto)]

mod fields;
pub mod laws;
mod lines;
mod names;
mod numbers;
mod read;
mod values;

pub use lines::{InfluxField, InfluxLine, InfluxTag, InfluxValue, influx_line};
