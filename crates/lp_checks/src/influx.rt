//! What InfluxDB 1.x reads of a line, as text that can be read in one way only.
//!
//! It is a row of parts: a letter, a number and a colon, and, if the part is a text, as many bytes. The letters are `m` for the measurement,
//! and `t` and `v` for the key and the value of a tag. Those of a field are `k` for its key, and `i`, `u`, `f`, `s` and `b` for its value,
//! where 1 is true. The time has `a`.

use crate::report::Report;
use lp_influx::{InfluxLine, InfluxValue};
use std::fmt::Write;

/// A line.
pub fn render_influx(report: &mut Report<'_>, line: &InfluxLine) {
    report.push_sized("m", &line.measurement);
    for tag in &line.tags {
        report.push_sized("t", &tag.key);
        report.push_sized("v", &tag.value);
    }
    for field in &line.fields {
        report.push_sized("k", &field.key);
        match &field.value {
            InfluxValue::Integer(number) => {
                let _ = write!(report, "i{number}:");
            }
            InfluxValue::Unsigned(number) => {
                let _ = write!(report, "u{number}:");
            }
            InfluxValue::Float(literal) => report.push_sized("f", literal),
            InfluxValue::String(text) => report.push_sized("s", text),
            InfluxValue::Boolean(true) => report.push(b"b1:"),
            InfluxValue::Boolean(false) => report.push(b"b0:"),
        }
    }
    if let Some(time) = line.timestamp {
        let _ = write!(report, "a{time}:");
    }
}
