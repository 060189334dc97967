//! The strict dialect.

// [strict]
use influxdb_line_protocol::{Dialect, parse_lines_in};
use std::alloc::Global;

/// Returns how many lines of a text cannot be read by the rules of a dialect.
pub fn faults_in(alloc: Global, dialect: Dialect, text: &str) -> usize {
    parse_lines_in(alloc, dialect, text)
        .filter(|item| item.is_err())
        .count()
}
// [end]
