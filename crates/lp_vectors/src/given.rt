//! The results of calls that must succeed.

use crate::fault::Fault;
use influxdb_line_protocol::{ParsedLine, parse_lines};
use std::alloc::Global;

/// Returns the value of a call that must be accepted.
pub fn accepted<T: Drop, E: Drop>(answer: Result<T, E>) -> Result<T, Fault> {
    match answer {
        Ok(value) => Ok(value),
        Err(_) => Err(Fault::Unexpected),
    }
}

/// Returns the first line of a text.
pub fn parsed<'a>(alloc: Global, text: &'a str) -> Result<ParsedLine<'a>, Fault> {
    match parse_lines(alloc, text).next() {
        Some(Ok(line)) => Ok(line),
        _ => Err(Fault::Unexpected),
    }
}
