//! Reads and writes InfluxDB line protocol.
//!
//! [`parse_lines`] reads a text piece by piece and gives a line or a fault for each piece. A piece that cannot be read does not
//! change the items of the next pieces. A piece is a line of text together with the lines that it takes in: a newline inside
//! quotes, and a newline after a backslash, do not end it. In [`Dialect::NewlineDelimited`], each newline ends a piece.
//!
//! [`builder`] writes lines that read back. [`portable`] checks whether servers read a line as this library does. [`laws`] has
//! the theorems that tie reading and writing together.
//!
//! This crate hands on every name that a user needs. The code is in the crates below, a layer each.
#![tactic(auto)]

pub mod builder;
pub mod laws;
pub mod portable;

pub use builder::{
    LineProtocolBuilder, is_admitted, is_admitted_in, is_as_written, is_as_written_in,
    write_admitted_line, write_admitted_line_in, write_line,
};
pub use lp_events::{
    Event, EventSink, ParseEvents, parse_events, parse_events_in, read_events_in, read_line_events,
};
pub use lp_lines::{
    FieldSet, ParseLines, ParsedLine, Series, TagSet, hash_series, parse_lines, parse_lines_in,
    same_series,
};
pub use lp_split::{
    BoundedLineStream, Dialect, LineStream, PieceTooLong, SplitLines, split_lines, split_lines_in,
};
pub use lp_values::{
    Error, ErrorKind, EscapedStr, FieldValue, FloatText, Measurement, OutOfRange, Result, Spelled,
    SpelledFault, SpelledValue,
};
pub use lp_written::key_of_text;
