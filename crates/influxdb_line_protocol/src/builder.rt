//! Writes lines with a builder whose type allows only correct lines, and checks whether a text is a line as the builder writes
//! it.
//!
//! A new [`LineProtocolBuilder`] waits for a measurement. The type of the builder says what may come next: a line without a
//! field, a tag after a field and a second timestamp do not compile. [`LineProtocolBuilder::build`] can return the buffer only
//! between two lines.
//!
//! [`write_line`] writes a line that was parsed. [`write_admitted_line`] does so only if the line reads back.

mod admitted;

pub use admitted::{Unwritten, is_as_written_in, write_admitted_line, write_admitted_line_in};
pub use lp_build::builder::{
    AfterField, AfterMeasurement, AfterTag, AfterTimestamp, BeforeMeasurement, BufMut, FieldValue,
    LineProtocolBuilder, NoRoom, Refused, is_admitted, is_admitted_in, write_line,
};
pub use lp_written::is_as_written;
