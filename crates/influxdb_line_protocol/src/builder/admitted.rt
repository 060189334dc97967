//! Lines that are written only if they read back.

ghost use Rattle.std.specs.Prelude.{◌≡◌, ◌↔◌, true, false, IfSome};
ghost use Rattle.lp_format.specs.format.{Crate, IsAsWrittenIn, IsValue, fits_i64, logical_value};
ghost use Rattle.lp_format.specs.laws.Laws.{IsAdmittedIn};
ghost use Rattle.lp_split.specs.code.{rules_of};
ghost use Rattle.lp_values.specs.code.ReadValues.{value_of};
ghost use Rattle.lp_lines.specs.code.Parsed.{parsed_point};
ghost use Rattle.lp_build.specs.code.Built.{buffer_of};
ghost use Rattle.influxdb_line_protocol.specs.code.WritingAdmitted.{AreValues, IsNotAdmitted, WritesAdmitted};
ghost use Rattle.influxdb_line_protocol.specs.laws.AdmittedLines.{AddsPointOrNothing};

use lp_build::builder::{
    BeforeMeasurement, BufMut, LineProtocolBuilder, Refused, is_admitted_in, write_line,
};
use lp_lines::ParsedLine;
use lp_scan::newlines::newlines_in;
use lp_split::Dialect;
use lp_values::{EscapedStr, FieldValue};
use lp_written::is_as_written;

/// The error of a call that wrote no line. It holds the builder as the builder was before the call.
#[derive(Drop)]
pub enum Unwritten<B: BufMut> {
    /// The line is not admitted in the dialect, or has no field.
    NotAdmitted(LineProtocolBuilder<B, BeforeMeasurement>),
    /// The buffer has no room for the line, or no `usize` can hold the length of the line.
    Refused(Refused<B, BeforeMeasurement>),
}

// A number is in the range of its type, and a float is a literal: the proof takes that from a read.
#[tactic(auto, using(crate::proofs::lemmas::laws::AdmittedLines::literal_is_float))]
fn value_fits(value: &FieldValue<'_>)
    ensures { IsValue (logical_value (value_of value.now)) }
{
    match value {
        FieldValue::I64(number) => {
            let _number = *number;
        }
        FieldValue::U64(number) => {
            let _number = *number;
        }
        FieldValue::F64(text) => {
            let _text = *text;
        }
        FieldValue::String(_) | FieldValue::Boolean(_) => {}
    }
}

// The value of each field is in the range of its type, and each float is a literal.
fn values_fit(fields: &[(EscapedStr<'_>, FieldValue<'_>)])
    ensures { AreValues fields.now }
{
    for (_, value) in fields {
        value_fits(value);
    }
}

// A timestamp is in the range of an `i64`.
fn timestamp_fits(timestamp: Option<i64>)
    ensures { IfSome timestamp (λ t. fits_i64 t ≡ true) }
{}

// Returns true if a line is written in a dialect: if it has a field and is admitted there.
fn is_written_in(dialect: Dialect, line: &ParsedLine<'_>) -> bool
    ensures written { result ≡ true → IsAdmittedIn (rules_of dialect) (parsed_point line.now) }
    ensures unwritten { result ≡ false → IsNotAdmitted (rules_of dialect) (parsed_point line.now) }
{
    values_fit(line.field_set.as_slice());
    timestamp_fits(line.timestamp);
    is_admitted_in(dialect, line) && line.field_set.len() > 0
}

/// Appends a parsed line and a newline if the line reads back, in the dialect of the Rust crate.
///
/// Calls [`write_admitted_line_in`] with [`Dialect::Crate`].
///
/// ```
/// let lines = match write_admitted_line(lines, &line) {
///     Ok(longer) => longer,
///     // the user of the line is `guest`, a newline and `payments`
///     Err(Unwritten::NotAdmitted(unchanged)) => unchanged,
///     Err(Unwritten::Refused(refused)) => return Err(refused.cause),
/// };
/// ```
///
/// # Errors
///
/// Returns the errors of [`write_admitted_line_in`]. The returned builder then holds the bytes that it had.
pub fn write_admitted_line<B: BufMut>(
    builder: LineProtocolBuilder<B, BeforeMeasurement>,
    line: &ParsedLine<'_>,
) -> Result<LineProtocolBuilder<B, BeforeMeasurement>, Unwritten<B>>
    ensures writes { WritesAdmitted Crate B.bytes B.room B.refuses (parsed_point line.now) (buffer_of builder) result }
    ensures reads_back { AddsPointOrNothing Crate B.bytes (parsed_point line.now) (buffer_of builder) result }
{
    write_admitted_line_in(builder, Dialect::Crate, line)
}

/// Appends a parsed line and a newline if the line reads back in a dialect: if the line has a field, and [`is_admitted_in`] is
/// true of it. The text is the same as [`write_line`] writes.
///
/// If the buffer held closed lines, it holds closed lines again; an empty buffer holds closed lines. In each dialect in which the
/// line is admitted, the buffer then parses to its old items and the point of this line, whatever text comes after them. No text
/// in a name can begin a line or change another line.
///
/// The function asks for memory only if the buffer has to grow. It reads the line three times: for its names, for its length, and
/// to copy its text.
///
/// ```text
/// a line with                   in Crate and Strict      in NewlineDelimited
/// the string `a b` as field `s` appends m s="a b"        appends m s="a b"
/// the string `a⏎b` as field `s` appends m s="a⏎b"        returns NotAdmitted
/// the tag `user=guest⏎payments` returns NotAdmitted      returns NotAdmitted
/// ```
///
/// # Errors
///
/// * `NotAdmitted` if the line is not admitted in the dialect, or has no field.
/// * `Refused` if the buffer has no room for the whole line, or no `usize` can hold the length of the line.
///
/// No part of the line is then written, and the error holds the builder with the bytes that it had.
pub fn write_admitted_line_in<B: BufMut>(
    builder: LineProtocolBuilder<B, BeforeMeasurement>,
    dialect: Dialect,
    line: &ParsedLine<'_>,
) -> Result<LineProtocolBuilder<B, BeforeMeasurement>, Unwritten<B>>
    ensures writes { WritesAdmitted (rules_of dialect) B.bytes B.room B.refuses (parsed_point line.now) (buffer_of builder) result }
    ensures reads_back { AddsPointOrNothing (rules_of dialect) B.bytes (parsed_point line.now) (buffer_of builder) result }
{
    if !is_written_in(dialect, line) {
        return Err(Unwritten::NotAdmitted(builder));
    }
    match write_line(builder, line) {
        Ok(longer) => Ok(longer),
        Err(refused) => Err(Unwritten::Refused(refused)),
    }
}

/// Returns true if the builder writes exactly this text, before a newline, for a point that is admitted in the dialect, and the
/// dialect reads the text as one line.
///
/// In the dialects `Crate` and `Strict`, where a string can hold a newline, the result is the result of [`is_as_written`]. In
/// `NewlineDelimited`, the text must also hold no newline. The function takes no memory.
///
/// ```text
/// m s="a
/// b"       is as written in Crate and in Strict, and not in NewlineDelimited
/// ```
pub fn is_as_written_in(dialect: Dialect, line: &str) -> bool
    ensures { (result ≡ true) ↔ IsAsWrittenIn (rules_of dialect) line.now }
{
    match dialect {
        Dialect::Crate | Dialect::Strict => is_as_written(line),
        Dialect::NewlineDelimited => newlines_in(line.as_bytes()) == 0 && is_as_written(line),
    }
}
