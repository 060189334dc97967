//! Names the part of a line that is not as the builder writes it.
ghost use Rattle.std.specs.Prelude.{◌≡◌, ◌≤◌, length, string_bytes, IfOk};
ghost use Rattle.lp_conditions.specs.Differing.{common_len, differing_part, part_after, part_at, part_text};

use influxdb_line_protocol::Dialect;
use lp_events::stops::{LinePart, reading_stop};
use std::alloc::{AllocError, Global};

/// What of a line is not as the builder writes it.
#[derive(Clone, Copy)]
pub enum Part {
    /// A part of the line.
    In(LinePart),
    /// The spaces after a part, more than one or at the end.
    Spaces,
    /// The comma after the last field.
    Comma,
}

// How many bytes at the start both have.
fn common_len(line: &[u8], written: &[u8]) -> usize
    ensures value { result ≡ common_len line.now written.now }
    ensures fits { result ≤ length line.now }
{
    let mut at = 0;
    while at < line.len() && at < written.len() && line[at] == written[at] {
        at += 1;
    }
    at
}

// The part in which reading stops of so many bytes of a line, without those of a character that goes on after them.
fn part_after(line: &str, at: usize) -> LinePart
    requires { at ≤ length line.now }
    ensures { result ≡ part_after line.now at }
{
    let (front, _) = line.split_at(line.floor_char_boundary(at));
    reading_stop(Dialect::Strict, front).part
}

// What is not as written if a line has the one byte in this part where the builder writes the other.
fn part_at(part: LinePart, byte: u8, written: u8) -> Part
    ensures { result ≡ part_at part byte written }
{
    match part {
        LinePart::FieldKey(_) | LinePart::Timestamp if byte == b' ' => Part::Spaces,
        LinePart::FieldValue(_) if byte == b',' && (written == b' ' || written == b'\n') => {
            Part::Comma
        }
        same => Part::In(same),
    }
}

/// The first part of a line that is not as it is written: the one in which reading stops of the front that the line has in common
/// with what the builder writes for its point.
pub fn differing_part(line: &str, written: &[u8]) -> Part
    ensures { result ≡ differing_part line.now written.now }
{
    let bytes = line.as_bytes();
    let at = common_len(bytes, written);
    let part = part_after(line, at);
    if at < bytes.len() && at < written.len() {
        return part_at(part, bytes[at], written[at]);
    }
    Part::In(part)
}

/// What is wrong with a line whose first part that is not as it is written is this one.
pub fn part_text(alloc: Global, part: Part) -> Result<String, AllocError>
    ensures { IfOk result (λ text. string_bytes text ≡ part_text part) }
{
    match part {
        Part::In(LinePart::Measurement) => format!(in alloc; "not as written: the measurement"),
        Part::In(LinePart::TagKey(n)) => format!(in alloc; "not as written: the key of tag {n}"),
        Part::In(LinePart::TagValue(n)) => {
            format!(in alloc; "not as written: the value of tag {n}")
        }
        Part::In(LinePart::FieldKey(n)) => {
            format!(in alloc; "not as written: the key of field {n}")
        }
        Part::In(LinePart::FieldValue(n)) => {
            format!(in alloc; "not as written: the value of field {n}")
        }
        Part::In(LinePart::Timestamp) => format!(in alloc; "not as written: the timestamp"),
        Part::Spaces => format!(in alloc; "not as written: the spaces"),
        Part::Comma => format!(in alloc; "not as written: the comma after the fields"),
    }
}
