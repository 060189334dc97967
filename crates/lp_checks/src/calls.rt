//! Calls of the builder that the caller spells as bytes.
//!
//! A call is a letter and two texts. A text is its length, four bytes with the least first, and its bytes. Numbers and Booleans are texts
//! too. A text that is none of a call's arguments is passed over.
//!
//! | letter | call | texts |
//! |---|---|---|
//! | `m` | `measurement` | its name |
//! | `t` | `tag` | the key and the value |
//! | `s` `f` `i` `u` `b` | `field` of a text, a float, an integer, an unsigned integer, a Boolean | the key and the value |
//! | `@` | `timestamp` | none, and the number |
//! | `.` | `close_line` | none |
//! | `l` | `write_line` of each line that is read of a text | the text |

use influxdb_line_protocol::builder::{
    AfterField, AfterMeasurement, AfterTimestamp, BeforeMeasurement,
};
use influxdb_line_protocol::{
    EscapedStr, FieldSet, FieldValue, FloatText, LineProtocolBuilder, TagSet, parse_lines,
    write_line,
};
use std::alloc::Global;

type Building<S> = LineProtocolBuilder<Vec<u8>, S>;

// A call.
#[derive(Drop)]
enum Call<'c> {
    Measurement(&'c str),
    Tag(&'c str, &'c str),
    Field(&'c str, FieldValue<'c>),
    Timestamp(i64),
    Close,
    Lines(&'c str),
}

fn take_text(bytes: &[u8]) -> Option<(&str, &[u8])> {
    let (len, rest) = bytes.split_first_chunk::<4>()?;
    let (text, rest) = rest.split_at_checked(u32::from_le_bytes(*len) as usize)?;
    let text = str::from_utf8(text).ok()?;
    Some((text, rest))
}

// The first call, and what follows; `None` if the bytes spell none.
fn take_call(program: &[u8]) -> Option<(Call<'_>, &[u8])> {
    let (letter, rest) = program.split_first()?;
    let (key, rest) = take_text(rest)?;
    let (text, rest) = take_text(rest)?;
    let call = match letter {
        b'm' => Call::Measurement(key),
        b't' => Call::Tag(key, text),
        b's' => Call::Field(key, FieldValue::String(EscapedStr::from(text))),
        b'f' => Call::Field(key, FieldValue::F64(FloatText::new(text)?)),
        b'i' => Call::Field(key, FieldValue::I64(text.parse::<i64>().ok()?)),
        b'u' => Call::Field(key, FieldValue::U64(text.parse::<u64>().ok()?)),
        b'b' => Call::Field(key, FieldValue::Boolean(text == "true")),
        b'@' => Call::Timestamp(text.parse::<i64>().ok()?),
        b'.' => Call::Close,
        b'l' => Call::Lines(key),
        _ => return None,
    };
    Some((call, rest))
}

/// A builder, in one of its states.
#[derive(Drop)]
pub enum Lines {
    Closed(Building<BeforeMeasurement>),
    Measured(Building<AfterMeasurement>),
    Fielded(Building<AfterField>),
    Stamped(Building<AfterTimestamp>),
}

/// Writes again each line of a text that has a field. `Err` has the builder that a refused call handed back.
pub fn write_lines(
    alloc: Global,
    builder: Building<BeforeMeasurement>,
    text: &str,
) -> Result<Building<BeforeMeasurement>, Building<BeforeMeasurement>> {
    let mut builder = builder;
    for item in parse_lines(alloc, text) {
        let Ok(line) = item else { continue };
        if line.field_set.len() > 0 {
            builder = match write_line(builder, &line) {
                Ok(longer) => longer,
                Err(refused) => return Err(refused.builder),
            };
        }
    }
    Ok(builder)
}

// Makes a call. `Err` has the builder that a refused call handed back, or nothing if the call is none of the builder's state.
fn make_call(alloc: Global, lines: Lines, call: Call<'_>) -> Result<Lines, Option<Lines>> {
    match (lines, call) {
        (Lines::Closed(builder), Call::Measurement(name)) => match builder.measurement(name) {
            Ok(builder) => Ok(Lines::Measured(builder)),
            Err(refused) => Err(Some(Lines::Closed(refused.builder))),
        },
        (Lines::Closed(builder), Call::Lines(text)) => match write_lines(alloc, builder, text) {
            Ok(builder) => Ok(Lines::Closed(builder)),
            Err(builder) => Err(Some(Lines::Closed(builder))),
        },
        (Lines::Measured(builder), Call::Tag(key, value)) => match builder.tag(key, value) {
            Ok(builder) => Ok(Lines::Measured(builder)),
            Err(refused) => Err(Some(Lines::Measured(refused.builder))),
        },
        (Lines::Measured(builder), Call::Field(key, value)) => match builder.field(key, value) {
            Ok(builder) => Ok(Lines::Fielded(builder)),
            Err(refused) => Err(Some(Lines::Measured(refused.builder))),
        },
        (Lines::Fielded(builder), Call::Field(key, value)) => match builder.field(key, value) {
            Ok(builder) => Ok(Lines::Fielded(builder)),
            Err(refused) => Err(Some(Lines::Fielded(refused.builder))),
        },
        (Lines::Fielded(builder), Call::Timestamp(time)) => match builder.timestamp(time) {
            Ok(builder) => Ok(Lines::Stamped(builder)),
            Err(refused) => Err(Some(Lines::Fielded(refused.builder))),
        },
        (Lines::Fielded(builder), Call::Close) => match builder.close_line() {
            Ok(builder) => Ok(Lines::Closed(builder)),
            Err(refused) => Err(Some(Lines::Fielded(refused.builder))),
        },
        (Lines::Stamped(builder), Call::Close) => match builder.close_line() {
            Ok(builder) => Ok(Lines::Closed(builder)),
            Err(refused) => Err(Some(Lines::Stamped(refused.builder))),
        },
        _ => Err(None),
    }
}

/// Makes the calls that `program` spells. At the first refusal `refused_at` gets its place, and the call is made again, or
/// the calls end. `None` if a second call was refused, or a call is none of the builder's state.
pub fn make_calls(
    alloc: Global,
    lines: Lines,
    program: &[u8],
    again: bool,
    refused_at: &mut u64,
) -> Option<Lines> {
    let mut lines = lines;
    let mut rest = program;
    let mut place = 0u64;
    let mut is_refused = false;
    for _ in 0..=program.len() {
        let Some((call, after)) = take_call(rest) else {
            break;
        };
        match make_call(alloc, lines, call) {
            Ok(longer) => {
                lines = longer;
                rest = after;
                place = place.saturating_add(1);
            }
            Err(Some(before)) if !is_refused => {
                *refused_at = place;
                is_refused = true;
                lines = before;
                if !again {
                    return Some(lines);
                }
            }
            Err(_) => return None,
        }
    }
    if rest.is_empty() { Some(lines) } else { None }
}

/// The bytes, the open line ended in the shortest way: after the measurement and tags by the field `end=true`. `None`
/// if that was refused.
pub fn finish(lines: Lines) -> Option<Vec<u8>> {
    let builder = match lines {
        Lines::Closed(builder) => builder,
        Lines::Measured(builder) => builder.field("end", true).ok()?.close_line().ok()?,
        Lines::Fielded(builder) => builder.close_line().ok()?,
        Lines::Stamped(builder) => builder.close_line().ok()?,
    };
    Some(builder.build())
}

/// The parts of a line, as calls set them.
#[derive(Drop)]
pub struct Parts<'c> {
    pub measurement: &'c str,
    pub tags: TagSet<'c>,
    pub field_set: FieldSet<'c>,
    pub timestamp: Option<i64>,
}

/// Sets all that these calls write. Whether all of the program is calls, and no memory was refused.
pub fn set_parts<'c>(program: &'c [u8], parts: &mut Parts<'c>) -> bool {
    let mut rest = program;
    for _ in 0..program.len() {
        let Some((call, after)) = take_call(rest) else {
            break;
        };
        let mut is_refused = false;
        match call {
            Call::Measurement(name) => parts.measurement = name,
            Call::Tag(key, value) => {
                let tag = (EscapedStr::from(key), EscapedStr::from(value));
                is_refused = parts.tags.push(tag).is_err();
            }
            Call::Field(key, value) => {
                is_refused = parts
                    .field_set
                    .push((EscapedStr::from(key), value))
                    .is_err();
            }
            Call::Timestamp(time) => parts.timestamp = Some(time),
            Call::Close | Call::Lines(_) => {}
        }
        if is_refused {
            return false;
        }
        rest = after;
    }
    rest.is_empty()
}
