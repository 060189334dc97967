//! Lines, as InfluxDB 1.x reads them.

ghost use Rattle.std.specs.Prelude.{◌≡◌, ◌≤◌, ◌<◌, ◌||◌, [], None, Some, bytes_eq, length, map, negsuc, not, pos, IfOk, MatchOption};
ghost use Rattle.std.specs.List.{list_any};
ghost use Rattle.lp_format.specs.format.{hash, logical_value, miss, reads, spaces};
ghost use Rattle.lp_portable.specs.format.Portable.{begins_with, has_repeats, is_hundreds, is_long_after, is_outside};
ghost use Rattle.lp_influx.specs.format.InfluxNames.{influx_names};
ghost use Rattle.lp_influx.specs.format.InfluxLines.{gap_before, influx_line, influx_logical, influx_time, parts_at, point_of_parts, stamp_at, without_gap};
ghost use Rattle.lp_influx.specs.code.Read.{spelled_field, spelled_tag, spelled_value};
ghost use Rattle.lp_influx.specs.code.Line.{field_of, keys_in, parts_of, point_seen, tag_of, value_of};

use crate::fields::influx_fields;
use crate::names::{influx_tags, some_until, without_each};
use crate::numbers::integer_len;
use crate::read::{Spelled, SpelledField, SpelledTag, is_one_of, strip_byte};
use crate::values::without_escapes;
use std::alloc::{AllocError, Global};

/// A value of a field.
///
/// ```text
/// of  m a=1i  the value of  a  is  Integer(1)
/// ```
#[derive(Drop)]
pub enum InfluxValue {
    /// Digits and `i`.
    Integer(i64),
    /// Digits and `u`. The first scan rejects such a value, except where the second scan finds other fields.
    Unsigned(u64),
    /// A float, by its literal.
    Float(Vec<u8>),
    /// The text in quotes, without its escapes.
    String(Vec<u8>),
    /// One of the words for true and false.
    Boolean(bool),
}

/// A tag, with its logical texts.
///
/// ```text
/// of  m,t=a\ b f=1  the key is  t,  and the value  a b
/// ```
#[derive(Drop)]
pub struct InfluxTag {
    /// The text before the equals sign.
    pub key: Vec<u8>,
    /// The text after the equals sign.
    pub value: Vec<u8>,
}

/// A field: its key, as a logical text, and its value.
///
/// ```text
/// of  m a\ b=1i  the key is  a b,  and the value  Integer(1)
/// ```
#[derive(Drop)]
pub struct InfluxField {
    /// The text before the equals sign.
    pub key: Vec<u8>,
    /// The value after the equals sign.
    pub value: InfluxValue,
}

/// The point that InfluxDB 1.x reads from a line. Its tags are in the order of the line.
///
/// ```text
/// of  m,t=x f=1i 5  the measurement is  m,  there are one tag and one field, and the timestamp is  5
/// ```
#[derive(Drop)]
pub struct InfluxLine {
    /// The name before the tags.
    pub measurement: Vec<u8>,
    /// The tags in the order of the line. Their keys, as they are spelled, differ.
    pub tags: Vec<InfluxTag>,
    /// The fields in the order of the line. There is at least one field.
    pub fields: Vec<InfluxField>,
    /// The time, if the line has one.
    pub timestamp: Option<i64>,
}

// The parts of a line as they are spelled, except for its values.
#[derive(Drop)]
struct Parts<'a> {
    measurement: &'a [u8],
    tags: Vec<SpelledTag<'a>>,
    series_len: usize,
    fields: Vec<SpelledField<'a>>,
    timestamp: Option<i64>,
}

// Returns a text without the spaces, tabs and bytes 0 at its start.
#[tactic(auto, using(crate::proofs::LineParts::gap_steps))]
fn without_gap(text: &[u8]) -> &[u8]
    ensures value { result.now ≡ without_gap text.now }
    ensures less { length result.now ≤ length text.now }
{
    let mut left = text;
    while let [byte, rest @ ..] = left {
        if !is_one_of(b" \t\0", *byte) {
            return left;
        }
        left = rest;
    }
    left
}

// Returns the number of spaces at the start.
fn spaces_len(text: &[u8]) -> usize
    ensures { result ≡ spaces text.now }
{
    text.iter().take_while(|byte| **byte == b' ').count()
}

// Returns the last byte of the gap before this rest of a text.
fn gap_before(text: &[u8], rest: &[u8]) -> u8
    requires { length rest.now < length text.now }
    ensures { result ≡ gap_before text.now rest.now }
{
    text[text.len() - rest.len() - 1]
}

// Returns true if a number is in the range of times.
fn is_time(number: i64) -> bool
    ensures { result ≡ not (is_outside (negsuc 9223372036854775805) (pos 9223372036854775806) (Some number)) }
{
    -9_223_372_036_854_775_806 <= number && number <= 9_223_372_036_854_775_806
}

// Returns a number in the range of times, which only spaces may follow.
fn stamp_at(text: &[u8]) -> Option<i64>
    ensures { MatchOption result (stamp_at text.now ≡ miss) (λ time. stamp_at text.now ≡ reads (Some time) []) }
{
    let (number, rest) = text.split_at(integer_len(text));
    if number.is_empty() || rest.len() != spaces_len(rest) {
        return None;
    }
    match fast_float::parse_i64(number) {
        Ok(time) => if is_time(time) { Some(time) } else { None },
        Err(_) => None,
    }
}

// Returns the time after the fields, if there is one and nothing else.
fn influx_time(text: &[u8]) -> Option<Option<i64>>
    ensures { MatchOption result (influx_time text.now ≡ miss) (λ time. influx_time text.now ≡ reads time []) }
{
    let stamp = without_gap(text);
    if stamp.is_empty() {
        return Some(None);
    }
    match stamp_at(stamp) {
        Some(time) => Some(Some(time)),
        None => None,
    }
}

// Returns the parts of a line that has no gap at its start.
fn parts_at<'a>(alloc: Global, line: &'a [u8]) -> Result<Option<Parts<'a>>, AllocError>
    ensures { IfOk result (λ got. MatchOption got (parts_at line.now ≡ miss) (λ parts. parts_at line.now ≡ reads (parts_of parts) [])) }
{
    let Some((measurement, rest)) = some_until(b", ", line) else {
        return Ok(None);
    };
    let (tags, rest) = influx_tags(alloc, rest)?;
    let Some(after) = strip_byte(b' ', rest) else {
        return Ok(None);
    };
    let start = without_gap(after);
    let Some((fields, end)) = influx_fields(alloc, gap_before(rest, start), start)? else {
        return Ok(None);
    };
    let Some(timestamp) = influx_time(end) else {
        return Ok(None);
    };
    Ok(Some(Parts {
        measurement,
        tags,
        series_len: line.len() - rest.len(),
        fields,
        timestamp,
    }))
}

// Returns true if a tag has this key.
fn has_key<'a>(key: &[u8], tags: &[SpelledTag<'a>]) -> bool
    ensures { result ≡ list_any (bytes_eq key.now) (keys_in tags.now) }
{
    let mut left = tags;
    while let [(other, _), rest @ ..] = left {
        if key == *other {
            return true;
        }
        left = rest;
    }
    false
}

// Returns true if two tags have the same key.
fn has_repeats<'a>(tags: &[SpelledTag<'a>]) -> bool
    ensures { result ≡ has_repeats (keys_in tags.now) }
{
    let mut left = tags;
    while let [(key, _), rest @ ..] = left {
        if has_key(key, rest) {
            return true;
        }
        left = rest;
    }
    false
}

// Returns true if this number of tags makes the server panic.
fn is_hundreds(count: usize) -> bool
    ensures { result ≡ is_hundreds count }
{
    matches!(count, 100 | 200 | 400 | 800 | 1600 | 3200 | 6400 | 12800)
}

// Returns true if some field key is too long after a series of this length.
fn has_long<'a>(series_len: usize, fields: &[SpelledField<'a>]) -> bool
    ensures { result ≡ list_any (λ f. is_long_after series_len f.key) (map spelled_field fields.now) }
{
    let mut left = fields;
    while let [(key, _), rest @ ..] = left {
        if series_len.saturating_add(4).saturating_add(key.len()) > 65_535 {
            return true;
        }
        left = rest;
    }
    false
}

// Returns the tags with their logical texts. A backslash before a quote stays.
fn tags_of<'a>(alloc: Global, tags: &[SpelledTag<'a>]) -> Result<Vec<InfluxTag>, AllocError>
    ensures { IfOk result (λ made. map tag_of made.items ≡ map influx_names (map spelled_tag tags.now)) }
{
    let mut made = Vec::new(alloc);
    let mut left = tags;
    while let [(key, value), rest @ ..] = left {
        let key = without_each(alloc, b", =", key)?;
        let value = without_each(alloc, b", =", value)?;
        made.push(InfluxTag { key, value })?;
        left = rest;
    }
    Ok(made)
}

// Returns a value with its logical text.
fn value_of<'a>(alloc: Global, value: Spelled<'a>) -> Result<InfluxValue, AllocError>
    ensures { IfOk result (λ made. value_of made ≡ logical_value (spelled_value value.entry)) }
{
    Ok(match value {
        Spelled::Integer(number) => InfluxValue::Integer(number),
        Spelled::Unsigned(number) => InfluxValue::Unsigned(number),
        Spelled::Float(literal) => InfluxValue::Float(Vec::from_slice(alloc, literal)?),
        Spelled::Quoted(body) => InfluxValue::String(without_escapes(alloc, body)?),
        Spelled::Boolean(value) => InfluxValue::Boolean(value),
    })
}

// Returns the fields with their logical texts.
fn fields_of<'a>(alloc: Global, fields: &[SpelledField<'a>]) -> Result<Vec<InfluxField>, AllocError>
    ensures { IfOk result (λ made. map field_of made.items ≡ map influx_logical (map spelled_field fields.now)) }
{
    let mut made = Vec::new(alloc);
    let mut left = fields;
    while let [(key, value), rest @ ..] = left {
        let key = without_each(alloc, b",\" =", key)?;
        let value = value_of(alloc, *value)?;
        made.push(InfluxField { key, value })?;
        left = rest;
    }
    Ok(made)
}

// Returns the point of the parts of a line. Returns `None` if two tags have the same key, if a key is too long, or if the number
// of tags makes the server panic.
fn point_of_parts<'a>(alloc: Global, parts: &Parts<'a>) -> Result<Option<InfluxLine>, AllocError>
    ensures { IfOk result (λ got. point_seen got ≡ point_of_parts (parts_of parts.now)) }
{
    if has_repeats(&parts.tags)
        || is_hundreds(parts.tags.len())
        || has_long(parts.series_len, &parts.fields)
    {
        return Ok(None);
    }
    Ok(Some(InfluxLine {
        measurement: without_each(alloc, b",\" =", parts.measurement)?,
        tags: tags_of(alloc, &parts.tags)?,
        fields: fields_of(alloc, &parts.fields)?,
        timestamp: parts.timestamp,
    }))
}

// Returns true if the text begins with a comment.
fn is_comment(text: &[u8]) -> bool
    ensures { result ≡ begins_with hash text.now }
{
    matches!(text, [b'#', ..])
}

/// Reads one line, without the newline that ends it, as InfluxDB 1.x does. Returns the point. Returns `None` for a comment, for a
/// blank line and for a line that InfluxDB rejects.
///
/// The text need not be UTF-8. The point is a copy, and takes memory part by part. The time grows with the length of the text and
/// with the square of the number of tags, because each key is compared with the keys after it.
///
/// # Errors
///
/// Returns `AllocError` if memory was refused.
///
/// ```text
/// m,t=a\ b f=1i 5  gives the measurement  m,  the tag  t  with  a b,  the field  f  with  Integer(1)  and the timestamp  5
/// ```
#[tactic(auto, unfolding(crate::specs::format::InfluxLines::influx_line))]
pub fn influx_line(alloc: Global, text: &[u8]) -> Result<Option<InfluxLine>, AllocError>
    ensures { IfOk result (λ got. point_seen got ≡ influx_line text.now) }
{
    let line = without_gap(text);
    if is_comment(line) {
        return Ok(None);
    }
    let Some(parts) = parts_at(alloc, line)? else {
        return Ok(None);
    };
    let point = point_of_parts(alloc, &parts)?;
    Ok(point)
}
