//! Checks the names, the values and the timestamp of a line, whatever their spelling.

ghost use Rattle.std.specs.Prelude.{◌≡◌, ◌<◌, ◌==◌, ◌||◌, ◌+◌, ◌-◌, ◌∷◌, [], slice_index, slice_index_or, bytes_eq, codes, length, map, nat_lt, not};
ghost use Rattle.std.specs.List.{list_any};
ghost use Rattle.lp_format.specs.format.{is_one_of, quote, space, tab};
ghost use Rattle.lp_values.specs.code.{ReadValues.value_of, Texts.literal_of, Texts.text_of};
ghost use Rattle.lp_lines.specs.code.Parsed.{field_of, tag_of};
ghost use Rattle.lp_portable.specs.format.Portable.{begins_with_nul, has_control, holds_text, is_finite, is_outside, is_rounded, is_system_key};
ghost use Rattle.lp_portable.specs.format.Portable.{is_finite_number, is_hundreds, is_system_measurement, is_unsigned};
ghost use Rattle.std.specs.{Float.Parse.parse_float, Float.binary64};

use lp_values::{EscapedStr, FieldValue};

type Tag<'a> = (EscapedStr<'a>, EscapedStr<'a>);

type Field<'a> = (EscapedStr<'a>, FieldValue<'a>);

// Returns true if `wanted` is among these bytes.
pub(crate) fn has_byte(bytes: &[u8], wanted: u8) -> bool
    ensures { result ≡ is_one_of bytes.now wanted }
{
    bytes.contains(&wanted)
}

// Returns true if some tag key is this name.
pub(crate) fn has_tag_key<'a>(name: &str, tags: &[Tag<'a>]) -> bool
    ensures { result ≡ list_any (λ t. bytes_eq (tag_of t).key.bytes name.now) tags.now }
{
    tags.iter().any(|(key, _)| key.as_str() == name)
}

// Returns true if some field key is this name.
fn has_field_key<'a>(name: &str, fields: &[Field<'a>]) -> bool
    ensures { result ≡ list_any (λ f. bytes_eq (field_of f).key.bytes name.now) fields.now }
{
    fields.iter().any(|(key, _)| key.as_str() == name)
}

// Returns true if some tag key or field key is `time`.
pub(crate) fn has_time<'a>(tags: &[Tag<'a>], fields: &[Field<'a>]) -> bool
    ensures { result ≡ (list_any (λ t. bytes_eq (tag_of t).key.bytes (codes "time")) tags.now
        || list_any (λ f. bytes_eq (field_of f).key.bytes (codes "time")) fields.now) }
{
    has_tag_key("time", tags) || has_field_key("time", fields)
}

// Returns true if some tag key is longer than `most` bytes.
pub(crate) fn has_long_key<'a>(most: usize, tags: &[Tag<'a>]) -> bool
    ensures { result ≡ list_any (λ t. nat_lt most (length (tag_of t).key.bytes)) tags.now }
{
    tags.iter().any(|(key, _)| key.as_str().len() > most)
}

// Returns true if some tag value is longer than `most` bytes.
pub(crate) fn has_long_value<'a>(most: usize, tags: &[Tag<'a>]) -> bool
    ensures { result ≡ list_any (λ t. nat_lt most (length (tag_of t).value.bytes)) tags.now }
{
    tags.iter().any(|(_, value)| value.as_str().len() > most)
}

// Returns true if some field key holds a quote.
pub(crate) fn has_quoted_key<'a>(fields: &[Field<'a>]) -> bool
    ensures { result ≡ list_any (λ f. is_one_of (field_of f).key.bytes quote) fields.now }
{
    fields
        .iter()
        .any(|(key, _)| has_byte(key.as_str().as_bytes(), b'"'))
}

// Returns true if some value is an unsigned integer.
pub(crate) fn has_unsigned<'a>(fields: &[Field<'a>]) -> bool
    ensures { result ≡ list_any (λ f. is_unsigned (field_of f).value) fields.now }
{
    fields
        .iter()
        .any(|(_, value)| matches!(value, FieldValue::U64(_)))
}

// Returns true if the number nearest to a literal is not finite.
pub(crate) fn is_infinite_text(literal: &str) -> bool
    ensures { result ≡ not (is_finite_number (parse_float binary64 literal.now)) }
{
    match fast_float::parse::<f64, &str>(literal) {
        Ok(number) => !number.is_finite(),
        Err(_) => true,
    }
}

// Returns true if a value is a float whose number is not finite.
fn is_infinite<'a>(value: &FieldValue<'a>) -> bool
    ensures { result ≡ not (is_finite (value_of value.now)) }
{
    match value {
        FieldValue::F64(literal) => is_infinite_text(literal.as_str()),
        _ => false,
    }
}

// Returns true if some value is a float whose number is not finite.
pub(crate) fn has_infinite<'a>(fields: &[Field<'a>]) -> bool
    ensures { result ≡ list_any (λ f. not (is_finite (field_of f).value)) fields.now }
{
    fields.iter().any(|(_, value)| is_infinite(value))
}

// Returns true if a text holds an `e` or an `E`.
fn has_power(literal: &str) -> bool
    ensures { result ≡ list_any (is_one_of (codes "eE")) literal.now }
{
    literal
        .as_bytes()
        .iter()
        .any(|byte| matches!(byte, b'e' | b'E'))
}

// Returns true if a literal has an exponent, or takes more than 310 bytes.
pub(crate) fn is_rounded(literal: &str) -> bool
    ensures { result ≡ (list_any (is_one_of (codes "eE")) literal.now || nat_lt 310 (length literal.now)) }
{
    has_power(literal) || literal.len() > 310
}

// Returns true if some value is a float whose literal has an exponent, or takes more than 310 bytes.
pub(crate) fn has_rounded<'a>(fields: &[Field<'a>]) -> bool
    ensures { result ≡ list_any (λ f. is_rounded (field_of f).value) fields.now }
{
    fields.iter().any(|(_, value)| match value {
        FieldValue::F64(literal) => is_rounded(literal.as_str()),
        _ => false,
    })
}

// Returns true if the first field key begins with a byte 0.
pub(crate) fn begins_with_nul<'a>(fields: &[Field<'a>]) -> bool
    ensures { result ≡ begins_with_nul (map field_of fields.now) }
{
    match fields.split_first() {
        Some(((key, _), _)) => matches!(key.as_str().as_bytes(), [0, ..]),
        None => false,
    }
}

// Returns true if there is a timestamp and it is before the first of these times or after the last.
pub(crate) fn is_outside(first: i64, last: i64, timestamp: Option<i64>) -> bool
    ensures { result ≡ is_outside first last timestamp }
{
    match timestamp {
        Some(time) => time < first || last < time,
        None => false,
    }
}

// Returns true if this number of tags makes InfluxDB panic.
pub(crate) fn is_hundreds(count: usize) -> bool
    ensures { result ≡ is_hundreds count }
{
    matches!(count, 100 | 200 | 400 | 800 | 1600 | 3200 | 6400 | 12800)
}

// Returns true if InfluxDB has a measurement of its own with this name.
fn is_system_measurement(name: &str) -> bool
    ensures { result ≡ is_system_measurement name.now }
{
    name == "_series"
        || name == "_fieldKeys"
        || name == "_tagKeys"
        || name == "_measurements"
        || name == "_name"
        || name == "_tagKey"
        || name == "_tags"
}

// Returns true if InfluxDB has a field of its own with this key.
fn is_system_key(key: &str) -> bool
    ensures { result ≡ is_system_key key.now }
{
    key == "_name"
        || key == "_tagKey"
        || key == "_tagValue"
        || key == "_fieldKey"
        || key == "_seriesKey"
}

// Returns true if InfluxDB has a field of its own with some of these keys.
fn has_system_key<'a>(fields: &[Field<'a>]) -> bool
    ensures { result ≡ list_any (λ f. is_system_key (field_of f).key.bytes) fields.now }
{
    fields.iter().any(|(key, _)| is_system_key(key.as_str()))
}

// Returns true if InfluxDB has a measurement of its own with the name of the line, or a field of its own with some of its field
// keys.
pub(crate) fn has_system_name<'a>(measurement: &str, fields: &[Field<'a>]) -> bool
    ensures { result ≡ (is_system_measurement measurement.now || list_any (λ f. is_system_key (field_of f).key.bytes) fields.now) }
{
    is_system_measurement(measurement) || has_system_key(fields)
}

// Returns true if a name holds a byte 0 or a carriage return.
fn holds_control(name: &str) -> bool
    ensures { result ≡ has_control name.now }
{
    name.as_bytes().iter().any(|byte| matches!(byte, 0 | b'\r'))
}

// Returns true if some field key holds a byte 0 or a carriage return.
fn has_control_key<'a>(fields: &[Field<'a>]) -> bool
    ensures { result ≡ list_any (λ f. has_control (field_of f).key.bytes) fields.now }
{
    fields.iter().any(|(key, _)| holds_control(key.as_str()))
}

// Returns true if the measurement or some field key holds a byte 0 or a carriage return.
pub(crate) fn has_control<'a>(measurement: &str, fields: &[Field<'a>]) -> bool
    ensures { result ≡ (has_control measurement.now || list_any (λ f. has_control (field_of f).key.bytes) fields.now) }
{
    holds_control(measurement) || has_control_key(fields)
}

// Returns true if `before` bytes, a byte and some field key are together longer than `most` bytes.
pub(crate) fn has_long_name<'a>(most: usize, before: usize, fields: &[Field<'a>]) -> bool
    requires { most < usize.MAX }
    ensures { result ≡ list_any (λ f. nat_lt most (before + 1 + length (field_of f).key.bytes)) fields.now }
{
    fields.iter().any(|(key, _)| before.saturating_add(1).saturating_add(key.as_str().len()) > most)
}

// Returns true if a text holds another text that is not empty.
pub(crate) fn holds_text(wanted: &[u8], text: &[u8]) -> bool
    ensures { result ≡ holds_text wanted.now text.now }
{
    let mut left = text;
    while let [_, rest @ ..] = left {
        if left.starts_with(wanted) {
            return true;
        }
        left = rest;
    }
    false
}

// Returns true if a text begins with a space or a tab.
pub(crate) fn begins_with_blank(text: &str) -> bool
    ensures { result ≡ is_one_of (space ∷ tab ∷ []) (slice_index_or text.now 0 0) }
{
    matches!(text.as_bytes(), [b' ' | b'\t', ..])
}

// Returns true if a text ends in a space.
pub(crate) fn ends_in_space(text: &str) -> bool
    ensures { result ≡ (slice_index text.now (length text.now - 1) == space) }
{
    matches!(text.as_bytes(), [.., b' '])
}
