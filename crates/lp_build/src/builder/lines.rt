//! Writes parsed lines again.

ghost use Rattle.std.specs.Prelude.{◌≡◌, ℕ, ◌+◌, ◌<◌, ◌≤◌, ◌^◌, ◌∷◌, ◌++◌, length, not, SomeIff, flat_map};
ghost use Rattle.std.specs.List.{list_all};
ghost use Rattle.smallvec.specs.SmallVec.{small_vec_len};
ghost use Rattle.lp_format.specs.format.{is_one_of, space, built, built_timestamp, built_value, field_text, is_admitted_field};
ghost use Rattle.lp_format.specs.format.{is_admitted_in, is_admitted_name, is_admitted_point, is_admitted_tag, is_value_on_one_line};
ghost use Rattle.lp_format.specs.format.{logical_field, logical_value, never_in, float};
ghost use Rattle.lp_values.specs.code.ReadValues.{value_of};
ghost use Rattle.lp_split.specs.code.{rules_of};
ghost use Rattle.lp_values.specs.code.{Outcomes.kind_of, Texts.literal_of, Texts.text_of};
ghost use Rattle.lp_lines.specs.code.Parsed.{field_of, parsed_point};
ghost use Rattle.lp_build.specs.code.WrittenAgain.{fields_text, line_text, point_tag, tag_text, value_text};
ghost use Rattle.lp_build.specs.code.Built.{Writes, buffer_of};

use super::texts::{escaped_len, is_free_of, put_escaped};
use super::{
    BeforeMeasurement, BufMut, FieldValue, LineProtocolBuilder, Refused, field_len, put_field,
    put_tag, tag_len,
};
use lp_lines::ParsedLine;
use lp_lines::parsed::tags_in;
use lp_scan::sets::TokenKind;
use lp_split::Dialect;
use lp_values::names::NameKind;
use lp_values::{EscapedStr, FloatText, values};

/// A float is written as its literal.
impl FieldValue for FloatText<'_> {
    ghost text = { λ f. built_value (float (literal_of f)) };

    fn fmt_len(&self) -> Option<usize> {
        Some(self.as_str().len())
    }

    fn fmt<B: BufMut>(&self, buf: &mut B) {
        buf.put(self.as_str().as_bytes());
    }
}

// Returns the bytes that a name of this kind may not hold.
#[inline(always)]
fn never_in(kind: NameKind) -> [u8; 4]
    ensures { (b : ℕ) → is_one_of result b ≡ is_one_of (never_in (kind_of kind)) b }
{
    match kind {
        NameKind::Measurement => *b"\t\n\0\0",
        _ => *b"\t\n\n\n",
    }
}

// Returns true if the name is admitted as a name of this kind.
#[tactic(auto, unfolding(lp_format::specs::format::Points::is_admitted_name))]
#[inline(always)]
fn is_admitted_name(kind: NameKind, name: &EscapedStr<'_>) -> bool
    ensures { result ≡ is_admitted_name (kind_of kind) (text_of name.now) }
{
    let bytes = name.as_str().as_bytes();
    if bytes.is_empty() || bytes[bytes.len() - 1] == b'\\' {
        return false;
    }
    let begins_comment = matches!(kind, NameKind::Measurement) && bytes[0] == b'#';
    is_free_of(never_in(kind), bytes) && !begins_comment
}

// Returns true if the key and the value of each tag are admitted.
fn are_tags_admitted(tags: &[(EscapedStr<'_>, EscapedStr<'_>)]) -> bool
    ensures { result ≡ list_all (λ t. is_admitted_tag (point_tag t)) tags.now }
{
    tags.iter().all(|(key, value)| {
        is_admitted_name(NameKind::TagKey, key) && is_admitted_name(NameKind::TagValue, value)
    })
}

// Returns true if the key of each field is admitted.
fn are_fields_admitted(fields: &[(EscapedStr<'_>, values::FieldValue<'_>)]) -> bool
    ensures { result ≡ list_all (λ f. is_admitted_field (logical_field (field_of f))) fields.now }
{
    fields
        .iter()
        .all(|(key, _)| is_admitted_name(NameKind::FieldKey, key))
}

/// Returns true if a line reads back when it is written again: if each of its names is admitted. Takes no memory.
///
/// A name is admitted if it is not empty, holds no tab and no newline, and does not end in a backslash. A measurement must also
/// hold no NUL and must not begin with `#`.
///
/// ```text
/// login,user=guest ok=t              is admitted
/// login,user=guest\⏎payments ok=t    is not: the tag value holds a newline
/// w\⇥ f=1i                           is not: the measurement holds a tab
/// ```
#[tactic(auto, using(crate::proofs::lemmas::builder::WrittenAgainLemmas::sets), unfolding(lp_format::specs::format::Points::is_admitted_point))]
pub fn is_admitted(line: &ParsedLine<'_>) -> bool
    ensures { result ≡ is_admitted_point (parsed_point line.now) }
{
    is_admitted_name(NameKind::Measurement, &line.series.measurement)
        && are_tags_admitted(tags_in(&line.series))
        && are_fields_admitted(line.field_set.as_slice())
}

// Returns true if the value is written without a newline.
fn is_value_on_one_line(value: &values::FieldValue<'_>) -> bool
    ensures { result ≡ is_value_on_one_line (logical_value (value_of value.now)) }
{
    match value {
        values::FieldValue::String(text) => is_free_of(*b"\n\n\n\n", text.as_str().as_bytes()),
        _ => true,
    }
}

// Returns true if each value is written without a newline.
fn are_values_on_one_line(fields: &[(EscapedStr<'_>, values::FieldValue<'_>)]) -> bool
    ensures { result ≡ list_all (λ f. is_value_on_one_line (logical_field (field_of f)).value) fields.now }
{
    fields.iter().all(|(_, value)| is_value_on_one_line(value))
}

/// Returns true if a line reads back in a dialect when it is written again: if each of its names is admitted, and, in the
/// newline-delimited dialect, no string holds a newline. Takes no memory.
///
/// In the other two dialects, the result is the result of [`is_admitted`].
///
/// ```text
/// m s="a
/// b"       is admitted in Crate and in Strict, and not in NewlineDelimited
/// ```
#[tactic(auto, using(crate::proofs::lemmas::builder::WrittenAgainLemmas::sets))]
pub fn is_admitted_in(dialect: Dialect, line: &ParsedLine<'_>) -> bool
    ensures { result ≡ is_admitted_in (rules_of dialect) (parsed_point line.now) }
{
    match dialect {
        Dialect::Crate | Dialect::Strict => is_admitted(line),
        Dialect::NewlineDelimited => {
            is_admitted(line) && are_values_on_one_line(line.field_set.as_slice())
        }
    }
}

/// A parsed value is written as the implementation for its own type writes it.
impl FieldValue for values::FieldValue<'_> {
    ghost text = { λ v. value_text v };

    fn fmt_len(&self) -> Option<usize> {
        match self {
            values::FieldValue::I64(value) => value.fmt_len(),
            values::FieldValue::U64(value) => value.fmt_len(),
            values::FieldValue::F64(value) => value.fmt_len(),
            values::FieldValue::String(value) => value.as_str().fmt_len(),
            values::FieldValue::Boolean(value) => value.fmt_len(),
        }
    }

    fn fmt<B: BufMut>(&self, buf: &mut B) {
        match self {
            values::FieldValue::I64(value) => value.fmt(buf),
            values::FieldValue::U64(value) => value.fmt(buf),
            values::FieldValue::F64(value) => value.fmt(buf),
            values::FieldValue::String(value) => value.as_str().fmt(buf),
            values::FieldValue::Boolean(value) => value.fmt(buf),
        }
    }
}

// Returns the length of the tags, each with its comma, or `None` if no `usize` can hold the length.
fn tags_len(tags: &[(EscapedStr<'_>, EscapedStr<'_>)]) -> Option<usize>
    ensures { let text = flat_map tag_text tags.now in
        SomeIff result (length text < 2 ^ 64) (length text) }
{
    let mut len = 0usize;
    for (key, value) in tags {
        len = len.checked_add(tag_len(key.as_str().as_bytes(), value.as_str().as_bytes())?)?;
    }
    Some(len)
}

// Appends the tags, each with its comma.
fn put_tags<B: BufMut>(buf: &mut B, tags: &[(EscapedStr<'_>, EscapedStr<'_>)])
    requires { length (flat_map tag_text tags.now) ≤ B.room buf.old }
    ensures bytes { B.bytes buf.new ≡ B.bytes buf.old ++ flat_map tag_text tags.now }
    ensures room { B.room buf.old ≤ B.room buf.new + length (flat_map tag_text tags.now) }
{
    for (key, value) in tags {
        put_tag(buf, key.as_str().as_bytes(), value.as_str().as_bytes());
    }
}

// Returns the length of the fields, each with the byte before it, or `None` if no `usize` can hold the length.
#[tactic(auto, using(crate::proofs::lemmas::builder::WrittenAgainLemmas::length_fields_after))]
fn fields_len(fields: &[(EscapedStr<'_>, values::FieldValue<'_>)]) -> Option<usize>
    ensures { let text = fields_text space fields.now in
        SomeIff result (length text < 2 ^ 64) (length text) }
{
    let mut len = 0usize;
    for (key, value) in fields {
        len = len.checked_add(field_len(key.as_str().as_bytes(), value)?)?;
    }
    Some(len)
}

// Appends the fields, the first after a space and each other after a comma.
fn put_fields<B: BufMut>(buf: &mut B, fields: &[(EscapedStr<'_>, values::FieldValue<'_>)])
    requires { length (fields_text space fields.now) ≤ B.room buf.old }
    ensures bytes { B.bytes buf.new ≡ B.bytes buf.old ++ fields_text space fields.now }
    ensures room { B.room buf.old ≤ B.room buf.new + length (fields_text space fields.now) }
{
    let mut before = b' ';
    for (key, value) in fields {
        put_field(buf, before, key.as_str().as_bytes(), value);
        before = b',';
    }
}

// Returns the length of the timestamp with the space before it, or 0 if there is none. `fmt_len` counts the letter of an integer,
// which is as long as a space.
fn timestamp_len(timestamp: Option<i64>) -> Option<usize>
    ensures { SomeIff result (length (built_timestamp timestamp) < 2 ^ 64) (length (built_timestamp timestamp)) }
{
    match timestamp {
        Some(timestamp) => timestamp.fmt_len(),
        None => Some(0),
    }
}

// Appends the timestamp, if there is one, with the space before it.
fn put_timestamp<B: BufMut>(buf: &mut B, timestamp: Option<i64>)
    requires { length (built_timestamp timestamp) ≤ B.room buf.old }
    ensures bytes { B.bytes buf.new ≡ B.bytes buf.old ++ built_timestamp timestamp }
    ensures room { B.room buf.old ≤ B.room buf.new + length (built_timestamp timestamp) }
{
    if let Some(timestamp) = timestamp {
        let mut digits = itoa::Buffer::new();
        buf.put(b" ");
        buf.put(digits.format(timestamp).as_bytes());
    }
}

// Returns the length of the line and its newline, or `None` if no `usize` can hold the length.
#[tactic(auto, unfolding(crate::specs::code::WrittenAgain::line_text))]
fn line_len(line: &ParsedLine<'_>) -> Option<usize>
    ensures { let text = line_text line.now in
        SomeIff result (length text < 2 ^ 64) (length text) }
{
    let name = line.series.measurement.as_str();
    escaped_len(TokenKind::Measurement, name.as_bytes())
        .checked_add(tags_len(tags_in(&line.series))?)?
        .checked_add(fields_len(line.field_set.as_slice())?)?
        .checked_add(timestamp_len(line.timestamp)?)?
        .checked_add(1)
}

// Appends the line and its newline.
#[tactic(auto, unfolding(crate::specs::code::WrittenAgain::line_text))]
fn put_line<B: BufMut>(buf: &mut B, line: &ParsedLine<'_>)
    requires { length (line_text line.now) ≤ B.room buf.old }
    ensures bytes { B.bytes buf.new ≡ B.bytes buf.old ++ line_text line.now }
    ensures room { B.room buf.old ≤ B.room buf.new + length (line_text line.now) }
{
    let name = line.series.measurement.as_str();
    put_escaped(buf, TokenKind::Measurement, name.as_bytes());
    put_tags(buf, tags_in(&line.series));
    put_fields(buf, line.field_set.as_slice());
    put_timestamp(buf, line.timestamp);
    buf.put(b"\n");
}

/// Appends a parsed line and a newline, as the builder writes it: the measurement, the tags, the fields and the timestamp, from
/// their logical texts.
///
/// The line must have at least one field, as each line has that `parse_lines` gave. The line reads back if [`is_admitted`] is
/// true of it; `write_admitted_line` of `influxdb_line_protocol` also makes this check. Asks for memory only if the buffer has to
/// grow.
///
/// ```text
/// the line that was read  is written as
/// m,k=a=b f=007i          m,k=a\=b f=7i
/// m a,b=1i  9             m a\,b=1i 9
/// m,k=\v s="a\b"          m,k=\\v s="a\\b"
/// ```
///
/// # Errors
///
/// Returns `TooLong` if no `usize` can hold the length of the line, and otherwise the cause that the buffer gives if the buffer
/// has no room for the whole line. The builder is then as it was: no part of the line is written.
#[tactic(auto, using(crate::proofs::lemmas::builder::WrittenAgainLemmas::line_text_is))]
pub fn write_line<B: BufMut>(
    builder: LineProtocolBuilder<B, BeforeMeasurement>,
    line: &ParsedLine<'_>,
) -> Result<LineProtocolBuilder<B, BeforeMeasurement>, Refused<B, BeforeMeasurement>>
    requires { 0 < small_vec_len line.now.field_set }
    ensures { Writes B.bytes B.room B.refuses
        (built (parsed_point line.now)) (buffer_of builder) result }
{
    let Some(n) = line_len(line) else {
        return Err(builder.too_long());
    };
    let mut buf = builder.with_room(n)?;
    put_line(&mut buf, line);
    Ok(LineProtocolBuilder::over(buf))
}
