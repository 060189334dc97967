//! Checks whether a text is a line as the builder writes it.

ghost use Rattle.std.specs.Prelude.{◌≡◌, ◌↔◌, true};
ghost use Rattle.lp_format.specs.format.{a_tag_value, IsAsWritten};
ghost use Rattle.lp_written.specs.code.AsWritten.{AreWrittenFields, EndsName, EndsValue, IsOnlyRest, IsWrittenAfterField};
ghost use Rattle.lp_written.specs.code.AsWritten.{IsWrittenAfterName, IsWrittenField, IsWrittenTag, IsWrittenTimestamp};

use crate::numbers::{after_written_value, is_written_integer};
use crate::tokens::after_written_name;
use lp_scan::trim::strip_byte;
use lp_values::literals::integer_len;
use lp_values::names::NameKind;

// Returns the rest after the tag at the start of `text`, or `None` if the builder does not write the tag in this way.
#[tactic(auto, using(crate::proofs::lemmas::parts::WrittenLines::pair_steps))]
#[inline(always)]
fn after_tag(text: &str) -> Option<&str>
    ensures { IsOnlyRest (IsWrittenTag text.now) (EndsName a_tag_value) result }
{
    let key_end = after_written_name(NameKind::TagKey, text)?;
    let value = strip_byte(b'=', key_end)?;
    after_written_name(NameKind::TagValue, value)
}

// Returns the rest after the field at the start of `text`, or `None` if the builder does not write the field in this way.
#[tactic(auto, using(crate::proofs::lemmas::parts::WrittenLines::pair_steps))]
#[inline(always)]
fn after_field(text: &str) -> Option<&str>
    ensures { IsOnlyRest (IsWrittenField text.now) EndsValue result }
{
    let key_end = after_written_name(NameKind::FieldKey, text)?;
    let value = strip_byte(b'=', key_end)?;
    after_written_value(value)
}

// Returns true if the builder writes `text` for a timestamp, or if `text` is empty.
#[tactic(auto, using(crate::proofs::lemmas::parts::WrittenLines::stamp_steps))]
#[inline(always)]
fn is_timestamp(text: &str) -> bool
    ensures { (result ≡ true) ↔ IsWrittenTimestamp text.now }
{
    if text.is_empty() {
        return true;
    }
    let Some(number) = strip_byte(b' ', text) else {
        return false;
    };
    let whole = integer_len(number);
    if whole == 0 {
        return false;
    }
    if whole < number.len() {
        return false;
    }
    is_written_integer(number, number)
}

// Returns true if the builder writes `text` after a field.
#[tactic(auto, using(crate::proofs::lemmas::parts::WrittenLines::field_steps))]
#[inline(always)]
fn is_after_field(text: &str) -> bool
    ensures { (result ≡ true) ↔ IsWrittenAfterField text.now }
{
    let mut left = text;
    while let Some(field) = strip_byte(b',', left) {
        let Some(rest) = after_field(field) else {
            return false;
        };
        left = rest;
    }
    is_timestamp(left)
}

// Returns true if the builder writes `text` after the space before the fields: fields, and a timestamp or none.
#[tactic(auto, using(crate::proofs::lemmas::parts::WrittenLines::first_step))]
#[inline(always)]
fn are_fields(text: &str) -> bool
    ensures { (result ≡ true) ↔ AreWrittenFields text.now }
{
    let Some(rest) = after_field(text) else {
        return false;
    };
    is_after_field(rest)
}

// Returns true if the builder writes `text` after a measurement.
#[tactic(auto, using(crate::proofs::lemmas::parts::WrittenLines::tag_steps))]
#[inline(always)]
fn is_after_name(text: &str) -> bool
    ensures { (result ≡ true) ↔ IsWrittenAfterName text.now }
{
    let mut left = text;
    while let Some(tag) = strip_byte(b',', left) {
        let Some(rest) = after_tag(tag) else {
            return false;
        };
        left = rest;
    }
    let Some(fields) = strip_byte(b' ', left) else {
        return false;
    };
    are_fields(fields)
}

/// Returns true if the builder writes exactly this text, before a newline, for a point whose names are all admitted. Takes no
/// memory.
///
/// ```text
/// m,t=x a=1i 7    is as written
/// m,t=x  a=01i    is not: the builder writes one space and no leading zero
/// ```
#[tactic(auto, using(crate::proofs::lemmas::parts::WrittenLines::line_step))]
pub fn is_as_written(line: &str) -> bool
    ensures { (result ≡ true) ↔ IsAsWritten line.now }
{
    let Some(rest) = after_written_name(NameKind::Measurement, line) else {
        return false;
    };
    is_after_name(rest)
}
