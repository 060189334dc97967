//! Checks whether the value at the start of a text is written as the builder writes it.

ghost use Rattle.std.specs.Prelude.{◌≡◌, ◌≢◌, ◌<◌, IsCharBoundary, codes, drop, length, slice_index, take};
ghost use Rattle.lp_format.specs.format.{letter_i, letter_u, quote, byte, miss, IsSigned, integer_len};
ghost use Rattle.lp_written.specs.code.AsWritten.{EndsValue, IsOnlyRest, IsWrittenValue, has_extra_zero, is_written_integer};
ghost use Rattle.lp_written.specs.code.AsWritten.{is_written_unsigned};

use crate::tokens::after_written_string;
use lp_scan::trim::strip_byte;
use lp_values::FloatText;
use lp_values::digits::{integer_value, unsigned_value};
use lp_values::literals::integer_len;
use lp_values::values::has_byte_at;

// A number with fewer bytes, with `-` or without, is in the range of an `i64`.
const LEAST_IN_DOUBT: usize = 19;

// Returns true if a number begins with a zero that the builder does not write.
#[inline(always)]
fn has_extra_zero(number: &[u8]) -> bool
    ensures { result ≡ has_extra_zero number.now }
{
    matches!(number, [b'-', b'0', ..] | [b'0', _, ..])
}

// Returns true if the builder writes `number`, which is at the start of `text`, in this way as an integer.
#[tactic(auto, using(crate::proofs::lemmas::parts::WrittenNumbers::short_written))]
#[inline(always)]
pub(crate) fn is_written_integer(number: &str, text: &str) -> bool
    requires signed { IsSigned (codes "-") number.now }
    requires front { number.now ≡ take (length number.now) text.now }
    ensures { result ≡ is_written_integer number.now }
{
    !has_extra_zero(number.as_bytes())
        && (number.len() < LEAST_IN_DOUBT || integer_value(number, text).is_some())
}

// Returns true if the builder writes `number`, which is at the start of `text`, in this way as an unsigned integer.
#[inline(always)]
fn is_written_unsigned(number: &str, text: &str) -> bool
    requires signed { IsSigned (codes "-") number.now }
    requires front { number.now ≡ take (length number.now) text.now }
    ensures { result ≡ is_written_unsigned number.now }
{
    let bytes = number.as_bytes();
    !has_byte_at(bytes, 0, b'-') && !has_extra_zero(bytes) && unsigned_value(number, text).is_some()
}

// Returns the rest after the longest float at the start of `text`. An integer there takes `whole` bytes, and no mark of an
// integer follows it.
#[tactic(auto, using(crate::proofs::lemmas::parts::WrittenNumbers::float_steps))]
#[inline(always)]
fn after_float(text: &str, whole: usize) -> Option<&str>
    requires whole { whole ≡ integer_len text.now }
    requires some { 0 < whole }
    requires no_i { byte letter_i (drop whole text.now) ≡ miss }
    requires no_u { byte letter_u (drop whole text.now) ≡ miss }
    ensures { IsOnlyRest (IsWrittenValue text.now) EndsValue result }
{
    let (_, rest) = FloatText::front(text, whole)?;
    Some(rest)
}

// Returns the rest after the number at the start of `text`, if it is as the builder writes it. An integer there takes `whole`
// bytes.
#[tactic(auto, using(crate::proofs::lemmas::parts::WrittenNumbers::number_steps))]
#[inline(always)]
fn after_number(text: &str, whole: usize) -> Option<&str>
    requires whole { whole ≡ integer_len text.now }
    requires some { 0 < whole }
    requires boundary { IsCharBoundary text.now whole }
    ensures { IsOnlyRest (IsWrittenValue text.now) EndsValue result }
{
    let (number, after) = text.split_at(whole);
    if let Some(rest) = strip_byte(b'i', after) {
        return is_written_integer(number, text).then_some(rest);
    }
    if let Some(rest) = strip_byte(b'u', after) {
        return is_written_unsigned(number, text).then_some(rest);
    }
    after_float(text, whole)
}

// Returns the rest after the word for a boolean at the start of `text`, if the builder writes this word. The text begins with no
// number and no string.
#[tactic(auto, using(crate::proofs::lemmas::parts::WrittenNumbers::last_word))]
#[inline(always)]
fn after_word(text: &str) -> Option<&str>
    requires no_number { integer_len text.now ≡ 0 }
    requires no_string { slice_index text.now 0 ≢ quote }
    ensures { IsOnlyRest (IsWrittenValue text.now) EndsValue result }
{
    if let Some(rest) = text.strip_prefix("true") {
        return Some(rest);
    }
    text.strip_prefix("false")
}

/// Returns the rest after the value at the start of `text`, or `None` if the builder does not write the value in this way.
#[tactic(auto, using(crate::proofs::lemmas::parts::WrittenNumbers::string_only_value))]
#[inline(always)]
pub(crate) fn after_written_value(text: &str) -> Option<&str>
    ensures { IsOnlyRest (IsWrittenValue text.now) EndsValue result }
{
    let whole = integer_len(text);
    if whole > 0 {
        return after_number(text, whole);
    }
    if has_byte_at(text.as_bytes(), 0, b'"') {
        return after_written_string(text);
    }
    after_word(text)
}
