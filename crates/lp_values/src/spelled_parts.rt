//! Readers of names, values and timestamps as they are spelled. They take no memory.

ghost use Rattle.std.specs.Prelude.{◌≡◌, ◌≤◌, ◌<◌, false, true, length, slice_index, IfOk, IfSome};
ghost use Rattle.lp_format.specs.format.{letter_i, letter_u, timestamp, name, ◌otherwise◌, boolean_at, digits_len, false_words, float_at};
ghost use Rattle.lp_format.specs.format.{integer_at, integer_len, side_of, string_at, true_words, unsigned_at, value};
ghost use Rattle.lp_values.specs.code.Outcomes.{kind_of, side};
ghost use Rattle.lp_values.specs.code.SpelledParts.{GivesSpelled, GivesSpelledRead, spelled_text, spelled_value};

use crate::digits::{integer_value, unsigned_value};
use crate::error::OutOfRange;
use crate::literals::{FloatText, integer_len};
use crate::names::NameKind;
use crate::spelled::{Spelled, SpelledFault, SpelledValue};
use crate::tokens::take_token;
use crate::values::{begins_number, has_byte_at, longest_word};
use lp_scan::sets::TokenKind;
use lp_scan::trim::{strip_byte, trim_start_spaces};

/// A part at the start of a text and the rest after it, or `None` if no such part is there.
pub type Front<'a, T> = Result<Option<(T, &'a str)>, SpelledFault<'a>>;

/// Reads the name at the start of `text`, and returns it as it is spelled, with the rest. Returns `None` if no name is there.
///
/// # Errors
///
/// `EndsWithBackslash` if the name ends in a backslash.
///
/// ```text
/// name(NameKind::TagKey, "host=a f=1i")  gives  host, and the rest =a f=1i
/// ```
#[inline(always)]
pub fn name<'a>(kind: NameKind, text: &'a str) -> Front<'a, Spelled<'a>>
    ensures value { GivesSpelled spelled_text result (name (kind_of kind) text.now) }
    ensures tail { IfOk result (λ o. IfSome o (λ p. length p.1.now ≤ length text.now)) }
{
    let (token, rest) = take_token(kind.token(), text);
    if token.text.is_empty() {
        return Ok(None);
    }
    if token.ends_in_backslash() {
        return Err(SpelledFault::EndsWithBackslash);
    }
    Ok(Some((Spelled { token }, rest)))
}

// Returns the side on which a number is out of its range.
fn side_of(number: &str) -> OutOfRange
    ensures { side result ≡ side_of number.now }
{
    if number.starts_with('-') {
        OutOfRange::Below
    } else {
        OutOfRange::Above
    }
}

// Reads an integer and `i` at the start of `text`, and returns the rest with it. The integer has `whole` bytes.
#[tactic(auto, using(crate::proofs::lemmas::fields::ReadingLemmas::integer_steps))]
#[inline(always)]
fn integer<'a>(text: &'a str, whole: usize) -> Front<'a, SpelledValue<'a>>
    requires whole { whole ≡ integer_len text.now }
    requires some { 0 < whole }
    requires mark { slice_index text.now whole ≡ letter_i }
    ensures value { GivesSpelled spelled_value result (integer_at text.now) }
    ensures less { IfOk result (λ o. IfSome o (λ p. length p.1.now < length text.now)) }
{
    let (number, _) = text.split_at(whole);
    match integer_value(number, text) {
        Some(value) => Ok(Some((SpelledValue::I64(value), &text[whole + 1..]))),
        None => Err(SpelledFault::IntegerValueInvalid {
            source: side_of(number),
            value: number,
        }),
    }
}

// Reads digits and `u` at the start of `text`, and returns the rest with them. There are `whole` digits.
#[tactic(auto, using(crate::proofs::lemmas::fields::ReadingLemmas::unsigned_steps))]
#[inline(always)]
fn unsigned<'a>(text: &'a str, whole: usize) -> Front<'a, SpelledValue<'a>>
    requires whole { whole ≡ digits_len text.now }
    requires some { 0 < whole }
    requires mark { slice_index text.now whole ≡ letter_u }
    ensures value { GivesSpelled spelled_value result (unsigned_at text.now) }
    ensures less { IfOk result (λ o. IfSome o (λ p. length p.1.now < length text.now)) }
{
    let (number, _) = text.split_at(whole);
    match unsigned_value(number, text) {
        Some(value) => Ok(Some((SpelledValue::U64(value), &text[whole + 1..]))),
        None => Err(SpelledFault::UIntegerValueInvalid {
            source: OutOfRange::Above,
            value: number,
        }),
    }
}

// Reads a number at the start of `text`, by the byte after its integer, and returns the rest with it.
#[tactic(auto, using(crate::proofs::lemmas::fields::ReadingLemmas::which_number))]
#[inline(always)]
fn number<'a>(text: &'a str) -> Front<'a, SpelledValue<'a>>
    ensures value { GivesSpelled spelled_value result (integer_at text.now otherwise unsigned_at text.now otherwise float_at text.now) }
    ensures less { IfOk result (λ o. IfSome o (λ p. length p.1.now < length text.now)) }
{
    let whole = integer_len(text);
    if whole == 0 {
        return Ok(None);
    }
    let bytes = text.as_bytes();
    if has_byte_at(bytes, whole, b'i') {
        return integer(text, whole);
    }
    if has_byte_at(bytes, whole, b'u') && !has_byte_at(bytes, 0, b'-') {
        return unsigned(text, whole);
    }
    let Some((value, rest)) = FloatText::front(text, whole) else {
        return Ok(None);
    };
    Ok(Some((SpelledValue::F64(value), rest)))
}

// Reads a text between quotes at the start of `text`, and returns the rest with it.
#[inline(always)]
fn string<'a>(text: &'a str) -> Front<'a, SpelledValue<'a>>
    ensures value { GivesSpelled spelled_value result (string_at text.now) }
    ensures less { IfOk result (λ o. IfSome o (λ p. length p.1.now < length text.now)) }
{
    let Some(opened) = strip_byte(b'"', text) else {
        return Ok(None);
    };
    let (token, closing) = take_token(TokenKind::String, opened);
    let Some(rest) = strip_byte(b'"', closing) else {
        return Ok(None);
    };
    Ok(Some((SpelledValue::String(Spelled { token }), rest)))
}

// Reads a Boolean at the start of `text`, and returns the rest with it.
#[tactic(auto, using(crate::proofs::lemmas::fields::ReadingLemmas::boolean_steps))]
#[inline(always)]
fn boolean<'a>(text: &'a str) -> Front<'a, SpelledValue<'a>>
    ensures value { GivesSpelled spelled_value result (boolean_at true true_words text.now otherwise boolean_at false false_words text.now) }
    ensures less { IfOk result (λ o. IfSome o (λ p. length p.1.now < length text.now)) }
{
    let Some((value, len)) = longest_word(text.as_bytes()) else {
        return Ok(None);
    };
    Ok(Some((SpelledValue::Boolean(value), &text[len..])))
}

/// Reads the value at the start of `text`, and returns it as it is spelled, with the rest. Returns `None` if no value is there.
///
/// # Errors
///
/// `IntegerValueInvalid` or `UIntegerValueInvalid` if an integer is out of the range of its type.
///
/// ```text
/// value("64i 5")  gives  I64(64), and the rest " 5"
/// ```
#[tactic(auto, using(crate::proofs::lemmas::fields::ReadingLemmas::value_forms))]
#[inline(always)]
pub fn value<'a>(text: &'a str) -> Front<'a, SpelledValue<'a>>
    ensures value { GivesSpelled spelled_value result (value text.now) }
    ensures less { IfOk result (λ o. IfSome o (λ p. length p.1.now < length text.now)) }
{
    let bytes = text.as_bytes();
    if begins_number(bytes) {
        return number(text);
    }
    if has_byte_at(bytes, 0, b'"') {
        return string(text);
    }
    boolean(text)
}

/// Reads the timestamp at the start of `text`, which is spaces and a number. Returns the number, and the rest after it and after the
/// spaces that follow it. Returns no number, and the whole text, if the spaces or the number are missing.
///
/// # Errors
///
/// `TimestampValueInvalid` if the number is out of the range of `i64`.
///
/// ```text
/// timestamp(" -5  ")  gives  Some(-5), and the rest ""
/// ```
#[tactic(auto, using(crate::proofs::lemmas::fields::ReadingLemmas::integer_steps))]
#[inline(always)]
pub fn timestamp<'a>(text: &'a str) -> Result<(Option<i64>, &'a str), SpelledFault<'a>>
    ensures { GivesSpelledRead (λ t. t) result (timestamp text.now) }
{
    let after = trim_start_spaces(text);
    let (number, rest) = after.split_at(integer_len(after));
    if number.is_empty() || after.len() == text.len() {
        return Ok((None, text));
    }
    match integer_value(number, after) {
        Some(timestamp) => Ok((Some(timestamp), trim_start_spaces(rest))),
        None => Err(SpelledFault::TimestampValueInvalid {
            source: side_of(number),
            value: number,
        }),
    }
}
