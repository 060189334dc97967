//! Literals, strings and values, as InfluxDB 1.x reads them.

ghost use Rattle.std.specs.Prelude.{◌≡◌, ◌≤◌, ◌<◌, ◌==◌, ◌||◌, if◌then◌else◌, false, true, drop, length, take, not, IfSome, MatchOption, IfOk};
ghost use Rattle.std.specs.{Float.Parse.parse_float, Float.binary64};
ghost use Rattle.lp_format.specs.format.{◌otherwise◌, boolean_at, false_words, float, integer_at, miss, reads, true_words, unsigned_at, word_len};
ghost use Rattle.lp_format.specs.format.{quotable, without_escapes};
ghost use Rattle.lp_portable.specs.format.Portable.{is_finite_number};
ghost use Rattle.lp_influx.specs.format.InfluxFields.{ended, has_value, influx_string, influx_value, is_literal_end, literal, value_text};
ghost use Rattle.lp_influx.specs.code.Read.{Gives, spelled_value};

use crate::names::without_each;
use crate::numbers::{digits_len, float_len, integer_len, pointed_len};
use crate::read::{Spelled, is_one_of, strip_byte};
use std::alloc::{AllocError, Global};

// Returns true if the text is empty, or begins with a comma or a space.
fn is_literal_end(text: &[u8]) -> bool
    ensures { result ≡ is_literal_end text.now }
{
    match text {
        [] => true,
        [byte, ..] => is_one_of(b", ", *byte),
    }
}

// Returns true if the number nearest to a literal is finite.
fn is_finite(literal: &[u8]) -> bool
    ensures { result ≡ is_finite_number (parse_float binary64 literal.now) }
{
    match fast_float::parse::<f64, &[u8]>(literal) {
        Ok(number) => number.is_finite(),
        Err(_) => false,
    }
}

// Returns an integer that ends where it was read, and the text after it.
#[tactic(auto, using(crate::proofs::Literals::integer_steps))]
fn integer<'a>(text: &'a [u8]) -> Option<(Spelled<'a>, &'a [u8])>
    ensures value { Gives spelled_value result (ended (integer_at text.now)) }
    ensures less { IfSome result (λ p. length p.1.now ≤ length text.now) }
{
    let (number, after) = text.split_at(integer_len(text));
    if number.is_empty() {
        return None;
    }
    let rest = strip_byte(b'i', after)?;
    if !is_literal_end(rest) {
        return None;
    }
    match fast_float::parse_i64(number) {
        Ok(value) => Some((Spelled::Integer(value), rest)),
        Err(_) => None,
    }
}

// Returns a float of this length that ends there and is finite, and the text after it.
fn float<'a>(len: usize, text: &'a [u8]) -> Option<(Spelled<'a>, &'a [u8])>
    requires { len ≤ length text.now }
    ensures value { Gives spelled_value result (ended (if len == 0 then miss else reads (float (take len text.now)) (drop len text.now))) }
    ensures less { IfSome result (λ p. length p.1.now ≤ length text.now) }
{
    let (literal, rest) = text.split_at(len);
    if literal.is_empty() || !is_literal_end(rest) || !is_finite(literal) {
        return None;
    }
    Some((Spelled::Float(literal), rest))
}

// Returns the boolean of the longest word at the start, and the length of this word.
fn longest_word(text: &[u8]) -> Option<(bool, usize)>
    ensures value { MatchOption result ((word_len true_words text.now ≡ 0) × (word_len false_words text.now ≡ 0)) (λ word.
        (word_len true_words text.now ≡ if word.0 then word.1 else 0) × (word_len false_words text.now ≡ if word.0 then 0 else word.1)) }
    ensures within { IfSome result (λ word. (0 < word.1) × (word.1 ≤ length text.now)) }
{
    match text {
        [b't' | b'T', b'r', b'u', b'e', ..] | [b'T', b'R', b'U', b'E', ..] => Some((true, 4)),
        [b'f' | b'F', b'a', b'l', b's', b'e', ..] | [b'F', b'A', b'L', b'S', b'E', ..] => Some((
            false, 5,
        )),
        [b't' | b'T', ..] => Some((true, 1)),
        [b'f' | b'F', ..] => Some((false, 1)),
        _ => None,
    }
}

// Returns a boolean that ends where it was read, and the text after it.
#[tactic(auto, unfolding(lp_format::specs::format::Values::boolean_at))]
fn boolean<'a>(text: &'a [u8]) -> Option<(Spelled<'a>, &'a [u8])>
    ensures value { Gives spelled_value result (ended (boolean_at true true_words text.now) otherwise ended (boolean_at false false_words text.now)) }
    ensures less { IfSome result (λ p. length p.1.now ≤ length text.now) }
{
    let (value, len) = longest_word(text)?;
    let rest = &text[len..];
    if !is_literal_end(rest) {
        return None;
    }
    Some((Spelled::Boolean(value), rest))
}

// Returns a number or a boolean, and the text after it.
#[tactic(auto, unfolding(crate::specs::format::InfluxFields::literal, lp_format::specs::format::Values::float_at))]
fn literal<'a>(text: &'a [u8]) -> Option<(Spelled<'a>, &'a [u8])>
    ensures value { Gives spelled_value result (literal text.now) }
    ensures less { IfSome result (λ p. length p.1.now ≤ length text.now) }
{
    if let Some(read) = integer(text) {
        return Some(read);
    }
    if let Some(read) = float(float_len(text), text) {
        return Some(read);
    }
    if let Some(read) = float(pointed_len(text), text) {
        return Some(read);
    }
    boolean(text)
}

/// Returns true if a value is at the start of the text: the quote of a string, or a literal.
pub(crate) fn has_value(text: &[u8]) -> bool
    ensures { result ≡ has_value text.now }
{
    matches!(text, [b'"', ..]) || literal(text).is_some()
}

// Returns an unsigned integer that ends where it was read, and the text after it.
#[tactic(auto, using(crate::proofs::Literals::unsigned_steps))]
fn unsigned<'a>(text: &'a [u8]) -> Option<(Spelled<'a>, &'a [u8])>
    ensures value { Gives spelled_value result (ended (unsigned_at text.now)) }
    ensures less { IfSome result (λ p. length p.1.now ≤ length text.now) }
{
    let (number, after) = text.split_at(digits_len(text));
    if number.is_empty() {
        return None;
    }
    let rest = strip_byte(b'u', after)?;
    if !is_literal_end(rest) {
        return None;
    }
    match fast_float::parse_u64(number) {
        Ok(value) => Some((Spelled::Unsigned(value), rest)),
        Err(_) => None,
    }
}

// Returns the number of bytes before the first comma outside of quotes, where a backslash escapes a quote or a backslash.
#[tactic(auto, unfolding(crate::specs::format::InfluxFields::value_text))]
fn value_len(text: &[u8]) -> usize
    ensures value { result ≡ length (value_text false false text.now) }
    ensures within { result ≤ length text.now }
{
    let (mut quoted, mut escaped) = (false, false);
    let mut left = text;
    let mut len = 0;
    while let [byte, rest @ ..] = left {
        if !quoted && *byte == b',' {
            return len;
        }
        quoted = quoted != (!escaped && *byte == b'"');
        escaped = !escaped && *byte == b'\\';
        len += 1;
        left = rest;
    }
    len
}

// Returns a string: the text of the value without its first and its last byte.
#[tactic(auto, using(crate::proofs::Reader::string_is))]
fn influx_string<'a>(text: &'a [u8]) -> Option<(Spelled<'a>, &'a [u8])>
    ensures value { Gives spelled_value result (influx_string text.now) }
    ensures less { IfSome result (λ p. length p.1.now ≤ length text.now) }
{
    let (whole, rest) = text.split_at(value_len(text));
    let [_, body @ .., _] = whole else {
        return None;
    };
    Some((Spelled::Quoted(body), rest))
}

/// Returns a value, and the text after it.
#[tactic(auto, unfolding(crate::specs::format::InfluxFields::influx_value))]
pub(crate) fn influx_value<'a>(text: &'a [u8]) -> Option<(Spelled<'a>, &'a [u8])>
    ensures value { Gives spelled_value result (influx_value text.now) }
    ensures less { IfSome result (λ p. length p.1.now ≤ length text.now) }
{
    if matches!(text, [b'"', ..]) {
        return influx_string(text);
    }
    if let Some(read) = literal(text) {
        return Some(read);
    }
    unsigned(text)
}

/// Returns the text of a string: a backslash before a quote or a backslash is dropped.
#[tactic(auto, using(crate::proofs::Reader::each_escape))]
pub(crate) fn without_escapes(alloc: Global, body: &[u8]) -> Result<Vec<u8>, AllocError>
    ensures { IfOk result (λ text. text.items ≡ without_escapes quotable body.now) }
{
    without_each(alloc, b"\"\\", body)
}
