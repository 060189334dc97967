//! Names and tags, as InfluxDB 1.x reads them.

ghost use Rattle.std.specs.Prelude.{◌≡◌, ◌≤◌, ◌<◌, false, drop, length, map, IfOk, IfSome};
ghost use Rattle.lp_format.specs.format.{after_comma, reads, without_escapes};
ghost use Rattle.lp_portable.specs.format.Spellings.{without_each};
ghost use Rattle.lp_influx.specs.format.InfluxNames.{influx_tag, influx_tags, some_of, until, value_front};
ghost use Rattle.lp_influx.specs.code.Read.{Gives, spelled_tag};

use crate::read::{SpelledTag, is_one_of, strip_byte};
use std::alloc::{AllocError, Global};

// The bytes that end the key or the value of a tag.
const TAG_ENDS: &[u8] = b",= ";

// Returns the number of bytes before the first of these bytes that has no backslash directly before it.
#[tactic(auto, unfolding(crate::specs::format::InfluxNames::until))]
fn until_len(ends: &[u8], text: &[u8]) -> usize
    ensures value { result ≡ length (until ends.now false text.now) }
    ensures within { result ≤ length text.now }
{
    let mut left = text;
    let mut escaped = false;
    let mut len = 0;
    while let [byte, rest @ ..] = left {
        if !escaped && is_one_of(ends, *byte) {
            return len;
        }
        escaped = *byte == b'\\';
        len += 1;
        left = rest;
    }
    len
}

/// Returns the text before the first of these bytes that has no backslash directly before it, and the rest of the text.
#[tactic(auto, using(crate::proofs::Reader::until_front))]
pub(crate) fn until<'a>(ends: &[u8], text: &'a [u8]) -> (&'a [u8], &'a [u8])
    ensures front { result.0.now ≡ until ends.now false text.now }
    ensures rest { result.1.now ≡ drop (length (until ends.now false text.now)) text.now }
    ensures less { length result.1.now ≤ length text.now }
{
    text.split_at(until_len(ends, text))
}

/// Returns the text before the first of these bytes that has no backslash directly before it, and the rest of the text, if any
/// byte comes before it.
pub(crate) fn some_until<'a>(ends: &[u8], text: &'a [u8]) -> Option<(&'a [u8], &'a [u8])>
    ensures value { Gives (λ s. s.now) result (some_of (until ends.now false text.now) text.now) }
    ensures less { IfSome result (λ p. length p.1.now ≤ length text.now) }
{
    let (front, rest) = until(ends, text);
    if front.is_empty() {
        return None;
    }
    Some((front, rest))
}

// Returns the length of the value of a tag. An equals sign may be its first byte.
#[tactic(auto, unfolding(crate::specs::format::InfluxNames::until))]
fn value_len(text: &[u8]) -> usize
    ensures value { result ≡ length (value_front text.now) }
    ensures within { result ≤ length text.now }
{
    match text {
        [b'=', after @ ..] => 1 + until_len(TAG_ENDS, after),
        _ => until_len(TAG_ENDS, text),
    }
}

// Returns the value of a tag, and the text after it.
#[tactic(auto, using(crate::proofs::Reader::value_is_front))]
fn tag_value<'a>(text: &'a [u8]) -> Option<(&'a [u8], &'a [u8])>
    ensures value { Gives (λ s. s.now) result (some_of (value_front text.now) text.now) }
    ensures less { IfSome result (λ p. length p.1.now ≤ length text.now) }
{
    let (value, rest) = text.split_at(value_len(text));
    if value.is_empty() {
        return None;
    }
    Some((value, rest))
}

// Returns a tag, and the text after it.
fn influx_tag<'a>(text: &'a [u8]) -> Option<(SpelledTag<'a>, &'a [u8])>
    ensures value { Gives spelled_tag result (influx_tag text.now) }
    ensures less { IfSome result (λ p. length p.1.now ≤ length text.now) }
{
    let (key, rest) = some_until(TAG_ENDS, text)?;
    let rest = strip_byte(b'=', rest)?;
    let (value, rest) = tag_value(rest)?;
    Some(((key, value), rest))
}

// Returns the tag after a comma, and the text after it.
fn next_tag<'a>(text: &'a [u8]) -> Option<(SpelledTag<'a>, &'a [u8])>
    ensures value { Gives spelled_tag result (after_comma influx_tag text.now) }
    ensures less { IfSome result (λ p. length p.1.now < length text.now) }
{
    influx_tag(strip_byte(b',', text)?)
}

/// Returns the tags after a measurement as they are spelled, and the text after them.
pub(crate) fn influx_tags<'a>(
    alloc: Global,
    text: &'a [u8],
) -> Result<(Vec<SpelledTag<'a>>, &'a [u8]), AllocError>
    ensures value { IfOk result (λ got. influx_tags text.now ≡ reads (map spelled_tag got.0.items) got.1.now) }
    ensures less { IfOk result (λ got. length got.1.now ≤ length text.now) }
{
    let mut tags = Vec::new(alloc);
    let mut left = text;
    while let Some((tag, rest)) = next_tag(left) {
        tags.push(tag)?;
        left = rest;
    }
    Ok((tags, left))
}

/// Returns the logical text of a name: a backslash before one of these bytes is dropped.
#[tactic(auto, unfolding(lp_portable::specs::format::Spellings::without_each))]
pub(crate) fn without_each(alloc: Global, known: &[u8], name: &[u8]) -> Result<Vec<u8>, AllocError>
    ensures { IfOk result (λ text. text.items ≡ without_each known.now name.now) }
{
    let mut text = Vec::new(alloc);
    let mut left = name;
    while let [byte, rest @ ..] = left {
        match rest {
            [next, after @ ..] if *byte == b'\\' && is_one_of(known, *next) => {
                text.push(*next)?;
                left = after;
            }
            _ => {
                text.push(*byte)?;
                left = rest;
            }
        }
    }
    Ok(text)
}
