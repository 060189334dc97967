//! The place where reading a line stops.

ghost use Rattle.std.specs.Prelude.{◌≡◌, ◌+◌, ◌<◌, ◌≤◌, List, length, IfSome};
ghost use Rattle.lp_format.specs.format.{timestamp, Pair, Text, Value};
ghost use Rattle.lp_split.specs.code.{rules_of};
ghost use Rattle.lp_events.specs.code.Stops.{AreMany, Leaves, after_time, end_stop, fields_stop, last_stop, late_tag_stop, most};
ghost use Rattle.lp_events.specs.code.Stops.{next_pair, reading_stop, series_part, stop_of};

use crate::events::{field, rest_after};
use crate::pull::{next_field, next_tag};
use lp_scan::trim::{strip_byte, trim_start_spaces};
use lp_split::Dialect;
use lp_values::names::NameKind;
use lp_values::spelled_parts::{self, name};

/// A part of a line. Tags and fields are counted from 1 on.
#[derive(Clone, Copy)]
pub enum LinePart {
    Measurement,
    TagKey(usize),
    TagValue(usize),
    FieldKey(usize),
    FieldValue(usize),
    Timestamp,
}

/// The place where reading a line stops.
#[derive(Clone, Copy)]
pub struct Stop<'a> {
    /// The part that does not read, or the last part if all parts read.
    pub part: LinePart,
    /// The text that is left of the line.
    pub rest: &'a str,
}

/// The kind of a pair of a key and a value: a tag or a field.
#[derive(Clone, Copy)]
pub(crate) enum PairKind {
    Tag,
    Field,
}

// Returns the place where the tag or the field of this number stops, which does not read: its key, the place of its equals sign,
// or its value.
fn pair_stop(kind: PairKind, number: usize, text: &str) -> Stop<'_>
    ensures { (result.part, result.rest.now) ≡ stop_of kind number text.now }
{
    let (kind, key, value) = match kind {
        PairKind::Tag => (
            NameKind::TagKey,
            LinePart::TagKey(number),
            LinePart::TagValue(number),
        ),
        PairKind::Field => (
            NameKind::FieldKey,
            LinePart::FieldKey(number),
            LinePart::FieldValue(number),
        ),
    };
    let Ok(Some((_, rest))) = name(kind, text) else {
        return Stop {
            part: key,
            rest: text,
        };
    };
    match strip_byte(b'=', rest) {
        Some(rest) => Stop { part: value, rest },
        None => Stop { part: key, rest },
    }
}

// Returns the rest after a comma and a tag or a field, or `None` if they do not read.
fn after_next(kind: PairKind, text: &str) -> Option<&str>
    ensures left { Leaves (next_pair kind text.now) result }
    ensures less { IfSome result (λ rest. length rest.now < length text.now) }
{
    match kind {
        PairKind::Tag => Some(next_tag(text).ok()??.1),
        PairKind::Field => Some(next_field(text).ok()??.1),
    }
}

// Returns how many tags or fields are at the start of a text, each after a comma, and the rest after them.
#[tactic(auto, using(crate::proofs::lemmas::stops::MostParts::most_steps))]
fn most_pairs(kind: PairKind, text: &str) -> (usize, &str)
    ensures many { AreMany result (most (next_pair kind) (length text.now) text.now) }
    ensures fits { result.0 + length result.1.now ≤ length text.now }
{
    let mut count = 0;
    let mut rest = text;
    while let Some(after) = after_next(kind, rest) {
        count += 1;
        rest = after;
    }
    (count, rest)
}

// Returns the last part of a series with this number of tags.
fn series_part(tags: usize) -> LinePart
    ensures { result ≡ series_part tags }
{
    match tags {
        0 => LinePart::Measurement,
        number => LinePart::TagValue(number),
    }
}

// Returns the place where reading stops if no tag reads after `tags` tags and a comma: in the tag that is fatal or the first, and
// else at the comma.
fn late_tag_stop<'a>(tags: usize, rest: &'a str, place: &'a str) -> Stop<'a>
    requires { tags < usize.MAX }
    ensures { (result.part, result.rest.now) ≡ late_tag_stop tags rest.now place.now }
{
    let stop = pair_stop(PairKind::Tag, tags + 1, place);
    if tags == 0 || crate::events::tag(place).is_err() {
        return stop;
    }
    Stop {
        part: stop.part,
        rest,
    }
}

// Returns the place where reading stops if `left` is left after the fields, and `part` is the part before it.
fn end_stop(part: LinePart, left: &str) -> Stop<'_>
    ensures { (result.part, result.rest.now) ≡ end_stop part left.now }
{
    let after = trim_start_spaces(left);
    let part = if after.len() == left.len() {
        part
    } else {
        LinePart::Timestamp
    };
    let rest = match spelled_parts::timestamp(left) {
        Ok((_, rest)) => rest,
        Err(_) => after,
    };
    Stop { part, rest }
}

// Returns the place where reading stops after `fields` fields, if no other field reads.
fn last_stop(dialect: Dialect, fields: usize, rest: &str) -> Stop<'_>
    requires { fields < usize.MAX }
    ensures { (all : List (Pair Text (Value Text))) → fields ≡ length all
        → (result.part, result.rest.now) ≡ last_stop (rules_of dialect) all rest.now }
{
    let left = rest_after(dialect, fields == 1, rest);
    let Some(place) = strip_byte(b',', rest) else {
        return end_stop(LinePart::FieldValue(fields), left);
    };
    let stop = pair_stop(PairKind::Field, fields + 1, place);
    if field(place).is_err() {
        return stop;
    }
    end_stop(stop.part, left)
}

// Returns the place where reading stops from the fields on.
fn fields_stop(dialect: Dialect, text: &str) -> Stop<'_>
    ensures { (result.part, result.rest.now) ≡ fields_stop (rules_of dialect) text.now }
{
    let Ok(Some((_, rest))) = field(text) else {
        return pair_stop(PairKind::Field, 1, text);
    };
    let (others, rest) = most_pairs(PairKind::Field, rest);
    last_stop(dialect, others + 1, rest)
}

/// Returns the place where reading the trimmed text `line` stops: the part, and the text that is left of the line. If the whole
/// line reads, no text is left. It reads the line once, and takes no memory.
///
/// ```text
/// m,t=x a=tru  stops in  FieldValue(1), before  ru
/// m,t=x,u=     stops in  TagValue(2), before  ,u=
/// m,t=x        stops in  TagValue(1), at the end
/// ```
#[cold]
#[inline(never)]
pub fn reading_stop(dialect: Dialect, line: &str) -> Stop<'_>
    ensures { (result.part, result.rest.now) ≡ reading_stop (rules_of dialect) line.now }
{
    let Ok(Some((_, start))) = name(NameKind::Measurement, line) else {
        return Stop {
            part: LinePart::Measurement,
            rest: line,
        };
    };
    let (tags, rest) = most_pairs(PairKind::Tag, start);
    if let Some(place) = strip_byte(b',', rest) {
        return late_tag_stop(tags, rest, place);
    }
    if strip_byte(b' ', rest).is_none() {
        let part = series_part(tags);
        return Stop { part, rest };
    }
    fields_stop(dialect, trim_start_spaces(rest))
}
