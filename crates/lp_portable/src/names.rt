//! Finds the clauses that the spelling of the names of a line breaks. Takes no memory.

ghost use Rattle.std.specs.Prelude.{◌≡◌, ◌<◌, ◌+◌, ◌||◌, [], ◌∷◌, ℕ, List, length, nat_lt};
ghost use Rattle.std.specs.List.{list_any};
ghost use Rattle.lp_format.specs.format.{Line, Pair, after_comma, is_one_of, backslash, comma, equals, quote, some_tags};
ghost use Rattle.lp_values.specs.code.Outcomes.{kind_of};
ghost use Rattle.lp_portable.specs.format.Portable.{has_comma, has_escape, has_sign};
ghost use Rattle.lp_portable.specs.format.Spellings.{AreAfterCommas, AreJoined, IsSpelled, Spelling, holds, key_text, name_text, tag_text};
ghost use Rattle.lp_portable.specs.code.Walks.{GivesReading, either_key, either_tag, key_breaks, keys_breaks, name_breaks, spelled_pair, tag_breaks};
ghost use Rattle.lp_portable.specs.code.Walks.{tags_breaks};

use lp_scan::trim::{strip_byte, trim_start_spaces};
use lp_values::names::NameKind;
use lp_values::spelled_parts;

/// The clauses that the spellings of tags break.
#[derive(Clone, Copy)]
pub(crate) struct TagBreaks {
    /// A backslash is escaped.
    pub escape: bool,
    /// A comma is bare in a key.
    pub comma: bool,
    /// An equals sign is bare in a value.
    pub sign: bool,
}

/// The clauses that the spellings of field keys break.
#[derive(Clone, Copy)]
pub(crate) struct KeyBreaks {
    /// A backslash or a quote is escaped.
    pub escape: bool,
    /// A comma is bare.
    pub comma: bool,
    /// The series and the key are too long together.
    pub long: bool,
}

/// The clauses that the spellings of the names of a line break.
#[derive(Clone, Copy)]
pub(crate) struct NameBreaks {
    /// An equals sign is escaped in the measurement.
    pub equals: bool,
    /// A backslash or a quote is escaped in the measurement.
    pub escape: bool,
    pub tags: TagBreaks,
    pub keys: KeyBreaks,
}

// Returns true if a byte is among these bytes.
#[inline(always)]
fn is_one_of(bytes: &[u8], byte: u8) -> bool
    ensures { result ≡ is_one_of bytes.now byte }
{
    bytes.contains(&byte)
}

// Returns true if a spelling holds one of some bytes escaped, or one of other bytes bare.
#[tactic(auto, unfolding(crate::specs::format::Spellings::holds))]
fn holds(escaped: &[u8], bare: &[u8], spelling: &[u8]) -> bool
    ensures { result ≡ holds escaped.now bare.now spelling.now }
{
    let mut left = spelling;
    while let [byte, next, rest @ ..] = left {
        if *byte == b'\\' {
            if is_one_of(escaped, *next) {
                return true;
            }
            left = rest;
        } else {
            if is_one_of(bare, *byte) {
                return true;
            }
            left = &left[1..];
        }
    }
    match left {
        [byte, ..] => is_one_of(bare, *byte),
        [] => false,
    }
}

// Returns the name at the start of a text as it is spelled, and the rest of the text.
#[tactic(auto, using(std::proofs::lemmas::Grind::common_steps, crate::proofs::Spelled::name_steps))]
#[inline(always)]
fn spelled_name<'a>(kind: NameKind, text: &'a str) -> Option<(&'a [u8], &'a str)>
    ensures { GivesReading (λ s. s.now) result (name_text (kind_of kind) text.now) }
{
    let Ok(Some((_, rest))) = spelled_parts::name(kind, text) else {
        return None;
    };
    let spelling = &text.as_bytes()[..text.len() - rest.len()];
    Some((spelling, rest))
}

// Returns the tag after a comma as it is spelled, and the rest of the text.
#[inline(always)]
fn spelled_tag<'a>(text: &'a str) -> Option<((&'a [u8], &'a [u8]), &'a str)>
    ensures { GivesReading spelled_pair result (after_comma tag_text text.now) }
{
    let tag = strip_byte(b',', text)?;
    let (key, rest) = spelled_name(NameKind::TagKey, tag)?;
    let rest = strip_byte(b'=', rest)?;
    let (value, rest) = spelled_name(NameKind::TagValue, rest)?;
    Some(((key, value), rest))
}

// Returns the key of a field as it is spelled, and the rest of the text after the field.
#[inline(always)]
fn spelled_key<'a>(text: &'a str) -> Option<(&'a [u8], &'a str)>
    ensures { GivesReading (λ s. s.now) result (key_text text.now) }
{
    let (key, rest) = spelled_name(NameKind::FieldKey, text)?;
    let rest = strip_byte(b'=', rest)?;
    let Ok(Some((_, rest))) = spelled_parts::value(rest) else {
        return None;
    };
    Some((key, rest))
}

// Returns the key of a field after a comma as it is spelled, and the rest of the text after the field.
#[inline(always)]
fn next_key<'a>(text: &'a str) -> Option<(&'a [u8], &'a str)>
    ensures { GivesReading (λ s. s.now) result (after_comma key_text text.now) }
{
    let field = strip_byte(b',', text)?;
    spelled_key(field)
}

// Returns the clauses that one tag breaks.
fn tag_breaks(key: &[u8], value: &[u8]) -> TagBreaks
    ensures { result ≡ tag_breaks (record { key = key.now; value = value.now }) }
{
    TagBreaks {
        escape: holds(b"\\", b"", key) || holds(b"\\", b"", value),
        comma: holds(b"", b",", key),
        sign: holds(b"", b"=", value),
    }
}

impl TagBreaks {
    // Returns the clauses that either finding has.
    fn or(self, other: TagBreaks) -> TagBreaks
        ensures { result ≡ either_tag self other }
    {
        TagBreaks {
            escape: self.escape || other.escape,
            comma: self.comma || other.comma,
            sign: self.sign || other.sign,
        }
    }
}

impl KeyBreaks {
    // Returns the clauses that either finding has.
    fn or(self, other: KeyBreaks) -> KeyBreaks
        ensures { result ≡ either_key self other }
    {
        KeyBreaks {
            escape: self.escape || other.escape,
            comma: self.comma || other.comma,
            long: self.long || other.long,
        }
    }
}

// Returns the clauses that one field key breaks, after a series of this length.
fn key_breaks(series_len: usize, key: &[u8]) -> KeyBreaks
    ensures { result ≡ key_breaks series_len key.now }
{
    KeyBreaks {
        escape: holds(b"\\\"", b"", key),
        comma: holds(b"", b",", key),
        long: series_len.saturating_add(4).saturating_add(key.len()) > 65_535,
    }
}

// Returns the clauses that the tags after a measurement break, and the rest of the text. There are as many tags as `count` says.
fn tags_breaks(count: usize, text: &str) -> (TagBreaks, &str)
    ensures { (tags : List (Pair (List ℕ) (List ℕ))) (rest : List ℕ) → AreAfterCommas tag_text tags text.now rest
        → length tags ≡ count → (result.0 ≡ tags_breaks tags) × (result.1.now ≡ rest) }
{
    let mut found = TagBreaks {
        escape: false,
        comma: false,
        sign: false,
    };
    let mut rest = text;
    let mut left = count;
    while left > 0 {
        let Some(((key, value), after)) = spelled_tag(rest) else {
            return (found, rest);
        };
        found = found.or(tag_breaks(key, value));
        rest = after;
        left -= 1;
    }
    (found, rest)
}

// Returns the clauses that field keys after a comma break, together with the clauses that were found before. There are as many
// keys as `count` says.
fn more_breaks(series_len: usize, count: usize, first: KeyBreaks, text: &str) -> KeyBreaks
    ensures { (keys : List (List ℕ)) (rest : List ℕ) → AreAfterCommas key_text keys text.now rest
        → length keys ≡ count → result ≡ either_key first (keys_breaks series_len keys) }
{
    let mut found = first;
    let mut rest = text;
    let mut left = count;
    while left > 0 {
        let Some((key, after)) = next_key(rest) else {
            return found;
        };
        found = found.or(key_breaks(series_len, key));
        rest = after;
        left -= 1;
    }
    found
}

// Returns the clauses that field keys break. There are as many keys as `count` says.
fn keys_breaks(series_len: usize, count: usize, text: &str) -> KeyBreaks
    ensures { (keys : List (List ℕ)) (rest : List ℕ) → AreJoined key_text keys text.now rest
        → length keys ≡ count → 0 < count → result ≡ keys_breaks series_len keys }
{
    let none = KeyBreaks {
        escape: false,
        comma: false,
        long: false,
    };
    let Some((key, rest)) = spelled_key(text) else {
        return none;
    };
    let first = key_breaks(series_len, key);
    more_breaks(series_len, count.saturating_sub(1), first, rest)
}

/// Returns the clauses that the spellings of the names of a trimmed line break. The line has this many tags and fields, and a
/// series of this length.
///
/// ```text
/// of  m,a=b=c f=1  the tags have  sign
/// ```
pub(crate) fn name_breaks(series_len: usize, tags: usize, fields: usize, line: &str) -> NameBreaks
    ensures { (read : Line) (names : Spelling) → IsSpelled line.now read names → tags ≡ length (some_tags read.tags)
        → fields ≡ length read.fields → 0 < fields → result ≡ name_breaks series_len names }
{
    let Some((measurement, rest)) = spelled_name(NameKind::Measurement, line) else {
        return NameBreaks {
            equals: false,
            escape: false,
            tags: tags_breaks(0, line).0,
            keys: keys_breaks(0, 0, line),
        };
    };
    let (of_tags, rest) = tags_breaks(tags, rest);
    NameBreaks {
        equals: holds(b"=", b"", measurement),
        escape: holds(b"\\\"", b"", measurement),
        tags: of_tags,
        keys: keys_breaks(series_len, fields, trim_start_spaces(rest)),
    }
}
