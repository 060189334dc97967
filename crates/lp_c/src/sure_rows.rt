//! Rows whose lines surely break no clause but those about their time, their tags and their length, as their places tell.
//!
//! A row that was filled by the strict rules tells where the names and values of its line lie. So these are looked at where they lie, and
//! the line is not read again. A row that is not sure is told by a look at its text.

ghost use Rattle.std.specs.Prelude.{◌≡◌, ◌≤◌, ◌<◌, ◌+◌, IfSome, bytes_eq, drop, false, length, map, take, true};
ghost use Rattle.std.specs.List.{list_any};
ghost use Rattle.lp_offsets.specs.OffsetBlocks.{timestamp_in};
ghost use Rattle.lp_c.specs.SureRows.{AreSureParts, IsShownRow, IsSureRow, SurePart, SureValue, key_in, lies_in};
ghost use Rattle.lp_c.specs.Verdicts.{IsVerdict};

use lp_offsets::enums::{Answer, Kind};
use lp_offsets::offsets::OffsetRow;
use lp_offsets::placed::{OffsetPart, Span};
use lp_portable::Limits as Most;
use lp_portable::keys::rises;
use lp_portable::sure::{begins_own, is_short_literal, is_sure_key, sure_bits};

// How many parts are compared with one another.
const MOST_COMPARED: usize = 32;

// The bytes at a place, if it is one of the text.
#[inline(always)]
fn bytes_in(text: &[u8], copied: u16, span: Span) -> Option<&[u8]>
    ensures { IfSome result (λ bytes. (copied ≡ 0) × (bytes.now ≡ lies_in text.now span) × (span.at + span.len ≤ length text.now)) }
{
    let at = span.at as usize;
    let len = span.len as usize;
    if copied != 0 || text.len() < at + len {
        return None;
    }
    Some(&text[at..at + len])
}

// Whether the value of a part surely breaks no clause.
#[inline(always)]
fn is_sure_value(text: &[u8], part: &OffsetPart) -> bool
    ensures { result ≡ true → SureValue text.now part.now }
{
    if part.kind == Kind::Float.number() {
        return match bytes_in(text, part.text_copied, part.text) {
            Some(literal) => is_short_literal(literal),
            None => false,
        };
    }
    part.kind != Kind::Unsigned.number()
}

// The key of a part that surely breaks no clause.
#[inline(always)]
fn sure_key<'a>(text: &'a [u8], part: &OffsetPart) -> Option<&'a [u8]>
    ensures { IfSome result (λ key. (key.now ≡ key_in text.now part.now) × SurePart text.now part.now) }
{
    let key = bytes_in(text, part.key_copied, part.key)?;
    let fits = part.kind != Kind::Tag.number() || key.len() <= 256;
    if fits && is_sure_key(key) && is_sure_value(text, part) {
        Some(key)
    } else {
        None
    }
}

// Whether parts surely break no clause, and their keys rise.
fn are_risen(text: &[u8], parts: &[OffsetPart]) -> bool
    ensures { result ≡ true → AreSureParts text.now parts.now }
{
    let mut left = parts;
    let mut last: &[u8] = &[];
    while let [part, others @ ..] = left {
        let Some(key) = sure_key(text, part) else {
            return false;
        };
        if !rises(last, key) {
            return false;
        }
        last = key;
        left = others;
    }
    true
}

// Whether a key may be that of one of these parts.
#[inline(always)]
fn has_key(text: &[u8], key: &[u8], parts: &[OffsetPart]) -> bool
    ensures { result ≡ false → list_any (bytes_eq key.now) (map (key_in text.now) parts.now) ≡ false }
{
    let mut left = parts;
    while let [part, others @ ..] = left {
        match bytes_in(text, part.key_copied, part.key) {
            Some(other) if key != other => left = others,
            _ => return true,
        }
    }
    false
}

// Whether few parts surely break no clause, and none has the key of another.
#[inline(never)]
fn are_few(text: &[u8], parts: &[OffsetPart]) -> bool
    ensures { result ≡ true → AreSureParts text.now parts.now }
{
    if parts.len() > MOST_COMPARED {
        return false;
    }
    let mut left = parts;
    while let [part, others @ ..] = left {
        let Some(key) = sure_key(text, part) else {
            return false;
        };
        if has_key(text, key, others) {
            return false;
        }
        left = others;
    }
    true
}

// Whether parts surely break no clause.
#[inline(always)]
fn are_sure(text: &[u8], parts: &[OffsetPart]) -> bool
    ensures { result ≡ true → AreSureParts text.now parts.now }
{
    are_risen(text, parts) || are_few(text, parts)
}

// The tags and the fields of a row, if there are so many.
#[inline(always)]
fn own_parts<'p>(
    parts: &'p [OffsetPart],
    row: &OffsetRow,
) -> Option<(&'p [OffsetPart], &'p [OffsetPart])>
    ensures tags { IfSome result (λ own. own.0.now ≡ take row.now.tags (drop row.now.parts_at parts.now)) }
    ensures fields { IfSome result (λ own. own.1.now ≡ take row.now.fields (drop row.now.tags (drop row.now.parts_at parts.now))) }
    ensures all { IfSome result (λ own. row.now.parts_at + row.now.tags + row.now.fields ≤ length parts.now) }
{
    let at = row.parts_at as usize;
    let tags = row.tags as usize;
    let fields = row.fields as usize;
    if parts.len() < at + tags + fields {
        return None;
    }
    let own = &parts[at..];
    Some((&own[..tags], &own[tags..tags + fields]))
}

// The timestamp that a row shows.
#[inline(always)]
fn time_of(row: &OffsetRow) -> Option<i64>
    ensures { result ≡ timestamp_in row.now }
{
    if row.has_timestamp == 1 {
        Some(row.timestamp)
    } else {
        None
    }
}

/// The bits of the clauses that the piece of a row breaks, which was filled by the strict rules, if that is sure from its places.
#[inline(always)]
pub(crate) fn sure_verdict(
    limits: &Most,
    text: &[u8],
    parts: &[OffsetPart],
    row: &OffsetRow,
) -> Option<u64>
    requires { IsShownRow text.now parts.now row.now }
    ensures { IfSome result (IsSureRow limits.now text.now row.now) }
{
    if row.answer != Answer::Line.number() {
        return None;
    }
    let piece = bytes_in(text, 0, row.piece)?;
    let name = bytes_in(text, row.measurement_copied, row.measurement)?;
    let (tags, fields) = own_parts(parts, row)?;
    if row.tags > 29
        || row.fields > 4000
        || begins_own(name)
        || !are_sure(text, tags)
        || !are_sure(text, fields)
    {
        return None;
    }
    sure_bits(
        limits,
        piece,
        row.tags as usize,
        row.fields as usize,
        time_of(row),
    )
}
