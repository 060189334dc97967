//! The pieces of a text by their places, but for blank ones.

ghost use Rattle.std.specs.Prelude.{◌≡◌, ◌≤◌, ◌<◌, ◌+◌, ◌-◌, ◌^◌, drop, length, min, take, true, List, ℕ, MatchOption};
ghost use Rattle.influxdb_line_protocol.specs.format.Dialects as dialects;
ghost use Rattle.lp_format.specs.format.Bytes.{newlines_in};
ghost use Rattle.lp_split.specs.code.{AreSeen};
ghost use Rattle.lp_offsets.specs.Numbers.{dialect_of};
ghost use Rattle.lp_offsets.specs.OffsetBlocks.{HasNewlines, IsItemIn, IsNoPieceAt, IsPieceIn, IsSeenOf, PassesBlanks};

use crate::enums::dialect_of;
use crate::portions::Portion;
use lp_scan::newlines::newlines_in;
use lp_scan::trim::trimmed;
use lp_split::split::{Mark, first_cut};

/// A text that is read.
#[derive(Clone, Copy)]
pub struct Source<'a> {
    /// Its bytes.
    pub text: &'a [u8],
    /// The number of the [`Dialect`](crate::enums::Dialect) by whose rules it is read.
    pub dialect: u32,
    /// Whether it ends here; else its last piece, which no newline ends, goes on in the text that comes.
    pub last: bool,
}

/// A piece of a text.
#[derive(Clone, Copy)]
pub struct Piece {
    /// Where it begins.
    pub(crate) at: usize,
    /// How many bytes it has.
    pub(crate) len: usize,
    /// Where the next one begins, or the text ends.
    pub(crate) next: usize,
    /// How many newlines it holds, with the one that ends it, if one does.
    pub(crate) newlines: usize,
}

/// A place in a text, and the number of the line there.
#[derive(Clone, Copy)]
pub struct Spot {
    pub(crate) at: usize,
    pub(crate) line: u64,
}

/// What was seen of a text: a portion of it that was tested for UTF-8, and which of the bytes from a place on tell of a cut.
#[derive(Clone, Copy)]
pub(crate) struct Seen<'a> {
    pub(crate) portion: Portion<'a>,
    pub(crate) at: usize,
    pub(crate) marks: u64,
}

// What was seen at a place of the bytes that tell of a cut.
#[inline(always)]
fn marks_at(seen: &Seen<'_>, at: usize) -> u64
    ensures { (dialect : dialects.Dialect) (text : List ℕ) → AreSeen dialect (drop seen.now.at text) seen.now.marks
        → AreSeen dialect (drop at text) result }
{
    if seen.at == at { seen.marks } else { 0 }
}

// How many newlines come before this cut of a text.
#[inline(always)]
fn newlines_before(text: &[u8], cut: Mark) -> usize
    requires at { cut.at ≤ length text.now }
    requires first { cut.is_first ≡ true → newlines_in (take cut.at text.now) ≡ 0 }
    ensures { result ≡ newlines_in (take cut.at text.now) }
{
    if cut.is_first {
        return 0;
    }
    newlines_in(&text[..cut.at])
}

// The piece that begins at this place.
#[inline(always)]
fn piece_at(source: Source<'_>, at: usize, seen: &mut Seen<'_>) -> Option<Piece>
    requires at { at ≤ length source.text.now }
    requires seen { IsSeenOf (dialect_of source.dialect) source.text.now seen.old }
    ensures seen { IsSeenOf (dialect_of source.entry.dialect) source.entry.text.now seen.new }
    ensures gives { MatchOption result (IsNoPieceAt (dialect_of source.entry.dialect) source.entry.last source.entry.text.now at)
        (λ piece. (piece.at ≡ at) × IsPieceIn (dialect_of source.entry.dialect) source.entry.last source.entry.text.now piece
        × HasNewlines source.entry.text.now piece) }
{
    let text = source.text;
    let rest = &text[at..];
    match first_cut(dialect_of(source.dialect), rest, marks_at(seen, at)) {
        Some(cut) => {
            let next = at + cut.at + 1;
            seen.at = next;
            seen.marks = cut.later;
            Some(Piece {
                at,
                len: cut.at,
                next,
                newlines: newlines_before(rest, cut) + 1,
            })
        }
        None if source.last && at < text.len() => Some(Piece {
            at,
            len: text.len() - at,
            next: text.len(),
            newlines: newlines_in(rest),
        }),
        None => None,
    }
}

// Passes a piece.
#[inline(always)]
pub(crate) fn pass(spot: &mut Spot, piece: Piece)
    ensures { spot.new ≡ record {
      at = piece.next;
      line = min (spot.old.line + piece.newlines) (2 ^ 64 - 1);
    } }
{
    spot.at = piece.next;
    spot.line = spot.line.saturating_add(piece.newlines as u64);
}

// The next piece that is not blank, and its line, if it is UTF-8. Those before it are passed.
#[inline(always)]
pub(crate) fn next_item<'a>(
    source: Source<'a>,
    seen: &mut Seen<'a>,
    spot: &mut Spot,
) -> Option<(Piece, Option<&'a str>)>
    requires at { spot.old.at ≤ length source.text.now }
    requires seen { IsSeenOf (dialect_of source.dialect) source.text.now seen.old }
    ensures seen { IsSeenOf (dialect_of source.entry.dialect) source.entry.text.now seen.new }
    ensures within { spot.new.at ≤ length source.entry.text.now }
    ensures passes { PassesBlanks (dialect_of source.entry.dialect) source.entry.last source.entry.text.now spot.old spot.new }
    ensures gives { MatchOption result (IsNoPieceAt (dialect_of source.entry.dialect) source.entry.last source.entry.text.now spot.new.at)
        (λ p. (p.0.at ≡ spot.new.at) × IsPieceIn (dialect_of source.entry.dialect) source.entry.last source.entry.text.now p.0
        × HasNewlines source.entry.text.now p.0 × IsItemIn source.entry.text.now p.0 p.1) }
{
    while let Some(piece) = piece_at(source, spot.at, seen) {
        if piece.len == 0 {
            pass(spot, piece);
            continue;
        }
        let Some(piece_text) = seen.portion.next_text(piece.at, piece.len) else {
            return Some((piece, None));
        };
        let line = trimmed(piece_text);
        if !line.is_empty() {
            return Some((piece, Some(line)));
        }
        pass(spot, piece);
    }
    None
}
