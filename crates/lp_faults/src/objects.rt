//! Tells faults as objects of JSON, each on one line.
//!
//! The text of a fault may be as long as its line, so of a long one the start alone is told. An object that has its piece has it whole.
ghost use Rattle.std.specs.Prelude.{◌≡◌, ◌<◌, ◌++◌, ◌∷◌, [], codes, decimal, length, option_map, string_bytes, OnOk, Some};
ghost use Rattle.influxdb_line_protocol.specs.code.Rules.{rules_of};
ghost use Rattle.influxdb_line_protocol.specs.format.Bytes.{newline};
ghost use Rattle.lp_faults.specs.Objects.{bytes_given, column_after, fault_members, first_members, stop_members};
ghost use Rattle.lp_escapes.specs.JsonTexts.{cut_json_text};
ghost use Rattle.lp_faults.specs.Objects.{length_member, line_or_none, object, object_head, object_start, over_given, piece_member, piece_name};
ghost use Rattle.lp_faults.specs.Refusals.{front_in, given_of, is_fault, reason_of, refusal_kind, stop_in, wrong_of};

use crate::pieces::Piece;
use crate::refusals::Refusal;
use crate::telling::Place;
use influxdb_line_protocol::Dialect;
use lp_escapes::json::{escape_from, put_bytes, put_json_text};
use lp_escapes::one_line::put_number;
use lp_escapes::texts::utf8_front;
use lp_events::stops::reading_stop;
use lp_scan::newlines::newlines_in;
use lp_scan::trim::trimmed;
use std::alloc::AllocError;

// Adds the first members of an object: the name of the file, if one is named, and the number of the item.
fn put_first(faults: &mut String, file: Option<&str>, number: usize) -> Result<(), AllocError>
    ensures { OnOk result (string_bytes faults.new ≡ string_bytes faults.old ++ first_members file.entry number) }
{
    match file {
        None => faults.push_str("{\"item\":")?,
        Some(name) => {
            faults.push_str("{\"file\":\"")?;
            put_json_text(faults, name)?;
            faults.push_str("\",\"item\":")?;
        }
    }
    put_number(faults, number)
}

// Adds the member that tells how long a piece is.
fn put_length(faults: &mut String, limit: usize, piece: Piece<'_>) -> Result<(), AllocError>
    ensures { OnOk result (string_bytes faults.new ≡ string_bytes faults.old
        ++ length_member (over_given limit (given_of piece.entry)) (bytes_given (given_of piece.entry))) }
{
    match piece {
        Piece::Text(text) => put_after(faults, ",\"length\":", text.len()),
        Piece::NoText(bytes) => put_after(faults, ",\"length\":", bytes.len()),
        Piece::TooLong(_) => put_after(faults, ",\"longer_than\":", limit),
    }
}

// Adds the start of the object of a piece at this place.
fn put_start(faults: &mut String, place: Place<'_>, piece: Piece<'_>) -> Result<(), AllocError>
    ensures { OnOk result (string_bytes faults.new ≡ string_bytes faults.old ++ object_start place.entry (front_in piece.entry)) }
{
    let front = piece.front();
    let line = place.line.unwrap_or(0);
    let text_line = line.checked_add(newlines_in(front)).ok_or(AllocError)?;
    let text_offset = place.offset.checked_add(front.len()).ok_or(AllocError)?;
    put_first(faults, place.file, place.number)?;
    put_after(faults, ",\"line\":", text_line)?;
    put_after(faults, ",\"offset\":", text_offset)?;
    put_after(faults, ",\"piece_line\":", line)?;
    put_after(faults, ",\"piece_offset\":", place.offset)
}

// Adds a number after these bytes.
#[inline(always)]
pub(crate) fn put_after(members: &mut String, head: &str, value: usize) -> Result<(), AllocError>
    ensures { OnOk result (string_bytes members.new ≡ string_bytes members.old ++ (head.now ++ decimal value)) }
{
    members.push_str(head)?;
    put_number(members, value)
}

// The column after these bytes, from the first one on.
fn column_after(bytes: &[u8]) -> usize
    ensures { result ≡ column_after 1 bytes.now }
{
    let mut column = 1;
    for at in 0..bytes.len() {
        if bytes[at] == b'\n' {
            column = 1;
        } else {
            column += 1;
        }
    }
    column
}

// Adds the members that tell where reading stopped that took these bytes of a piece at this place.
fn put_stop(faults: &mut String, place: Place<'_>, bytes: &[u8]) -> Result<(), AllocError>
    ensures { OnOk result (string_bytes faults.new
        ≡ string_bytes faults.old ++ stop_members (line_or_none place.entry.line) (Some bytes.now)) }
{
    let line = place.line.unwrap_or(0);
    let stop_line = line.checked_add(newlines_in(bytes)).ok_or(AllocError)?;
    let stop_column = column_after(bytes);
    put_after(faults, ",\"stop_line\":", stop_line)?;
    put_after(faults, ",\"stop_column\":", stop_column)
}

// The bytes of the line of a piece before the byte at which reading stops, if its text is at fault, or at which it is not UTF-8.
pub(crate) fn stop_of<'p>(
    dialect: Dialect,
    refusal: &Refusal<'_>,
    piece: Piece<'p>,
) -> Option<&'p [u8]>
    ensures { option_map (λ s. s.now) result ≡ stop_in (is_fault refusal.now) (rules_of dialect) piece.entry }
{
    match piece {
        Piece::Text(text) if refusal.is_fault() => {
            let left = reading_stop(dialect, trimmed(text)).rest;
            let end = text.len().saturating_sub(left.len());
            Some(&text.as_bytes()[..end])
        }
        Piece::NoText(bytes) => Some(utf8_front(bytes).as_bytes()),
        _ => None,
    }
}

// Adds the members that tell where reading stops in a piece at this place, if its text is at fault, or where it is not UTF-8.
fn put_stop_in(
    faults: &mut String,
    dialect: Dialect,
    place: Place<'_>,
    refusal: &Refusal<'_>,
    piece: Piece<'_>,
) -> Result<(), AllocError>
    ensures { OnOk result (string_bytes faults.new ≡ string_bytes faults.old
        ++ stop_members (line_or_none place.entry.line) (stop_in (is_fault refusal.now) (rules_of dialect) piece.entry)) }
{
    match stop_of(dialect, refusal, piece) {
        Some(bytes) => put_stop(faults, place, bytes),
        None => Ok(()),
    }
}

// Adds why an item is refused, as it stands in a string of JSON, cut.
fn put_wrong(faults: &mut String, refusal: &Refusal<'_>) -> Result<(), AllocError>
    ensures { OnOk result (string_bytes faults.new ≡ string_bytes faults.old ++ cut_json_text (wrong_of refusal.now)) }
{
    let from = faults.len();
    write!(faults, "{refusal}")?;
    escape_from(faults, from)
}

// Adds the members that tell why an item is refused.
fn put_fault(faults: &mut String, refusal: &Refusal<'_>) -> Result<(), AllocError>
    ensures { OnOk result (string_bytes faults.new
        ≡ string_bytes faults.old ++ fault_members (refusal_kind refusal.now) (wrong_of refusal.now)) }
{
    faults.push_str(",\"kind\":\"")?;
    faults.push_str(refusal.kind().name())?;
    faults.push_str("\",\"text\":\"")?;
    put_wrong(faults, refusal)?;
    faults.push_str("\"")
}

// Adds the name of the member that has a piece, without the quote that ends it.
fn put_piece_name(faults: &mut String, limit: usize, piece: Piece<'_>) -> Result<(), AllocError>
    ensures { OnOk result (string_bytes faults.new ≡ string_bytes faults.old ++ piece_name (over_given limit (given_of piece.entry))) }
{
    match piece {
        Piece::TooLong(_) => faults.push_str(",\"piece_start"),
        Piece::Text(_) | Piece::NoText(_) => faults.push_str(",\"piece"),
    }
}

// Adds the member that has a piece, if objects have it.
fn put_piece(
    faults: &mut String,
    limit: usize,
    has_piece: bool,
    piece: Piece<'_>,
) -> Result<(), AllocError>
    ensures { OnOk result (string_bytes faults.new ≡ string_bytes faults.old
        ++ piece_member has_piece (over_given limit (given_of piece.entry)) (bytes_given (given_of piece.entry))) }
{
    if !has_piece {
        return Ok(());
    }
    put_piece_name(faults, limit, piece)?;
    put_bytes(faults, piece.bytes())
}

/// How objects tell a piece: by this dialect and this limit, with the piece or without.
#[derive(Clone, Copy)]
pub struct Telling {
    pub dialect: Dialect,
    pub limit: usize,
    pub has_piece: bool,
}

// Adds the members that each object has.
fn put_head(
    faults: &mut String,
    telling: Telling,
    place: Place<'_>,
    refusal: &Refusal<'_>,
    piece: Piece<'_>,
    line: Piece<'_>,
) -> Result<(), AllocError>
    ensures { OnOk result (string_bytes faults.new ≡ string_bytes faults.old
        ++ object_head place.entry (reason_of (rules_of telling.dialect) telling.limit piece.entry line.entry refusal.now)) }
{
    put_start(faults, place, line)?;
    put_length(faults, telling.limit, piece)?;
    put_fault(faults, refusal)
}

// Adds the end of an object, and a newline.
fn put_end(faults: &mut String) -> Result<(), AllocError>
    ensures { OnOk result (string_bytes faults.new ≡ string_bytes faults.old ++ (codes "}" ++ newline ∷ [])) }
{
    faults.push_str("}\n")
}

/// Adds the object of the item of a piece with this line, which is refused, and a newline.
pub fn tell_as_object(
    faults: &mut String,
    telling: Telling,
    place: Place<'_>,
    refusal: &Refusal<'_>,
    piece: Piece<'_>,
    line: Piece<'_>,
) -> Result<(), AllocError>
    ensures { OnOk result (string_bytes faults.new ≡ string_bytes faults.old
        ++ object telling.has_piece place.entry (reason_of (rules_of telling.dialect) telling.limit piece.entry line.entry refusal.now)) }
{
    put_head(faults, telling, place, refusal, piece, line)?;
    put_stop_in(faults, telling.dialect, place, refusal, line)?;
    put_piece(faults, telling.limit, telling.has_piece, piece)?;
    put_end(faults)
}
