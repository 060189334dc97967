//! Tells faults for editors, and for what reads the messages of compilers: `FILE:LINE:COLUMN: TEXT`, each on one line.
//!
//! Columns count characters, as editors do, and bytes that are no UTF-8 as these lead them. After the text of a fault comes what was found
//! where reading stopped.
ghost use Rattle.std.specs.Prelude.{◌≡◌, ◌<◌, ◌++◌, ◌∷◌, [], drop, length, option_map, string_bytes, unwrap_or, IfSome, OnOk};
ghost use Rattle.std.specs.List.{position};
ghost use Rattle.influxdb_line_protocol.specs.code.Rules.{rules_of};
ghost use Rattle.influxdb_line_protocol.specs.format.Bytes.{newline};
ghost use Rattle.lp_faults.specs.Editors.{begins_character, character_column, editor_line, ends_found, file_or_dash, found_after, found_at, told_found, where_after};
ghost use Rattle.lp_faults.specs.Objects.{bytes_given};
ghost use Rattle.lp_faults.specs.Refusals.{front_in, given_of, is_fault, reason_of, stop_in, wrong_of};
ghost use Rattle.lp_escapes.specs.Told.{on_one_line};

use crate::objects::{Telling, put_after, stop_of};
use crate::pieces::Piece;
use crate::refusals::Refusal;
use crate::telling::{Place, put_wrong_on_one_line};
use lp_escapes::one_line::{tell_bytes, tell_text};
use lp_scan::newlines::newlines_in;
use std::alloc::AllocError;

// Whether a byte is the first of a character.
fn begins_character(byte: u8) -> bool
    ensures { result ≡ begins_character byte }
{
    byte < 128 || byte >= 192
}

// The column, in characters, after these bytes, from the first one on.
fn character_column(bytes: &[u8]) -> usize
    ensures { result ≡ character_column 1 bytes.now }
{
    let mut column = 1;
    for at in 0..bytes.len() {
        if bytes[at] == b'\n' {
            column = 1;
        } else if begins_character(bytes[at]) {
            column += 1;
        }
    }
    column
}

// Whether a byte ends what is told of the bytes where reading stopped.
fn ends_found(byte: u8) -> bool
    ensures { result ≡ ends_found byte }
{
    byte == b' ' || byte == b'\t' || byte == b',' || byte == b'\n'
}

// The place of the first of these bytes that ends what is told of them.
fn end_of_found(bytes: &[u8]) -> Option<usize>
    ensures place { result ≡ position ends_found bytes.now }
    ensures within { IfSome result (λ at. at < length bytes.now) }
{
    bytes.iter().position(|byte| ends_found(*byte))
}

// What is found at the start of these bytes: all before a space, a tab, a comma or a newline.
fn found_at(bytes: &[u8]) -> &[u8]
    ensures { result.now ≡ found_at bytes.now }
{
    match end_of_found(bytes) {
        Some(end) => &bytes[..end],
        None => bytes,
    }
}

// The bytes after the first ones.
fn bytes_after(bytes: &[u8], first: usize) -> &[u8]
    ensures { result.now ≡ drop first bytes.now }
{
    if first > bytes.len() {
        return b"";
    }
    &bytes[first..]
}

// Adds what is told of what is found.
fn put_found(faults: &mut String, found: &[u8]) -> Result<(), AllocError>
    ensures { OnOk result (string_bytes faults.new ≡ string_bytes faults.old ++ told_found found.now) }
{
    if found.is_empty() {
        return Ok(());
    }
    faults.push_str(" (at \"")?;
    tell_text(faults, found)?;
    faults.push_str("\")")
}

// Adds what is told of a line after these bytes of it, if reading stopped there.
fn put_found_after(faults: &mut String, stop: Option<&[u8]>, line: &[u8]) -> Result<(), AllocError>
    ensures { OnOk result (string_bytes faults.new ≡ string_bytes faults.old
        ++ found_after (option_map (λ s. s.now) stop.entry) line.now) }
{
    match stop {
        Some(front) => put_found(faults, found_at(bytes_after(line, front.len()))),
        None => Ok(()),
    }
}

// Adds the name of a file.
fn put_file_or_dash(faults: &mut String, file: Option<&str>) -> Result<(), AllocError>
    ensures { OnOk result (string_bytes faults.new ≡ string_bytes faults.old ++ file_or_dash file.entry) }
{
    match file {
        Some(name) => tell_bytes(faults, name.as_bytes()),
        None => faults.push_str("-"),
    }
}

// Adds the line and the column after these bytes of a piece, which begins on this line.
fn put_where_after(faults: &mut String, line: usize, bytes: &[u8]) -> Result<(), AllocError>
    ensures { OnOk result (string_bytes faults.new ≡ string_bytes faults.old ++ where_after line bytes.now) }
{
    let stop_line = line.checked_add(newlines_in(bytes)).ok_or(AllocError)?;
    put_after(faults, ":", stop_line)?;
    put_after(faults, ":", character_column(bytes))?;
    faults.push_str(": ")
}

// The bytes of a piece before the place at which its fault is told: where reading stopped, or else where its text begins.
fn told_after<'p>(stop: Option<&'p [u8]>, line: Piece<'p>) -> &'p [u8]
    ensures { result.now ≡ unwrap_or (option_map (λ s. s.now) stop.entry) (front_in line.entry) }
{
    match stop {
        Some(front) => front,
        None => line.front(),
    }
}

/// Adds the line for editors of the item of a piece with this line, which is refused. Nothing else is told of the piece.
pub fn tell_for_editors(
    faults: &mut String,
    telling: Telling,
    place: Place<'_>,
    refusal: &Refusal<'_>,
    line: Piece<'_>,
) -> Result<(), AllocError>
    ensures { OnOk result (string_bytes faults.new ≡ string_bytes faults.old
        ++ editor_line place.entry (reason_of (rules_of telling.dialect) telling.limit line.entry line.entry refusal.now)) }
{
    let stop = stop_of(telling.dialect, refusal, line);
    put_file_or_dash(faults, place.file)?;
    put_where_after(faults, place.line.unwrap_or(0), told_after(stop, line))?;
    put_wrong_on_one_line(faults, refusal)?;
    put_found_after(faults, stop, line.bytes())?;
    faults.push_str("\n")
}
