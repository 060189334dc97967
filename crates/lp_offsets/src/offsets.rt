//! Many items in one call, by offsets: for callers whose memory moves, or that may keep no pointers of others.

ghost use Rattle.std.specs.Prelude.{◌≡◌, ◌≢◌, ◌↔◌, ◌⊎◌, ◌≤◌, ◌<◌, ◌+◌, ◌-◌, ◌^◌, IsUtf8, None, drop, false, length, take, true};
ghost use Rattle.influxdb_line_protocol.specs.code.Rules.{rules_of};
ghost use Rattle.influxdb_line_protocol.specs.code.SpelledParts.{spelled_fault};
ghost use Rattle.influxdb_line_protocol.specs.format.Lines.{answer};
ghost use Rattle.lp_events.specs.code.Stops.{IsStopOf, reading_stop};
ghost use Rattle.lp_offsets.specs.Numbers.{IsNoDialect, answer_number, dialect_of, fault_number, fault_seen, side_number};
ghost use Rattle.lp_offsets.specs.OffsetBlocks.{AnswersRow, HasNoFault, HasNoLine, HasNoTime, IsNoTextAt, IsPlaced, IsSeenOf, ReadsOffsets, ReadsRow, ReadsRows, block_answer, came_number, has_row, in_32, is_too_much, own_of, piece_in, timestamp_in};
ghost use Rattle.lp_offsets.specs.Rooms.{Grows};
ghost use Rattle.lp_offsets.specs.declared.offsets.Came.TheVariants as Came;
ghost use Rattle.lp_offsets.specs.declared.enums.Answer.TheVariants as Answer;

use crate::enums::{Answer, Dialect, dialect_of};
use crate::faults::fault_seen;
use crate::pieces::{Piece, Seen, Source, Spot, next_item, pass};
use crate::placed::{LineIn, OffsetPart, Span};
use crate::placing::put_told;
use crate::portions::no_portion;
use influxdb_line_protocol::SpelledFault;
use lp_events::stops::reading_stop;

/// An item by offsets.
#[repr(C)]
#[derive(Clone, Copy)]
pub struct OffsetRow {
    /// The number of the line in which its piece begins.
    pub line: u64,
    /// The timestamp, if the line has one, or else 0.
    pub timestamp: i64,
    /// 0, until `lp_offsets_keys` tells it: how many bytes at the start of its line are the key of its series.
    pub key: u64,
    /// 0, until `lp_offsets_verdicts` tells it: the bits of the clauses of what is portable that its piece breaks.
    pub verdict: u64,
    /// Where its piece lies in the text.
    pub piece: Span,
    /// Where the measurement lies.
    pub measurement: Span,
    /// Where the line begins in the text, after the blanks and comments of its piece. If the piece is not UTF-8, where that begins.
    pub line_at: u32,
    /// Where in the text reading it stopped: where it ends, if it was read. If the piece is not UTF-8, its first byte with which it is none.
    pub stop_at: u32,
    /// How many parts those before it have.
    pub parts_at: u32,
    /// How many of its parts are tags: the first ones.
    pub tags: u32,
    /// How many parts come after the tags: the fields.
    pub fields: u32,
    /// How many bytes of room its texts take.
    pub room_len: u32,
    /// The number of the [`Answer`] for the item.
    pub answer: u32,
    /// The number of a [`FaultKind`].
    pub fault: u32,
    /// The number of a [`Side`], if the fault is that of a number.
    pub side: u32,
    /// 1 if the measurement lies in the room, and 0 if it lies in the text.
    pub measurement_copied: u16,
    /// 1 if the line has a timestamp, or else 0.
    pub has_timestamp: u16,
}

// What came of an item, by the number of the answer for it.
#[derive(Clone, Copy)]
pub(crate) enum Came {
    /// Its line is shown.
    Line = 1,
    /// Its fault is shown.
    Fault = 2,
    /// Its line takes more parts than are left.
    MoreParts = 3,
    /// Its line takes more room than is left.
    MoreRoom = 4,
    /// Its piece is not UTF-8.
    NotUtf8 = 8,
}

impl Came {
    // The number of the answer for it.
    fn number(self) -> u32
        ensures { result ≡ came_number self }
    {
        self as u32
    }

    // Whether it takes more than is left.
    fn is_too_much(self) -> bool
        ensures { result ≡ is_too_much self }
    {
        matches!(self, Came::MoreParts | Came::MoreRoom)
    }
}

/// Where a block begins, and how much it filled.
#[repr(C)]
#[derive(Clone, Copy)]
pub struct Block {
    /// The number of the line at `at`.
    pub line: u64,
    /// Where in the text the next piece begins.
    pub at: u32,
    /// How many rows were filled.
    pub rows: u32,
    /// How many parts they have.
    pub parts: u32,
    /// How many bytes of room their texts take.
    pub room: u32,
}

// A number as 32 bits hold it.
#[inline(always)]
fn in_32(number: usize) -> u32
    ensures { result ≡ in_32 number }
{
    number.min(u32::MAX as usize) as u32
}

// Shows the fault of a line, and where reading it stopped: if that was not seen, the line is read again.
#[cold]
#[inline(never)]
fn show_fault(line: LineIn<'_>, fault: SpelledFault<'_>, stop: Option<&str>, row: &mut OffsetRow)
    requires { IsStopOf (rules_of line.rules) line.line.now stop }
    ensures { row.new ≡ record row.old {
      fault = fault_number (fault_seen (spelled_fault fault.entry)).kind;
      side = side_number (fault_seen (spelled_fault fault.entry)).side;
      stop_at = line.entry.end - length (reading_stop (rules_of line.entry.rules) line.entry.line.now).1;
    } }
{
    let (kind, side, _) = fault_seen(fault);
    row.fault = kind.number();
    row.side = side.number();
    let rest = match stop {
        Some(rest) => rest,
        None => reading_stop(line.rules, line.line).rest,
    };
    row.stop_at = in_32(line.end.saturating_sub(rest.len()));
}

// Shows how much a line takes that takes more than is left.
#[cold]
#[inline(never)]
fn show_need(row: &mut OffsetRow, tags: usize, fields: usize, room_len: usize)
    ensures { row.new ≡ record row.old { tags = in_32 tags; fields = in_32 fields; room_len = in_32 room_len } }
{
    row.tags = in_32(tags);
    row.fields = in_32(fields);
    row.room_len = in_32(room_len);
}

// Shows a timestamp, or that there is none.
#[inline(always)]
fn show_time(row: &mut OffsetRow, timestamp: Option<i64>)
    ensures time { timestamp_in row.new ≡ timestamp }
    ensures none { timestamp ≡ None → HasNoTime row.new }
    ensures others { row.new ≡ record row.old { timestamp = row.new.timestamp; has_timestamp = row.new.has_timestamp } }
{
    match timestamp {
        Some(time) => {
            row.has_timestamp = 1;
            row.timestamp = time;
        }
        None => {
            row.has_timestamp = 0;
            row.timestamp = 0;
        }
    }
}

// Puts down a line, and gives what came of it, and how many bytes of the room are in use with it: two numbers, which are given in registers.
// The line is lent, so that the loop of rows writes it once, and no copy of it is made.
#[inline(never)]
fn put_line(
    line: &LineIn<'_>,
    row: &mut OffsetRow,
    parts: &mut [OffsetPart],
    room: &mut [u8],
    used: usize,
) -> (Came, usize)
    requires parts { length parts.old < 2 ^ 32 }
    requires small { length room.old < 2 ^ 32 }
    ensures size { length parts.new ≡ length parts.old }
    ensures grows { Grows room.old used room.new result.1 }
    ensures piece { (row.new.piece ≡ row.old.piece) × (row.new.line ≡ row.old.line) × (row.new.parts_at ≡ row.old.parts_at) }
    ensures kept { (row.new.key ≡ row.old.key) × (row.new.verdict ≡ row.old.verdict) }
    ensures begins { row.new.line_at ≡ line.now.end - length line.now.line.now }
    ensures answer { row.new.answer ≡ came_number result.0 }
    ensures end { result.0 ≡ Came.Line → row.new.stop_at ≡ line.now.end }
    ensures line { result.0 ≡ Came.Line → HasNoFault row.old → HasNoFault row.new }
    ensures fault { result.0 ≡ Came.Fault → HasNoLine row.old → HasNoLine row.new }
    ensures answers { AnswersRow (answer (rules_of line.now.rules) line.now.line.now) result.0 line.now.text.now parts.new room.new used
        (own_of result.0 row.new) result.1 row.new }
    ensures fits { own_of result.0 row.new ≤ length parts.new }
    ensures stays { is_too_much result.0 ≡ true → result.1 ≡ used }
    ensures room { used ≤ length room.old → result.1 ≤ length room.new }
    ensures stop { result.0 ≡ Came.Fault →
        row.new.stop_at ≡ line.now.end - length (reading_stop (rules_of line.now.rules) line.now.line.now).1 }
{
    row.line_at = (line.end - line.line.len()) as u32;
    let (told, stop) = put_told(*line, parts, room, used);
    if let Some(fault) = told.fault {
        show_fault(*line, fault, stop, row);
        row.answer = Came::Fault.number();
        return (Came::Fault, used);
    }
    let needed = told.used - used;
    if parts.len() < told.tags || parts.len() - told.tags < told.fields {
        show_need(row, told.tags, told.fields, needed);
        row.answer = Came::MoreParts.number();
        return (Came::MoreParts, used);
    }
    if room.len() < told.used {
        show_need(row, told.tags, told.fields, needed);
        row.answer = Came::MoreRoom.number();
        return (Came::MoreRoom, used);
    }
    row.tags = told.tags as u32;
    row.fields = told.fields as u32;
    row.room_len = needed as u32;
    row.stop_at = line.end as u32;
    row.measurement = told.name.span;
    row.measurement_copied = told.name.copied;
    row.answer = Came::Line.number();
    show_time(row, told.timestamp);
    (Came::Line, told.used)
}

// How many parts the item of a row has.
#[inline(always)]
fn own_of(came: Came, row: &OffsetRow) -> usize
    ensures { result ≡ own_of came row.now }
{
    match came {
        Came::Line => row.tags as usize + row.fields as usize,
        _ => 0,
    }
}

// A row of a piece in this line, of which nothing is shown, and which so many parts come before.
#[inline(always)]
fn begun_row(piece: Piece, line: u64, parts: usize) -> OffsetRow
    requires { (piece.at < 2 ^ 32) × (piece.len < 2 ^ 32) × (parts < 2 ^ 32) }
    ensures placed { IsPlaced piece line parts result }
    ensures shows { HasNoFault result × HasNoLine result }
    ensures begins { result.line_at ≡ piece.at }
{
    OffsetRow {
        line,
        timestamp: 0,
        key: 0,
        verdict: 0,
        piece: Span {
            at: piece.at as u32,
            len: piece.len as u32,
        },
        measurement: Span { at: 0, len: 0 },
        line_at: piece.at as u32,
        stop_at: piece.at as u32,
        parts_at: parts as u32,
        tags: 0,
        fields: 0,
        room_len: 0,
        answer: 0,
        fault: 0,
        side: 0,
        measurement_copied: 0,
        has_timestamp: 0,
    }
}

// Shows that a piece is not UTF-8, and its first byte with which it is none.
#[cold]
#[inline(never)]
fn show_no_text(text: &[u8], piece: Piece, row: &mut OffsetRow)
    requires text { length text.now < 2 ^ 32 }
    requires piece { piece.at + piece.len ≤ length text.now }
    requires bytes { ¬ IsUtf8 (piece_in text.now piece) }
    requires begun { row.old.line_at ≡ piece.at }
    ensures shows { IsNoTextAt text.now piece row.new }
    ensures answer { row.new ≡ record row.old { answer = came_number Came.NotUtf8; stop_at = row.new.stop_at } }
{
    row.answer = Came::NotUtf8.number();
    if let Err(error) = str::from_utf8(&text[piece.at..piece.at + piece.len]) {
        row.stop_at = in_32(piece.at + error.valid_up_to());
    }
}

// What was filled so far: where the next piece begins, how many parts are filled, and how many bytes of the room are in use.
#[derive(Clone, Copy)]
pub(crate) struct Filled {
    pub(crate) spot: Spot,
    pub(crate) parts: usize,
    pub(crate) room: usize,
}

// How far a text was read: what was seen of it, and what was filled.
#[derive(Clone, Copy)]
pub(crate) struct Reading<'a> {
    pub(crate) seen: Seen<'a>,
    pub(crate) filled: Filled,
}

// Puts the next item that is not blank down in a row, with its parts after those that are filled, and says what came of it. `None`: no
// piece is left.
#[inline(always)]
fn read_row<'a>(
    source: Source<'a>,
    reading: &mut Reading<'a>,
    row: &mut OffsetRow,
    parts: &mut [OffsetPart],
    room: &mut [u8],
) -> Option<Came>
    requires text { (length source.text.now < 2 ^ 32) × (reading.old.filled.spot.at ≤ length source.text.now) }
    requires parts { (length parts.old < 2 ^ 32) × (reading.old.filled.parts ≤ length parts.old) }
    requires room { reading.old.filled.room ≤ length room.old }
    requires small { length room.old < 2 ^ 32 }
    requires seen { IsSeenOf (dialect_of source.dialect) source.text.now reading.old.seen }
    ensures seen { IsSeenOf (dialect_of source.entry.dialect) source.entry.text.now reading.new.seen }
    ensures size { length parts.new ≡ length parts.old }
    ensures grows { Grows room.old reading.old.filled.room room.new reading.new.filled.room }
    ensures kept { take reading.old.filled.parts parts.new ≡ take reading.old.filled.parts parts.old }
    ensures fits { (reading.new.filled.spot.at ≤ length source.entry.text.now) × (reading.new.filled.parts ≤ length parts.new)
        × (reading.new.filled.room ≤ length room.new) }
    ensures reads { ReadsRow (dialect_of source.entry.dialect) source.entry.last source.entry.text.now reading.old.filled result row.new
        parts.new room.new reading.new.filled }
{
    let filled = &mut reading.filled;
    let (piece, item) = next_item(source, &mut reading.seen, &mut filled.spot)?;
    *row = begun_row(piece, filled.spot.line, filled.parts);
    let Some(line) = item else {
        show_no_text(source.text, piece, row);
        pass(&mut filled.spot, piece);
        return Some(Came::NotUtf8);
    };
    let line_in = LineIn {
        rules: dialect_of(source.dialect),
        text: source.text,
        line,
        end: piece.at + piece.len,
    };
    let own_parts = &mut parts[filled.parts..];
    let (came, used) = put_line(&line_in, row, own_parts, room, filled.room);
    if !came.is_too_much() {
        pass(&mut filled.spot, piece);
        filled.parts += own_of(came, row);
        filled.room = used;
    }
    Some(came)
}

// Whether an item has a row.
fn has_row(came: Option<Came>) -> bool
    ensures { result ≡ has_row came }
{
    match came {
        Some(came) => !came.is_too_much(),
        None => false,
    }
}

// Reads items into rows from a place of a text on, and gives how many rows it filled, and why no more.
#[inline(always)]
fn read_rows<'a>(
    source: Source<'a>,
    reading: &mut Reading<'a>,
    rows: &mut [OffsetRow],
    parts: &mut [OffsetPart],
    room: &mut [u8],
) -> (usize, Option<Came>)
    requires text { (length source.text.now < 2 ^ 32) × (reading.old.filled.spot.at ≤ length source.text.now) }
    requires seen { IsSeenOf (dialect_of source.dialect) source.text.now reading.old.seen }
    requires none { (reading.old.filled.parts ≡ 0) × (reading.old.filled.room ≡ 0) }
    requires parts { length parts.old < 2 ^ 32 }
    requires small { length room.old < 2 ^ 32 }
    ensures fits { (reading.new.filled.spot.at ≤ length source.entry.text.now) × (reading.new.filled.parts ≤ length parts.new)
        × (reading.new.filled.room ≤ length room.new) }
    ensures count { result.0 ≤ length rows.new }
    ensures size { length rows.new ≡ length rows.old }
    ensures reads { ReadsRows (dialect_of source.entry.dialect) source.entry.last source.entry.text.now reading.old.filled.spot rows.new
        parts.new room.new reading.new.filled result.0 result.1 }
{
    for at in 0..rows.len() {
        reading.seen.portion.texts = rows.len() - at;
        let came = read_row(source, reading, &mut rows[at], parts, room);
        if !has_row(came) {
            return (at, came);
        }
    }
    (rows.len(), Some(Came::Line))
}

// The number of the answer for a block that ended so.
fn block_answer(came: Option<Came>, last: bool) -> u32
    ensures { result ≡ block_answer came last }
{
    match came {
        Some(came) => came.number(),
        None if last => Answer::End.number(),
        None => Answer::MoreText.number(),
    }
}

// Whether 32 bits hold this number.
fn is_in_32(number: usize) -> bool
    ensures fits { result ≡ true → number < 2 ^ 32 }
    ensures long { result ≡ false → 2 ^ 32 ≤ number }
{
    number <= u32::MAX as usize
}

/// Whether 32 bits hold the lengths of what is lent.
#[inline(always)]
pub fn are_in_32(text: &[u8], rows: &[OffsetRow], parts: &[OffsetPart], room: &[u8]) -> bool
    ensures text { result ≡ true → length text.now < 2 ^ 32 }
    ensures rows { result ≡ true → length rows.now < 2 ^ 32 }
    ensures parts { result ≡ true → length parts.now < 2 ^ 32 }
    ensures room { result ≡ true → length room.now < 2 ^ 32 }
    ensures long { result ≡ false → (2 ^ 32 ≤ length text.now) ⊎ (2 ^ 32 ≤ length rows.now)
        ⊎ (2 ^ 32 ≤ length parts.now) ⊎ (2 ^ 32 ≤ length room.now) }
{
    is_in_32(text.len()) && is_in_32(rows.len()) && is_in_32(parts.len()) && is_in_32(room.len())
}

/// Fills rows from where a block begins, whose lengths 32 bits hold, and says where it ended. Gives the number of the answer.
#[inline(always)]
pub fn fill_block(
    source: Source<'_>,
    block: &mut Block,
    room: &mut [u8],
    rows: &mut [OffsetRow],
    parts: &mut [OffsetPart],
) -> u32
    requires text { length source.text.now < 2 ^ 32 }
    requires rows { length rows.old < 2 ^ 32 }
    requires parts { length parts.old < 2 ^ 32 }
    requires room { length room.old < 2 ^ 32 }
    ensures reads { ReadsOffsets (dialect_of source.entry.dialect) source.entry.last source.entry.text.now block.old rows.new parts.new room.new
        block.new result }
    ensures known { result ≢ answer_number Answer.NotADialect }
    ensures short { result ≢ answer_number Answer.TooLong }
    ensures memory { result ≢ answer_number Answer.OutOfMemory }
{
    let mut reading = Reading {
        seen: Seen {
            portion: no_portion(source.text, 0),
            at: 0,
            marks: 0,
        },
        filled: Filled {
            spot: Spot {
                at: source.text.len().min(block.at as usize),
                line: block.line,
            },
            parts: 0,
            room: 0,
        },
    };
    let (count, came) = read_rows(source, &mut reading, rows, parts, room);
    let filled = reading.filled;
    *block = Block {
        line: filled.spot.line,
        at: filled.spot.at as u32,
        rows: count as u32,
        parts: filled.parts as u32,
        room: filled.room as u32,
    };
    block_answer(came, source.last)
}

/// Reads items of a text into rows, in order, as long as rows, parts and room last: each by offsets in its bytes and in `room`. It asks for
/// no memory, and what was lent before needs to hold nothing.
///
/// `block` says where to begin, and in which line that is; then where to go on, in which line, and how many rows, parts and bytes of
/// room were filled. The text ends here if it is the last; else its last piece, which no newline ends, is left.
///
/// Answers `Line`, if each row is filled; `End`, if no item is left; `MoreText`, if what is left is a piece that goes on in the text that
/// comes. `MoreParts` or `MoreRoom`, if the line of the next piece takes more than is left: the row after the filled ones says how much.
/// `NotADialect` and `TooLong`, if no dialect has the number, or if 32 bits do not hold a length: then all is as it was.
pub fn read_block(
    source: Source<'_>,
    block: &mut Block,
    room: &mut [u8],
    rows: &mut [OffsetRow],
    parts: &mut [OffsetPart],
) -> u32
    ensures reads { result ≢ answer_number Answer.NotADialect → result ≢ answer_number Answer.TooLong
        → ∥ ReadsOffsets (dialect_of source.entry.dialect) source.entry.last source.entry.text.now block.old rows.new parts.new room.new
        block.new result ∥₁ }
    ensures refused { (result ≡ answer_number Answer.NotADialect) ⊎ (result ≡ answer_number Answer.TooLong)
        → (block.new ≡ block.old) × (rows.new ≡ rows.old) × (parts.new ≡ parts.old) × (room.new ≡ room.old) }
    ensures not_a_dialect { result ≡ answer_number Answer.NotADialect ↔ IsNoDialect source.entry.dialect }
    ensures too_long { result ≡ answer_number Answer.TooLong → (2 ^ 32 ≤ length source.entry.text.now) ⊎ (2 ^ 32 ≤ length rows.new)
        ⊎ (2 ^ 32 ≤ length parts.new) ⊎ (2 ^ 32 ≤ length room.new) }
    ensures memory { result ≢ answer_number Answer.OutOfMemory }
{
    if Dialect::numbered(source.dialect).is_none() {
        return Answer::NotADialect.number();
    }
    if !are_in_32(source.text, rows, parts, room) {
        return Answer::TooLong.number();
    }
    fill_block(source, block, room, rows, parts)
}
