//! A sink that puts a line where the caller lends memory for it, part by part, as it is told.
//!
//! What does not fit is counted, so that the caller is told how much the whole line takes.

ghost use Rattle.std.specs.Prelude.{◌≡◌, ◌<◌, ◌≤◌, ◌+◌, ◌^◌, None, Some, length};
ghost use Rattle.influxdb_line_protocol.specs.code.Rules.{rules_of};
ghost use Rattle.influxdb_line_protocol.specs.format.Lines.{answer};
ghost use Rattle.lp_c.specs.Crossing.{AnswersItem, taken_by};
ghost use Rattle.lp_offsets.specs.Numbers.{answer_number};
ghost use Rattle.lp_c.specs.Telling.{Told, told_line};

use crate::lent::{count_field, count_tag, fill_line, put_fault, show_field, show_tag, show_text};
use crate::views::{Line, Part, Room};
use influxdb_line_protocol::{Dialect, Spelled, SpelledFault, SpelledValue};
use lp_events::{PlacedSink, read_placed_events};
use lp_offsets::enums::{Answer, FaultKind, Side};

/// A line that is told: its text, where it is put, what was counted of it, and its fault, if it has one.
///
/// The counts are not in the line until it was told, since a number in memory is loaded and stored again for each part.
#[derive(Drop)]
pub(crate) struct Telling<'l, 'a> {
    pub(crate) text: &'a str,
    pub(crate) line: &'l mut Line<'a>,
    pub(crate) parts: &'l mut [Part<'a>],
    pub(crate) room: &'l mut Room<'a>,
    pub(crate) tags: usize,
    pub(crate) fields: usize,
    pub(crate) copied_len: usize,
    pub(crate) fault: Option<SpelledFault<'a>>,
}

impl<'l, 'a> PlacedSink<'a> for Telling<'l, 'a> {
    ghost use Rattle.lp_c.specs.Telling.{Tells};

    ghost line = { λ telling. telling.text.now };

    ghost takes = { Tells };

    #[inline(always)]
    fn measurement(&mut self, name: Spelled<'a>, left: usize) {
        self.tags = 0;
        self.fields = 0;
        self.copied_len = show_text(&mut self.line.measurement, self.room, self.copied_len, name);
    }

    #[inline(always)]
    fn tag(&mut self, key: Spelled<'a>, value: Spelled<'a>, key_left: usize, left: usize) {
        let at = self.tags.wrapping_add(self.fields);
        self.tags = self.tags.wrapping_add(1);
        self.copied_len = if at < self.parts.len() {
            show_tag(&mut self.parts[at], self.room, self.copied_len, key, value)
        } else {
            count_tag(self.copied_len, key, value)
        };
    }

    #[inline(always)]
    fn field(&mut self, key: Spelled<'a>, value: SpelledValue<'a>, key_left: usize, left: usize) {
        let at = self.tags.wrapping_add(self.fields);
        self.fields = self.fields.wrapping_add(1);
        self.copied_len = if at < self.parts.len() {
            show_field(&mut self.parts[at], self.room, self.copied_len, key, value)
        } else {
            count_field(self.copied_len, key, value)
        };
    }

    #[inline(always)]
    fn end(&mut self, series: &'a str, timestamp: Option<i64>, is_base: bool) {
        self.line.series = series.as_bytes();
        self.line.has_tag_set = self.tags != 0;
        self.line.has_timestamp = timestamp.is_some();
        self.line.timestamp = timestamp.unwrap_or(0);
        self.line.series_is_base = is_base;
        self.line.fault = FaultKind::None.number();
        self.line.side = Side::Neither.number();
    }

    #[inline(always)]
    fn fault(&mut self, fault: SpelledFault<'a>) {
        self.fault = Some(fault);
    }
}

// Tells what the line says, which is a trimmed text.
#[inline(always)]
fn tell_line<'l, 'a>(dialect: Dialect, telling: &mut Telling<'l, 'a>)
    requires short { length telling.old.text.now < 2 ^ 63 }
    requires none { (telling.old.fault ≡ None) × (telling.old.copied_len ≡ 0) }
    ensures line { telling.new.line.ghost_name ≡ telling.old.line.ghost_name }
    ensures parts { telling.new.parts.ghost_name ≡ telling.old.parts.ghost_name }
    ensures room { telling.new.room.ghost_name ≡ telling.old.room.ghost_name }
    ensures size { length telling.new.parts.now ≡ length telling.old.parts.now }
    ensures room_size { length telling.new.room.now.bytes.now ≡ length telling.old.room.now.bytes.now }
    ensures told { Told (answer (rules_of dialect) telling.old.text.now) telling.new.fault (told_line telling.new) telling.new.parts.now
        telling.new.room.now.bytes.now }
{
    let _stop = read_placed_events(dialect, telling.text, telling);
}

// Gives back what was lent. This changes nothing; it is where the loans end, so that the caller knows what they leave.
#[inline(always)]
fn give_back(line: &mut Line<'_>, parts: &mut [Part<'_>], room: &mut Room<'_>)
    ensures line { line.new ≡ line.old }
    ensures parts { parts.new ≡ parts.old }
    ensures room { room.new ≡ room.old }
{}

// Puts out what the trimmed text `text` says, as far as it fits, and gives the fault that was told.
#[inline(always)]
fn put_told<'a>(
    dialect: Dialect,
    text: &'a str,
    room: &mut Room<'a>,
    line: &mut Line<'a>,
    parts: &mut [Part<'a>],
) -> Option<SpelledFault<'a>>
    requires { length text.now < 2 ^ 63 }
    ensures told { Told (answer (rules_of dialect) text.now) result line.new parts.new room.new.bytes.now }
    ensures room { length room.new.bytes.now ≡ length room.old.bytes.now }
{
    let mut telling = Telling {
        text,
        line,
        parts,
        room,
        tags: 0,
        fields: 0,
        copied_len: 0,
        fault: None,
    };
    tell_line(dialect, &mut telling);
    let Telling {
        line,
        parts,
        room,
        tags,
        fields,
        copied_len,
        fault,
        ..
    } = telling;
    line.tags = tags;
    line.fields = fields;
    line.copied_len = copied_len;
    give_back(line, parts, room);
    fault
}

// Puts out the item of the trimmed text `text`, or says how much more it takes. Room that was handed out cannot be taken back, so a
// line that is told only writes its copies there; they are handed out once the line has ended, and has all that it takes.
//
// It is the one function around the reader: so a fault stays in it, and the function is small enough for the reader to be inlined.
#[inline(never)]
pub(crate) fn put_item<'a>(
    dialect: Dialect,
    text: &'a str,
    room: &mut Room<'a>,
    line: &mut Line<'a>,
    parts: &mut [Part<'a>],
) -> Answer
    requires { length text.now < 2 ^ 63 }
    ensures answers { AnswersItem (Some (answer (rules_of dialect) text.now)) (length room.old.bytes.now) result line.new parts.new }
    ensures taken { length room.new.bytes.now + taken_by (answer_number result) line.new ≡ length room.old.bytes.now }
    ensures fits { answer_number result ≡ 1 → line.new.tags + line.new.fields ≤ length parts.new }
{
    if let Some(fault) = put_told(dialect, text, room, line, parts) {
        return put_fault(fault, room, line);
    }
    if parts.len() < line.tags || parts.len() - line.tags < line.fields {
        return Answer::MoreParts;
    }
    if room.bytes.len() < line.copied_len {
        return Answer::MoreRoom;
    }
    if line.copied_len != 0 {
        fill_line(room, line, parts);
    }
    Answer::Line
}
