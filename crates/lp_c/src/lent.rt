//! Texts, tags, fields and faults are put into what the caller lends.

ghost use Rattle.std.specs.Prelude.{◌≡◌, ◌≢◌, ◌+◌, ◌≤◌, ◌-◌, ◌^◌, [], Some, drop, false, length, map, min, take, true};
ghost use Rattle.std.specs.List.{sum_by};
ghost use Rattle.influxdb_line_protocol.specs.code.Events.{spelled_field, spelled_tag};
ghost use Rattle.influxdb_line_protocol.specs.code.SpelledParts.{spelled_fault, spelled_text};
ghost use Rattle.influxdb_line_protocol.specs.format.Lines as format;
ghost use Rattle.lp_c.specs.Crossing.{AnswersFault, ShowsLine, copied_field, copied_tag, copied_text, field_shown, tag_shown, taken_by, text_shown};
ghost use Rattle.lp_c.specs.Telling.{PutsCopy, field_filled, filled_line, filled_own, filled_part, filled_parts, filled_view, part_len, tag_filled, view_filled, view_len, waits_for};
ghost use Rattle.lp_offsets.specs.Numbers.{answer_number, fault_seen, kind_number};

use crate::views::{Line, Part, Room, View};
use influxdb_line_protocol::{Spelled, SpelledFault, SpelledValue};
use lp_offsets::enums::{Answer, Kind};
use lp_offsets::faults::fault_seen;
use lp_offsets::placed::{put_copy, reads_as_spelled};
use lp_values::spelled::shared;
use std::mem;

// Puts a text into the room.
#[inline(never)]
fn put<'a>(room: &mut Room<'a>, text: &[u8]) -> &'a [u8]
    requires { length text.now ≤ length room.old.bytes.now }
    ensures copy { result.now ≡ text.now }
    ensures left { length room.new.bytes.now + length text.now ≡ length room.old.bytes.now }
{
    let bytes = mem::take(&mut room.bytes);
    let (front, rest) = bytes.split_at_mut(text.len());
    front.copy_from_slice(text);
    room.bytes = rest;
    front
}

// How many bytes of room there are with the copy of a text after so many others. A part of the input takes none.
#[inline(always)]
fn count_text(len: usize, text: Spelled<'_>) -> usize
    ensures { result ≡ min (len + copied_text (spelled_text text.entry)) (2 ^ 64 - 1) }
{
    match shared(text) {
        Some(_) => len,
        None => len.saturating_add(text.len()),
    }
}

// The same with the copies of a tag, for which there is no place.
#[cold]
#[inline(never)]
pub fn count_tag(len: usize, key: Spelled<'_>, value: Spelled<'_>) -> usize
    ensures { result ≡ min (len + copied_tag (spelled_tag (key.entry, value.entry))) (2 ^ 64 - 1) }
{
    count_text(count_text(len, key), value)
}

// The same with the copies of a field.
#[cold]
#[inline(never)]
pub fn count_field(len: usize, key: Spelled<'_>, value: SpelledValue<'_>) -> usize
    ensures { result ≡ min (len + copied_field (spelled_field (key.entry, value.entry))) (2 ^ 64 - 1) }
{
    let len = count_text(len, key);
    match value {
        SpelledValue::String(text) => count_text(len, text),
        _ => len,
    }
}

// Shows a text that holds a backslash: a part of the input as it is; of a copy the length, until it is handed out of the room, into
// which it is put after `len` bytes. Says how many bytes there are with it.
#[cold]
#[inline(never)]
fn show_escaped<'a>(
    view: &mut View<'a>,
    room: &mut Room<'_>,
    len: usize,
    text: Spelled<'a>,
) -> usize
    ensures { PutsCopy view_filled view_len (copied_text (spelled_text text.entry)) (spelled_text text.entry) room.old.bytes.now len view.new
        room.new.bytes.now result }
{
    if let Some(shared) = shared(text) {
        view.text = shared.as_bytes();
        view.copied = false;
        return len;
    }
    view.text = &text.spelled().as_bytes()[..text.len()];
    view.copied = true;
    put_copy(room.bytes, len, text)
}

// The same of any text. Most texts hold no backslash: two words and a byte are written.
#[inline(always)]
pub fn show_text<'a>(
    view: &mut View<'a>,
    room: &mut Room<'_>,
    len: usize,
    text: Spelled<'a>,
) -> usize
    ensures { PutsCopy view_filled view_len (copied_text (spelled_text text.entry)) (spelled_text text.entry) room.old.bytes.now len view.new
        room.new.bytes.now result }
{
    view.text = text.spelled().as_bytes();
    view.copied = false;
    if reads_as_spelled(text) {
        return len;
    }
    show_escaped(view, room, len, text)
}

// Shows the kind of a part, and its values beside its text.
#[inline(always)]
fn show_kind(part: &mut Part<'_>, kind: Kind, integer: i64, unsigned: u64, boolean: bool)
    ensures { part.new ≡ record part.old {
      integer = integer;
      unsigned = unsigned;
      kind = kind_number kind;
      boolean = boolean;
    } }
{
    part.integer = integer;
    part.unsigned = unsigned;
    part.kind = kind.number();
    part.boolean = boolean;
}

// Shows a part of this kind and these values that has no text.
#[inline(always)]
fn show_alone(part: &mut Part<'_>, kind: Kind, integer: i64, unsigned: u64, boolean: bool)
    ensures text { text_shown part.new.text ≡ record { bytes = []; is_single = true } }
    ensures others { part.new ≡ record part.old {
      text = part.new.text;
      integer = integer;
      unsigned = unsigned;
      kind = kind_number kind;
      boolean = boolean;
    } }
{
    part.text.text = b"";
    part.text.copied = false;
    show_kind(part, kind, integer, unsigned, boolean);
}

// Shows a tag in the place of a part, word by word: a part that is made and then moved would be written twice.
#[inline(always)]
pub fn show_tag<'a>(
    part: &mut Part<'a>,
    room: &mut Room<'_>,
    len: usize,
    key: Spelled<'a>,
    value: Spelled<'a>,
) -> usize
    ensures { PutsCopy tag_filled part_len (copied_tag (spelled_tag (key.entry, value.entry))) (Some (spelled_tag (key.entry, value.entry)))
        room.old.bytes.now len part.new room.new.bytes.now result }
{
    let len = show_text(&mut part.key, room, len, key);
    show_kind(part, Kind::Tag, 0, 0, false);
    show_text(&mut part.text, room, len, value)
}

// Shows a field in the same way.
#[inline(always)]
pub fn show_field<'a>(
    part: &mut Part<'a>,
    room: &mut Room<'_>,
    len: usize,
    key: Spelled<'a>,
    value: SpelledValue<'a>,
) -> usize
    ensures { PutsCopy field_filled part_len (copied_field (spelled_field (key.entry, value.entry)))
        (Some (spelled_field (key.entry, value.entry))) room.old.bytes.now len part.new room.new.bytes.now result }
{
    let len = show_text(&mut part.key, room, len, key);
    match value {
        SpelledValue::I64(integer) => {
            show_alone(part, Kind::Integer, integer, 0, false);
            len
        }
        SpelledValue::U64(unsigned) => {
            show_alone(part, Kind::Unsigned, 0, unsigned, false);
            len
        }
        SpelledValue::F64(literal) => {
            part.text.text = literal.as_str().as_bytes();
            part.text.copied = false;
            show_kind(part, Kind::Float, 0, 0, false);
            len
        }
        SpelledValue::String(text) => {
            show_kind(part, Kind::String, 0, 0, false);
            show_text(&mut part.text, room, len, text)
        }
        SpelledValue::Boolean(boolean) => {
            show_alone(part, Kind::Boolean, 0, 0, boolean);
            len
        }
    }
}

// Gives a view its copy, off the front of the room, if it waits for one.
#[inline(always)]
fn fill_view<'a>(room: &mut Room<'a>, view: &mut View<'a>)
    requires { view_len view.old ≤ length room.old.bytes.now }
    ensures shown { text_shown view.new ≡ text_shown (filled_view room.old.bytes.now view.old) }
    ensures left { room.new.bytes.now ≡ drop (view_len view.old) room.old.bytes.now }
{
    if view.copied {
        let bytes = mem::take(&mut room.bytes);
        let (front, rest) = bytes.split_at_mut(view.text.len());
        room.bytes = rest;
        view.text = front;
    }
}

// Gives a part its copies.
#[inline(always)]
fn fill_part<'a>(room: &mut Room<'a>, part: &mut Part<'a>)
    requires { part_len part.old ≤ length room.old.bytes.now }
    ensures tag { tag_shown part.new ≡ tag_shown (filled_part room.old.bytes.now part.old) }
    ensures field { field_shown part.new ≡ field_shown (filled_part room.old.bytes.now part.old) }
    ensures left { room.new.bytes.now ≡ drop (part_len part.old) room.old.bytes.now }
{
    fill_view(room, &mut part.key);
    fill_view(room, &mut part.text);
}

// Gives parts their copies.
fn fill_parts<'a>(room: &mut Room<'a>, parts: &mut [Part<'a>])
    requires { sum_by part_len parts.old ≤ length room.old.bytes.now }
    ensures tags { map tag_shown parts.new ≡ map tag_shown (filled_parts room.old.bytes.now parts.old) }
    ensures fields { map field_shown parts.new ≡ map field_shown (filled_parts room.old.bytes.now parts.old) }
    ensures left { length room.new.bytes.now + sum_by part_len parts.old ≡ length room.old.bytes.now }
{
    for at in 0..parts.len() {
        fill_part(room, &mut parts[at]);
    }
}

// Gives a line and its parts their copies, which are at the front of the room.
#[inline(never)]
pub fn fill_line<'a>(room: &mut Room<'a>, line: &mut Line<'a>, parts: &mut [Part<'a>])
    requires fits { line.old.tags + line.old.fields ≤ length parts.old }
    requires room { waits_for line.old parts.old ≤ length room.old.bytes.now }
    ensures shown { (read : format.Line) → ShowsLine read (filled_line room.old.bytes.now line.old)
        (filled_own room.old.bytes.now line.old parts.old) → ShowsLine read line.new parts.new }
    ensures left { length room.new.bytes.now + waits_for line.old parts.old ≡ length room.old.bytes.now }
    ensures kept { line.new ≡ record line.old { measurement = line.new.measurement } }
{
    fill_view(room, &mut line.measurement);
    fill_parts(room, &mut parts[..line.tags + line.fields]);
}

// Puts a fault out, or says how much more room it takes.
#[cold]
#[inline(never)]
pub fn put_fault<'a>(fault: SpelledFault<'a>, room: &mut Room<'a>, line: &mut Line<'a>) -> Answer
    ensures answers { AnswersFault (fault_seen (spelled_fault fault.entry)) (length room.old.bytes.now) result line.new }
    ensures taken { length room.new.bytes.now + taken_by (answer_number result) line.new ≡ length room.old.bytes.now }
    ensures not_a_line { answer_number result ≢ 1 }
{
    let (kind, side, text) = fault_seen(fault);
    line.copied_len = text.len();
    line.tags = 0;
    line.fields = 0;
    line.has_tag_set = false;
    line.has_timestamp = false;
    line.timestamp = 0;
    line.series_is_base = false;
    if room.bytes.len() < text.len() {
        return Answer::MoreRoom;
    }
    line.fault = kind.number();
    line.side = side.number();
    line.fault_text = put(room, text.as_bytes());
    Answer::Fault
}
