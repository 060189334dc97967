//! Texts, tags and fields by offsets.
//!
//! A slice has no place in the text that it is a part of. So the place of a text is reckoned from how many bytes of its line are left
//! after it, which a reader tells: a subtraction, and no look at its bytes.

ghost use Rattle.std.specs.Prelude.{◌≡◌, ◌≤◌, ◌+◌, ◌-◌, ◌^◌, ◌<◌, drop, take, length, min, true, Some, IfNone, IfSome};
ghost use Rattle.influxdb_line_protocol.specs.code.Events.{spelled_field, spelled_tag};
ghost use Rattle.influxdb_line_protocol.specs.code.SpelledParts.{spelled_text, spelled_value, spelling_of};
ghost use Rattle.influxdb_line_protocol.specs.format.Lines.{logical_field, logical_tag};
ghost use Rattle.lp_offsets.specs.Numbers.{kind_number};
ghost use Rattle.lp_offsets.specs.Offsets.{IsLineIn, bytes_at, field_at, field_len, part_room, tag_at, tag_len, text_room};
ghost use Rattle.lp_offsets.specs.Rooms.{Grows, Shows, TakesRoom};
ghost use Rattle.lp_events.specs.code.Places.{AreBefore, EndsBefore, ValueEndsBefore};

use crate::enums::Kind;
use influxdb_line_protocol::{Dialect, Spelled, SpelledValue};
use lp_values::spelled::shared;

/// So many bytes from a place on.
#[repr(C)]
#[derive(Clone, Copy)]
pub struct Span {
    /// Where they begin.
    pub at: u32,
    /// How many they are.
    pub len: u32,
}

/// A tag or a field by offsets, in 32 bytes.
#[repr(C)]
#[derive(Clone, Copy)]
pub struct OffsetPart {
    /// Where the key lies.
    pub key: Span,
    /// Where the value of a tag or of a string lies, or the literal of a float.
    pub text: Span,
    /// The value of an integer, in two's complement, or of an unsigned integer, or 1 for `true`; 0 of any other.
    pub number: u64,
    /// The number of a [`Kind`].
    pub kind: u32,
    /// 1 if the key lies in the room, and 0 if it lies in the text.
    pub key_copied: u16,
    /// The same of the text.
    pub text_copied: u16,
}

// Where a text lies, and whether it lies in the room.
#[derive(Clone, Copy)]
pub(crate) struct Placed {
    pub(crate) span: Span,
    pub(crate) copied: u16,
}

/// Whether a text reads as it is spelled: it holds no backslash.
#[inline(always)]
pub fn reads_as_spelled(text: Spelled<'_>) -> bool
    ensures { result ≡ true → spelled_text text.entry ≡ record { bytes = spelling_of text.entry; is_single = true } }
{
    text.is_plain()
}

// No place.
pub(crate) const NOWHERE: Placed = Placed {
    span: Span { at: 0, len: 0 },
    copied: 0,
};

// So many bytes from a place on, if 32 bits hold both numbers.
#[inline(always)]
fn span_of(at: usize, len: usize) -> Option<Span>
    ensures some { IfSome result (λ span. (span.at ≡ at) × (span.len ≡ len) × (at + len < 2 ^ 33)) }
    ensures none { IfNone result (2 ^ 32 ≤ at + len) }
{
    let (Ok(at), Ok(len)) = (u32::try_from(at), u32::try_from(len)) else {
        return None;
    };
    Some(Span { at, len })
}

// A line in a text, and the rules by which it is read.
#[derive(Clone, Copy)]
pub(crate) struct LineIn<'a> {
    pub(crate) rules: Dialect,
    pub(crate) text: &'a [u8],
    pub(crate) line: &'a str,
    // Where the line ends in the text.
    pub(crate) end: usize,
    ghost lies: { IsLineIn text.now line.now end },
}

// A tag or a field in a line: how many bytes of the line are left after its key, and after its value.
#[derive(Clone, Copy)]
pub(crate) struct PartIn<'a> {
    pub(crate) line: LineIn<'a>,
    pub(crate) key_left: usize,
    pub(crate) left: usize,
}

// The place of so many bytes of a line that ends at this place, with so many left after them.
#[inline(always)]
fn place_before(end: usize, left: usize, len: usize) -> Placed
    requires { (left + len ≤ end) × (end < 2 ^ 32) }
    ensures copied { result.copied ≡ 0 }
    ensures at { result.span.at ≡ end - (left + len) }
    ensures len { result.span.len ≡ len }
{
    Placed {
        span: Span {
            at: (end - (left + len)) as u32,
            len: len as u32,
        },
        copied: 0,
    }
}

/// Puts the logical text of a spelling into the room after the bytes in use, if it fits, and says how many are in use with it. It gives a
/// number, since what a call fills as a whole lies in memory, and each text that is told would go there first.
#[cold]
#[inline(never)]
pub fn put_copy(room: &mut [u8], used: usize, spelled: Spelled<'_>) -> usize
    ensures grows { Grows room.old used room.new result }
    ensures counted { result ≡ min (used + length (spelled_text spelled.entry).bytes) (2 ^ 64 - 1) }
    ensures shows { Shows (λ r. take (length (spelled_text spelled.entry).bytes) (drop used r)) room.new result
        (spelled_text spelled.entry).bytes }
    ensures takes { TakesRoom room.new used result (length (spelled_text spelled.entry).bytes) }
{
    let more = spelled.len();
    let all = used.saturating_add(more);
    if room.len() < all {
        return all;
    }
    spelled.put(&mut room[used..]);
    all
}

// Where the bytes of the room lie that come after those in use, and how many are in use with them: more than there are, if 32 bits hold no
// such place.
#[inline(always)]
fn place_copied(room: &[u8], used: usize, all: usize) -> (Placed, usize)
    requires { used ≤ all }
    ensures more { all ≤ result.1 }
    ensures fits { result.1 ≤ length room.now → (result.1 ≡ all) × (result.0.span.at ≡ used) × (result.0.span.len ≡ all - used)
        × (result.0.copied ≡ 1) }
    ensures bound { length room.now < 2 ^ 32 → result.1 ≡ all }
{
    match span_of(used, all - used) {
        Some(span) => (Placed { span, copied: 1 }, all),
        None => (NOWHERE, all.max(room.len() + 1)),
    }
}

// A text with a backslash, if it is one escape: the byte after the backslash.
#[cold]
#[inline(never)]
fn escape_of<'a>(spelled: Spelled<'a>) -> Option<&'a str>
    ensures { IfSome result (λ shown. record { bytes = shown.now; is_single = true } ≡ spelled_text spelled.entry) }
{
    shared(spelled)
}

// Where a text lies after which so many bytes of the line are left: in the line, if it is a part of that, or else in the room, into which
// it is put. If it reads as it is spelled, it begins where as many bytes were left as before it was read, so its place is a subtraction.
#[inline(always)]
pub(crate) fn place_text(
    line: LineIn<'_>,
    left: usize,
    room: &mut [u8],
    used: usize,
    spelled: Spelled<'_>,
) -> (Placed, usize)
    requires { EndsBefore line.line.now (spelled_text spelled) left }
    ensures grows { Grows room.old used room.new result.1 }
    ensures bound { length room.old < 2 ^ 32 → result.1 ≤ used + length (spelled_text spelled.entry).bytes }
    ensures takes { TakesRoom room.new used result.1 (text_room result.0.copied result.0.span) }
    ensures shows { Shows (λ r. bytes_at line.entry.text.now r result.0.copied result.0.span) room.new result.1
        (spelled_text spelled.entry).bytes }
{
    if reads_as_spelled(spelled) {
        return (place_before(line.end, left, spelled.spelled().len()), used);
    }
    if let Some(shown) = escape_of(spelled) {
        return (place_before(line.end, left, shown.len()), used);
    }
    let all = put_copy(room, used, spelled);
    place_copied(room, used, all)
}

// Places the texts of a tag.
#[inline(always)]
pub(crate) fn place_tag(
    part: PartIn<'_>,
    room: &mut [u8],
    used: usize,
    key: Spelled<'_>,
    value: Spelled<'_>,
) -> (OffsetPart, usize)
    requires key { EndsBefore part.line.line.now (spelled_text key) part.key_left }
    requires value { EndsBefore part.line.line.now (spelled_text value) part.left }
    ensures grows { Grows room.old used room.new result.1 }
    ensures bound { length room.old < 2 ^ 32 → result.1 ≤ used + tag_len (spelled_tag (key.entry, value.entry)) }
    ensures takes { TakesRoom room.new used result.1 (part_room result.0) }
    ensures shows { Shows (λ r. tag_at part.entry.line.text.now r result.0) room.new result.1
        (Some (logical_tag (spelled_tag (key.entry, value.entry)))) }
{
    let (key, used) = place_text(part.line, part.key_left, room, used, key);
    let (value, used) = place_text(part.line, part.left, room, used, value);
    (part_of(key, value, Kind::Tag, 0), used)
}

// A part of these texts, of this kind and this number.
#[inline(always)]
fn part_of(key: Placed, text: Placed, kind: Kind, number: u64) -> OffsetPart
    ensures { result ≡ record {
      key = key.span;
      text = text.span;
      number = number;
      kind = kind_number kind;
      key_copied = key.copied;
      text_copied = text.copied;
    } }
{
    OffsetPart {
        key: key.span,
        text: text.span,
        number,
        kind: kind.number(),
        key_copied: key.copied,
        text_copied: text.copied,
    }
}

// Places the literal of a float, with so many bytes of the line left after it.
#[inline(always)]
fn place_literal(line: LineIn<'_>, left: usize, literal: &str) -> Placed
    requires { AreBefore line.line.now literal.now left }
    ensures copied { result.copied ≡ 0 }
    ensures bytes { take result.span.len (drop result.span.at line.entry.text.now) ≡ literal.now }
{
    place_before(line.end, left, literal.len())
}

// Places the texts of a field.
#[inline(always)]
pub(crate) fn place_field(
    part: PartIn<'_>,
    room: &mut [u8],
    used: usize,
    key: Spelled<'_>,
    value: SpelledValue<'_>,
) -> (OffsetPart, usize)
    requires key { EndsBefore part.line.line.now (spelled_text key) part.key_left }
    requires value { ValueEndsBefore part.line.line.now (spelled_value value) part.left }
    ensures grows { Grows room.old used room.new result.1 }
    ensures bound { length room.old < 2 ^ 32 → result.1 ≤ used + field_len (spelled_field (key.entry, value.entry)) }
    ensures takes { TakesRoom room.new used result.1 (part_room result.0) }
    ensures shows { Shows (λ r. field_at part.entry.line.text.now r result.0) room.new result.1
        (Some (logical_field (spelled_field (key.entry, value.entry)))) }
{
    let (key, used) = place_text(part.line, part.key_left, room, used, key);
    match value {
        SpelledValue::I64(integer) => (
            part_of(key, NOWHERE, Kind::Integer, integer.cast_unsigned()),
            used,
        ),
        SpelledValue::U64(unsigned) => (part_of(key, NOWHERE, Kind::Unsigned, unsigned), used),
        SpelledValue::F64(literal) => {
            let literal = place_literal(part.line, part.left, literal.as_str());
            (part_of(key, literal, Kind::Float, 0), used)
        }
        SpelledValue::String(string) => {
            // The quote is left too.
            let left = part.left.wrapping_add(1);
            let (string, used) = place_text(part.line, left, room, used, string);
            (part_of(key, string, Kind::String, 0), used)
        }
        SpelledValue::Boolean(boolean) => (
            part_of(key, NOWHERE, Kind::Boolean, boolean as u64),
            used,
        ),
    }
}
