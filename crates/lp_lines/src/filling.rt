//! A sink that fills a line with the parts that it is told.
//!
//! The reader asks for no memory. This sink does, for copies and for sets that grow. A sink cannot stop the reader, so this sink
//! keeps a refusal, and the fault of the line, until the line has ended. If a line has a fault, the fault is the answer, even if
//! memory for a part of the line was refused. The line is borrowed, because to move its 904 bytes would copy them.

ghost use Rattle.std.specs.Prelude.{◌≡◌, ◌≤◌, ◌+◌, ◌⊎◌, ◌++◌, ◌∷◌, [], length, map, true, false};
ghost use Rattle.lp_format.specs.code.Light.{is_single_field, is_single_tag, is_single_value};
ghost use Rattle.lp_format.specs.format.Lines.{answer};
ghost use Rattle.lp_values.specs.code.{ReadValues.value_of, SpelledParts.spelled_text, SpelledParts.spelled_value, Texts.read_of};
ghost use Rattle.lp_events.specs.code.Events.{spelled_field, spelled_tag};
ghost use Rattle.lp_split.specs.code.Rules.{rules_of};
ghost use Rattle.lp_lines.specs.code.Filling.{FillsAnswer, KeepsRooms, fields_so_far, first_read, tags_so_far};
ghost use Rattle.lp_format.specs.code.Light.{inline_tags};
ghost use Rattle.lp_lines.specs.code.{Lookups.room_of, Lookups.some_items, Parsed.field_of, Parsed.tag_of};

use crate::{FieldSet, ParsedLine, TagSet};
use lp_events::{EventSink, read_line_events};
use lp_split::Dialect;
use lp_values::spelled::put_text;
use lp_values::{FieldValue, Spelled, SpelledFault, SpelledValue};
use smallvec::SmallVec;
use std::alloc::Global;

// Replaces a value by a spelled value, of whatever kind both are, and returns whether memory for it was granted.
#[inline(always)]
fn put_any_value<'a>(alloc: Global, place: &mut FieldValue<'a>, value: SpelledValue<'a>) -> bool
    ensures value { result ≡ true → value_of place.new ≡ spelled_value value.entry }
    ensures needs { result ≡ false → is_single_value (spelled_value value.entry) ≡ false }
{
    match FieldValue::from_spelled(alloc, value) {
        Ok(value) => {
            *place = value;
            true
        }
        Err(_) => false,
    }
}

// Replaces a value by a spelled value, and returns whether memory for it was granted. If both are of one kind, only the parts
// that differ are written.
#[inline(always)]
fn put_value<'a>(alloc: Global, place: &mut FieldValue<'a>, value: SpelledValue<'a>) -> bool
    ensures value { result ≡ true → value_of place.new ≡ spelled_value value.entry }
    ensures needs { result ≡ false → is_single_value (spelled_value value.entry) ≡ false }
{
    match value {
        SpelledValue::I64(number) => {
            if let FieldValue::I64(place) = place {
                *place = number;
                return true;
            }
        }
        SpelledValue::U64(number) => {
            if let FieldValue::U64(place) = place {
                *place = number;
                return true;
            }
        }
        SpelledValue::F64(literal) => {
            if let FieldValue::F64(place) = place {
                *place = literal;
                return true;
            }
        }
        SpelledValue::String(text) => {
            if let FieldValue::String(place) = place {
                return put_text(alloc, place, text);
            }
        }
        SpelledValue::Boolean(_) => {}
    }
    put_any_value(alloc, place, value)
}

// Appends a tag, and returns whether memory for it was granted.
#[inline(always)]
fn push_tag<'a>(alloc: Global, tags: &mut TagSet<'a>, key: Spelled<'a>, value: Spelled<'a>) -> bool
    ensures pushed { result ≡ true → map tag_of tags.new.items ≡ map tag_of tags.old.items ++ spelled_tag (key.entry, value.entry) ∷ [] }
    ensures needs { result ≡ false → (is_single_tag (spelled_tag (key.entry, value.entry)) ≡ false)
        ⊎ (tags.old.capacity ≤ length (map tag_of tags.old.items)) }
    ensures room { tags.old.capacity ≤ tags.new.capacity }
{
    let Ok(key) = key.to_escaped_str(alloc) else {
        return false;
    };
    let Ok(value) = value.to_escaped_str(alloc) else {
        return false;
    };
    tags.push((key, value)).is_ok()
}

// Puts a tag after the first `count` tags of a set, and counts it, unless memory for it is refused. A tag at this place is
// replaced.
#[inline(always)]
fn put_tag<'a>(
    alloc: Global,
    tags: &mut TagSet<'a>,
    count: &mut usize,
    key: Spelled<'a>,
    value: Spelled<'a>,
) -> bool
    ensures puts { result ≡ true → first_read tag_of count.new tags.new.items
        ≡ first_read tag_of count.old tags.old.items ++ spelled_tag (key.entry, value.entry) ∷ [] }
    ensures needs { result ≡ false → (is_single_tag (spelled_tag (key.entry, value.entry)) ≡ false)
        ⊎ (tags.old.capacity ≤ length (first_read tag_of count.old tags.old.items)) }
    ensures room { tags.old.capacity ≤ tags.new.capacity }
{
    let at = *count;
    if at >= tags.len() {
        let is_pushed = push_tag(alloc, tags, key, value);
        *count = tags.len();
        return is_pushed;
    }
    let place = &mut tags.as_mut_slice()[at];
    if !put_text(alloc, &mut place.0, key) || !put_text(alloc, &mut place.1, value) {
        return false;
    }
    *count = at + 1;
    true
}

// The number of places that a full set gets in addition, at least. With this many, the fields of an ordinary line make it grow
// once.
const MORE: usize = 10;

// Makes room for one more field in a full set.
#[inline(always)]
fn make_room<'a>(fields: &mut FieldSet<'a>) -> bool
    ensures items { fields.new.items ≡ fields.old.items }
    ensures room { fields.old.capacity ≤ fields.new.capacity }
    ensures has_room { result ≡ true → length fields.new.items + 1 ≤ fields.new.capacity }
    ensures needs { result ≡ false → fields.old.capacity ≤ length fields.old.items }
{
    if fields.len() < fields.capacity() {
        return true;
    }
    fields.reserve_exact(fields.len().max(MORE)).is_ok()
}

// Appends a field, and returns whether memory for it was granted. It makes room first, so that no value has to be dropped.
#[inline(always)]
fn push_field<'a>(
    alloc: Global,
    fields: &mut FieldSet<'a>,
    key: Spelled<'a>,
    value: SpelledValue<'a>,
) -> bool
    ensures pushed { result ≡ true
        → map field_of fields.new.items ≡ map field_of fields.old.items ++ spelled_field (key.entry, value.entry) ∷ [] }
    ensures needs { result ≡ false → (is_single_field (spelled_field (key.entry, value.entry)) ≡ false)
        ⊎ (fields.old.capacity ≤ length (map field_of fields.old.items)) }
    ensures room { fields.old.capacity ≤ fields.new.capacity }
{
    if !make_room(fields) {
        return false;
    }
    let Ok(key) = key.to_escaped_str(alloc) else {
        return false;
    };
    let Ok(value) = FieldValue::from_spelled(alloc, value) else {
        return false;
    };
    fields.push_reserved((key, value));
    true
}

// Puts a field after the first `count` fields of a set, and counts it, unless memory for it is refused. A field at this place is
// replaced.
#[inline(always)]
fn put_field<'a>(
    alloc: Global,
    fields: &mut FieldSet<'a>,
    count: &mut usize,
    key: Spelled<'a>,
    value: SpelledValue<'a>,
) -> bool
    ensures puts { result ≡ true → first_read field_of count.new fields.new.items
        ≡ first_read field_of count.old fields.old.items ++ spelled_field (key.entry, value.entry) ∷ [] }
    ensures needs { result ≡ false → (is_single_field (spelled_field (key.entry, value.entry)) ≡ false)
        ⊎ (fields.old.capacity ≤ length (first_read field_of count.old fields.old.items)) }
    ensures room { fields.old.capacity ≤ fields.new.capacity }
{
    let at = *count;
    if at >= fields.len() {
        let is_pushed = push_field(alloc, fields, key, value);
        *count = fields.len();
        return is_pushed;
    }
    let place = &mut fields.as_mut_slice()[at];
    if !put_text(alloc, &mut place.0, key) || !put_value(alloc, &mut place.1, value) {
        return false;
    }
    *count = at + 1;
    true
}

// Gives a line a new tag set. It is a function of its own, because the room for a set that is moved is cleared first.
#[inline(never)]
fn make_tags<'a>(alloc: Global, set: &mut Option<TagSet<'a>>)
    ensures room { inline_tags ≤ room_of set.new }
    ensures items { some_items set.new ≡ [] }
{
    *set = Some(SmallVec::new(alloc));
}

/// A line that is filled: how many of its tags and fields were told, whether memory for a part was refused, and its fault, if it
/// has one.
///
/// The elements of its sets after these are from an earlier line.
#[derive(Drop)]
pub(crate) struct Filling<'l, 'a> {
    pub(crate) alloc: Global,
    pub(crate) line: &'l mut ParsedLine<'a>,
    pub(crate) tag_count: usize,
    pub(crate) field_count: usize,
    pub(crate) refused: bool,
    pub(crate) fault: Option<SpelledFault<'a>>,
}

impl<'l, 'a> EventSink<'a> for Filling<'l, 'a> {
    ghost use Rattle.lp_lines.specs.code.Filling.{FillsBy};

    ghost takes = { FillsBy };

    #[inline(always)]
    fn measurement(&mut self, name: Spelled<'a>) {
        if !put_text(self.alloc, &mut self.line.series.measurement, name) {
            self.refused = true;
        }
    }

    #[inline(always)]
    fn tag(&mut self, key: Spelled<'a>, value: Spelled<'a>) {
        let set = &mut self.line.series.tag_set;
        if set.is_none() {
            make_tags(self.alloc, set);
        }
        let is_put = match set {
            Some(tags) => {
                let _at_least_inline = tags.capacity();
                put_tag(self.alloc, tags, &mut self.tag_count, key, value)
            }
            None => false,
        };
        if !is_put {
            self.refused = true;
        }
    }

    #[inline(always)]
    fn field(&mut self, key: Spelled<'a>, value: SpelledValue<'a>) {
        let fields = &mut self.line.field_set;
        if !put_field(self.alloc, fields, &mut self.field_count, key, value) {
            self.refused = true;
        }
    }

    #[inline(always)]
    fn end(&mut self, series: &'a str, timestamp: Option<i64>) {
        self.line.series.raw_input = series;
        self.line.timestamp = timestamp;
    }

    #[inline(always)]
    fn fault(&mut self, fault: SpelledFault<'a>) {
        self.fault = Some(fault);
    }
}

/// Tells a line that is filled the parts of the trimmed text `line`.
#[tactic(auto, using(crate::proofs::lemmas::line::Filled::filled_steps))]
#[inline(always)]
pub(crate) fn tell_line<'l, 'a>(dialect: Dialect, line: &'a str, filling: &mut Filling<'l, 'a>)
    requires not_refused { filling.old.refused ≡ false }
    requires no_tags { tags_so_far filling.old ≡ [] }
    requires no_fields { fields_so_far filling.old ≡ [] }
    ensures same { filling.new.line.ghost_name ≡ filling.old.line.ghost_name }
    ensures rooms { KeepsRooms filling.old.line.now filling.new.line.now }
    ensures filled { FillsAnswer filling.old (answer (rules_of dialect) line.now) filling.new }
{
    read_line_events(dialect, line, filling);
}
