//! Lines that callers hand in by offsets: the places are tested, and what lies there becomes a line of the library.

ghost use Rattle.std.specs.Prelude.{◌≡◌, ◌<◌, ◌+◌, [], ◌∷◌, ◌++◌, drop, length, map, option_map, take, IfOk, IfErr, OnOk};
ghost use Rattle.std.specs.List.{AllByRecursion};
ghost use Rattle.influxdb_line_protocol.specs.code.Parsed.{field_of, parsed_point, tag_of, tags_of};
ghost use Rattle.influxdb_line_protocol.specs.code.ReadValues.{value_of};
ghost use Rattle.influxdb_line_protocol.specs.format.Lines.{logical_field, logical_tag, logical_value, some_tags};
ghost use Rattle.lp_c.specs.Handed.{RefusesFor};
ghost use Rattle.lp_c.specs.HandedRows.{IsFieldAt, IsRowIn, IsTagAt, IsTextAt, IsValueAt, field_there, point_there, tag_there, value_there};
ghost use Rattle.lp_offsets.specs.Offsets.{bytes_at};
ghost use Rattle.lp_offsets.specs.Portions.{IsSpanIn};

use influxdb_line_protocol::{EscapedStr, FieldSet, FieldValue, FloatText, ParsedLine, TagSet};
use lp_offsets::enums::{Answer, Kind};
use lp_offsets::offsets::OffsetRow;
use lp_offsets::placed::{OffsetPart, Span};
use lp_offsets::portions::{Portion, no_portion};
use std::alloc::Global;

// Where the texts of rows lie: in bytes, of which a portion was tested, or in the room.
#[derive(Clone, Copy)]
pub(crate) struct Texts<'a> {
    pub(crate) portion: Portion<'a>,
    pub(crate) room: &'a [u8],
}

// The text at a place of bytes, of which a portion was tested.
#[inline(always)]
fn text_in<'a>(portion: &Portion<'a>, span: Span) -> Result<&'a str, Answer>
    ensures ok { IfOk result (λ t. IsSpanIn portion.now.bytes.now span × (t.now ≡ take span.len (drop span.at portion.now.bytes.now))) }
    ensures err { IfErr result (λ e. RefusesFor (IsSpanIn portion.now.bytes.now span) e) }
{
    let at = span.at as usize;
    let len = span.len as usize;
    if portion.bytes.len() < at + len {
        return Err(Answer::NotALine);
    }
    match portion.text_at(at, len) {
        Some(found) => Ok(found),
        None => Err(Answer::NotALine),
    }
}

// The text at a place: in the room, if it was copied, or else in the bytes.
#[inline(always)]
fn text_at<'a>(texts: &Texts<'a>, copied: u16, span: Span) -> Result<&'a str, Answer>
    ensures ok { IfOk result (λ t. IsTextAt texts.now.portion.bytes.now texts.now.room.now copied span
        × (t.now ≡ bytes_at texts.now.portion.bytes.now texts.now.room.now copied span)) }
    ensures err { IfErr result (λ e. RefusesFor (IsTextAt texts.now.portion.bytes.now texts.now.room.now copied span) e) }
{
    if copied == 0 {
        text_in(&texts.portion, span)
    } else {
        text_in(&no_portion(texts.room, 0), span)
    }
}

// The tag of a part.
fn tag_at<'a>(
    texts: &Texts<'a>,
    part: &OffsetPart,
) -> Result<(EscapedStr<'a>, EscapedStr<'a>), Answer>
    ensures ok { IfOk result (λ t. IsTagAt texts.now.portion.bytes.now texts.now.room.now part.now
        × (logical_tag (tag_of t) ≡ tag_there texts.now.portion.bytes.now texts.now.room.now part.now)) }
    ensures err { IfErr result (λ e. RefusesFor (IsTagAt texts.now.portion.bytes.now texts.now.room.now part.now) e) }
{
    if part.kind != Kind::Tag.number() {
        return Err(Answer::NotALine);
    }
    let key = text_at(texts, part.key_copied, part.key)?;
    let value = text_at(texts, part.text_copied, part.text)?;
    Ok((EscapedStr::SingleSlice(key), EscapedStr::SingleSlice(value)))
}

// The literal of a part that is a float.
fn literal_at<'a>(texts: &Texts<'a>, part: &OffsetPart) -> Result<FieldValue<'a>, Answer>
    requires { part.now.kind ≡ 3 }
    ensures ok { IfOk result (λ v. IsValueAt texts.now.portion.bytes.now texts.now.room.now part.now
        × (logical_value (value_of v) ≡ value_there texts.now.portion.bytes.now texts.now.room.now part.now)) }
    ensures err { IfErr result (λ e. RefusesFor (IsValueAt texts.now.portion.bytes.now texts.now.room.now part.now) e) }
{
    let spelling = text_at(texts, part.text_copied, part.text)?;
    match FloatText::new(spelling) {
        Some(literal) => Ok(FieldValue::F64(literal)),
        None => Err(Answer::NotALine),
    }
}

// The value of a part that is a field.
fn value_at<'a>(texts: &Texts<'a>, part: &OffsetPart) -> Result<FieldValue<'a>, Answer>
    ensures ok { IfOk result (λ v. IsValueAt texts.now.portion.bytes.now texts.now.room.now part.now
        × (logical_value (value_of v) ≡ value_there texts.now.portion.bytes.now texts.now.room.now part.now)) }
    ensures err { IfErr result (λ e. RefusesFor (IsValueAt texts.now.portion.bytes.now texts.now.room.now part.now) e) }
{
    match part.kind {
        1 => Ok(FieldValue::I64(part.number.cast_signed())),
        2 => Ok(FieldValue::U64(part.number)),
        3 => literal_at(texts, part),
        4 => {
            let string = text_at(texts, part.text_copied, part.text)?;
            Ok(FieldValue::String(EscapedStr::SingleSlice(string)))
        }
        5 => Ok(FieldValue::Boolean(part.number == 1)),
        _ => Err(Answer::NotALine),
    }
}

// The field of a part.
fn field_at<'a>(
    texts: &Texts<'a>,
    part: &OffsetPart,
) -> Result<(EscapedStr<'a>, FieldValue<'a>), Answer>
    ensures ok { IfOk result (λ f. IsFieldAt texts.now.portion.bytes.now texts.now.room.now part.now
        × (logical_field (field_of f) ≡ field_there texts.now.portion.bytes.now texts.now.room.now part.now)) }
    ensures err { IfErr result (λ e. RefusesFor (IsFieldAt texts.now.portion.bytes.now texts.now.room.now part.now) e) }
{
    let key = text_at(texts, part.key_copied, part.key)?;
    let value = value_at(texts, part)?;
    Ok((EscapedStr::SingleSlice(key), value))
}

// Takes the tags of parts into an empty set.
fn take_tags<'a>(
    texts: &Texts<'a>,
    parts: &[OffsetPart],
    tags: &mut TagSet<'a>,
) -> Result<(), Answer>
    requires { tags.old.items ≡ [] }
    ensures are { OnOk result (AllByRecursion (IsTagAt texts.now.portion.bytes.now texts.now.room.now) parts.now) }
    ensures taken { OnOk result (map logical_tag (map tag_of tags.new.items)
        ≡ map (tag_there texts.now.portion.bytes.now texts.now.room.now) parts.now) }
    ensures err { IfErr result (λ e. RefusesFor (AllByRecursion (IsTagAt texts.now.portion.bytes.now texts.now.room.now) parts.now) e) }
{
    for part in parts {
        let tag = tag_at(texts, part)?;
        let Ok(()) = tags.push(tag) else {
            return Err(Answer::OutOfMemory);
        };
    }
    Ok(())
}

// Takes the tags of parts into a set of a line that has none: apart from the code for the lines after it, which then makes no room for a set.
#[cold]
#[inline(never)]
fn take_first_tags<'a>(
    alloc: Global,
    texts: &Texts<'a>,
    parts: &[OffsetPart],
    set: &mut Option<TagSet<'a>>,
) -> Result<(), Answer>
    ensures are { OnOk result (AllByRecursion (IsTagAt texts.now.portion.bytes.now texts.now.room.now) parts.now) }
    ensures taken { OnOk result (map logical_tag (some_tags (option_map tags_of set.new))
        ≡ map (tag_there texts.now.portion.bytes.now texts.now.room.now) parts.now) }
    ensures err { IfErr result (λ e. RefusesFor (AllByRecursion (IsTagAt texts.now.portion.bytes.now texts.now.room.now) parts.now) e) }
{
    let mut tags = TagSet::new(alloc);
    take_tags(texts, parts, &mut tags)?;
    *set = Some(tags);
    Ok(())
}

// Takes the fields of parts into an empty set.
fn take_fields<'a>(
    texts: &Texts<'a>,
    parts: &[OffsetPart],
    fields: &mut FieldSet<'a>,
) -> Result<(), Answer>
    requires { fields.old.items ≡ [] }
    ensures are { OnOk result (AllByRecursion (IsFieldAt texts.now.portion.bytes.now texts.now.room.now) parts.now) }
    ensures taken { OnOk result (map logical_field (map field_of fields.new.items)
        ≡ map (field_there texts.now.portion.bytes.now texts.now.room.now) parts.now) }
    ensures len { OnOk result (length fields.new.items ≡ length parts.now) }
    ensures err { IfErr result (λ e. RefusesFor (AllByRecursion (IsFieldAt texts.now.portion.bytes.now texts.now.room.now) parts.now) e) }
{
    for part in parts {
        let field = field_at(texts, part)?;
        let Ok(()) = fields.push(field) else {
            return Err(Answer::OutOfMemory);
        };
    }
    Ok(())
}

/// Takes the line that a row and its parts hold into the place of another, whose memory is used again.
pub(crate) fn take_row<'a>(
    alloc: Global,
    texts: &Texts<'a>,
    row: &OffsetRow,
    parts: &[OffsetPart],
    taken: &mut ParsedLine<'a>,
) -> Result<(), Answer>
    ensures ok { OnOk result (IsRowIn texts.now.portion.bytes.now texts.now.room.now parts.now row.now
        × (parsed_point taken.new ≡ point_there texts.now.portion.bytes.now texts.now.room.now parts.now row.now)) }
    ensures some { OnOk result (0 < length taken.new.field_set.items) }
    ensures err { IfErr result (λ e. RefusesFor (IsRowIn texts.now.portion.bytes.now texts.now.room.now parts.now row.now) e) }
{
    let measurement = text_at(texts, row.measurement_copied, row.measurement)?;
    taken.series.measurement = EscapedStr::SingleSlice(measurement);
    let at = row.parts_at as usize;
    let fields_at = at + row.tags as usize;
    let end = fields_at + row.fields as usize;
    if parts.len() < end || row.fields == 0 {
        return Err(Answer::NotALine);
    }
    taken.timestamp = if row.has_timestamp == 1 {
        Some(row.timestamp)
    } else {
        None
    };
    if let Some(tags) = &mut taken.series.tag_set {
        tags.clear();
        take_tags(texts, &parts[at..fields_at], tags)?;
    } else {
        take_first_tags(
            alloc,
            texts,
            &parts[at..fields_at],
            &mut taken.series.tag_set,
        )?;
    }
    taken.field_set.clear();
    take_fields(texts, &parts[fields_at..end], &mut taken.field_set)
}
