//! Lines that callers hand in: the views are tested, and become a line of the library.

ghost use Rattle.std.specs.Prelude.{◌≡◌, ◌≤◌, ◌<◌, ◌+◌, [], ◌∷◌, ◌++◌, length, map, false, IfOk, IfErr, OnOk, IsUtf8};
ghost use Rattle.std.specs.List.{AllByRecursion};
ghost use Rattle.influxdb_line_protocol.specs.code.Parsed.{field_of, line_read, tag_of};
ghost use Rattle.influxdb_line_protocol.specs.code.ReadValues.{value_of};
ghost use Rattle.influxdb_line_protocol.specs.code.Texts.{read_of};
ghost use Rattle.lp_c.specs.Handed.{IsFieldIn, IsLineIn, IsSeriesIn, IsSeriesRead, IsTagIn, IsValueIn, RefusesFor};
ghost use Rattle.lp_offsets.specs.declared.enums.Answer.TheVariants.{NotALine};
ghost use Rattle.lp_c.specs.Handed.{field_in, line_in, tag_in, text_in, value_in};

use crate::views::{Line, Part, View};
use influxdb_line_protocol::{
    EscapedStr, FieldSet, FieldValue, FloatText, ParsedLine, Series, TagSet,
};
use lp_offsets::enums::{Answer, Kind};
use std::alloc::Global;

// The text of a view: a copy of it if the view says that it was copied and `copies` asks for that, and else the bytes that it lends.
fn text_in<'a>(alloc: Global, copies: bool, view: &View<'a>) -> Result<EscapedStr<'a>, Answer>
    ensures ok { IfOk result (λ t. IsUtf8 view.now.text.now × (read_of t ≡ text_in copies view.now)) }
    ensures err { IfErr result (λ e. RefusesFor (IsUtf8 view.now.text.now) e) }
    ensures told { copies ≡ false → IfErr result (λ e. e ≡ NotALine) }
{
    let Ok(text) = str::from_utf8(view.text) else {
        return Err(Answer::NotALine);
    };
    if !copies || !view.copied {
        return Ok(EscapedStr::SingleSlice(text));
    }
    match String::from_str(alloc, text) {
        Ok(copy) => Ok(EscapedStr::CopiedValue(copy)),
        Err(_) => Err(Answer::OutOfMemory),
    }
}

// The tag of a part.
fn tag_in<'a>(
    alloc: Global,
    copies: bool,
    part: &Part<'a>,
) -> Result<(EscapedStr<'a>, EscapedStr<'a>), Answer>
    ensures ok { IfOk result (λ t. IsTagIn part.now × (tag_of t ≡ tag_in copies part.now)) }
    ensures err { IfErr result (λ e. RefusesFor (IsTagIn part.now) e) }
    ensures told { copies ≡ false → IfErr result (λ e. e ≡ NotALine) }
{
    if part.kind != Kind::Tag.number() {
        return Err(Answer::NotALine);
    }
    let key = text_in(alloc, copies, &part.key)?;
    let value = text_in(alloc, copies, &part.text)?;
    Ok((key, value))
}

// The literal of a part that is a float.
fn literal_in<'a>(part: &Part<'a>) -> Result<FieldValue<'a>, Answer>
    requires { part.now.kind ≡ 3 }
    ensures ok { IfOk result (λ v. IsValueIn part.now × (value_of v ≡ value_in false part.now)) }
    ensures err { IfErr result (λ e. RefusesFor (IsValueIn part.now) e) }
    ensures told { IfErr result (λ e. e ≡ NotALine) }
{
    let Ok(text) = str::from_utf8(part.text.text) else {
        return Err(Answer::NotALine);
    };
    match FloatText::new(text) {
        Some(literal) => Ok(FieldValue::F64(literal)),
        None => Err(Answer::NotALine),
    }
}

// The value of a part that is a field.
fn value_in<'a>(alloc: Global, copies: bool, part: &Part<'a>) -> Result<FieldValue<'a>, Answer>
    ensures ok { IfOk result (λ v. IsValueIn part.now × (value_of v ≡ value_in copies part.now)) }
    ensures err { IfErr result (λ e. RefusesFor (IsValueIn part.now) e) }
    ensures told { copies ≡ false → IfErr result (λ e. e ≡ NotALine) }
{
    match part.kind {
        1 => Ok(FieldValue::I64(part.integer)),
        2 => Ok(FieldValue::U64(part.unsigned)),
        3 => literal_in(part),
        4 => Ok(FieldValue::String(text_in(alloc, copies, &part.text)?)),
        5 => Ok(FieldValue::Boolean(part.boolean)),
        _ => Err(Answer::NotALine),
    }
}

// The field of a part.
fn field_in<'a>(
    alloc: Global,
    copies: bool,
    part: &Part<'a>,
) -> Result<(EscapedStr<'a>, FieldValue<'a>), Answer>
    ensures ok { IfOk result (λ f. IsFieldIn part.now × (field_of f ≡ field_in copies part.now)) }
    ensures err { IfErr result (λ e. RefusesFor (IsFieldIn part.now) e) }
    ensures told { copies ≡ false → IfErr result (λ e. e ≡ NotALine) }
{
    let key = text_in(alloc, copies, &part.key)?;
    let value = value_in(alloc, copies, part)?;
    Ok((key, value))
}

// Takes the tags of parts into an empty set.
fn take_tags<'a>(
    alloc: Global,
    copies: bool,
    parts: &[Part<'a>],
    tags: &mut TagSet<'a>,
) -> Result<(), Answer>
    requires none { tags.old.items ≡ [] }
    requires room { 8 ≤ tags.old.capacity }
    ensures are { OnOk result (AllByRecursion IsTagIn parts.now) }
    ensures taken { OnOk result (map tag_of tags.new.items ≡ map (tag_in copies) parts.now) }
    ensures err { IfErr result (λ e. RefusesFor (AllByRecursion IsTagIn parts.now) e) }
    ensures told { copies ≡ false → length parts.now ≤ 8 → IfErr result (λ e. e ≡ NotALine) }
{
    for part in parts {
        let tag = tag_in(alloc, copies, part)?;
        let Ok(()) = tags.push(tag) else {
            return Err(Answer::OutOfMemory);
        };
    }
    Ok(())
}

// Takes the fields of parts into an empty set.
fn take_fields<'a>(
    alloc: Global,
    copies: bool,
    parts: &[Part<'a>],
    fields: &mut FieldSet<'a>,
) -> Result<(), Answer>
    requires none { fields.old.items ≡ [] }
    requires room { 4 ≤ fields.old.capacity }
    ensures are { OnOk result (AllByRecursion IsFieldIn parts.now) }
    ensures taken { OnOk result (map field_of fields.new.items ≡ map (field_in copies) parts.now) }
    ensures err { IfErr result (λ e. RefusesFor (AllByRecursion IsFieldIn parts.now) e) }
    ensures told { copies ≡ false → length parts.now ≤ 4 → IfErr result (λ e. e ≡ NotALine) }
{
    for part in parts {
        let field = field_in(alloc, copies, part)?;
        let Ok(()) = fields.push(field) else {
            return Err(Answer::OutOfMemory);
        };
    }
    Ok(())
}

/// Takes the series that views hold into the place of another.
pub(crate) fn take_series<'a>(
    alloc: Global,
    copies: bool,
    line: &Line<'a>,
    parts: &[Part<'a>],
    series: &mut Series<'a>,
) -> Result<(), Answer>
    ensures ok { OnOk result (IsSeriesIn line.now parts.now × IsSeriesRead copies line.now parts.now series.new) }
    ensures err { IfErr result (λ e. RefusesFor (IsSeriesIn line.now parts.now) e) }
    ensures told { copies ≡ false → line.now.tags ≤ 8 → IfErr result (λ e. e ≡ NotALine) }
{
    let Ok(raw_input) = str::from_utf8(line.series) else {
        return Err(Answer::NotALine);
    };
    series.raw_input = raw_input;
    series.measurement = text_in(alloc, copies, &line.measurement)?;
    if parts.len() < line.tags {
        return Err(Answer::NotALine);
    }
    if !line.has_tag_set {
        series.tag_set = None;
        return if line.tags == 0 {
            Ok(())
        } else {
            Err(Answer::NotALine)
        };
    }
    let tags = series.tag_set.insert(TagSet::new(alloc));
    take_tags(alloc, copies, &parts[..line.tags], tags)
}

/// A line that says nothing, into which a line is taken.
pub(crate) fn empty_line<'a>(alloc: Global) -> ParsedLine<'a>
    ensures none { result.field_set.items ≡ [] }
    ensures room { 4 ≤ result.field_set.capacity }
{
    ParsedLine {
        series: Series {
            raw_input: "",
            measurement: EscapedStr::SingleSlice(""),
            tag_set: None,
        },
        field_set: FieldSet::new(alloc),
        timestamp: None,
    }
}

/// Takes the line that views hold into one that says nothing.
pub(crate) fn take_line<'a>(
    alloc: Global,
    copies: bool,
    line: &Line<'a>,
    parts: &[Part<'a>],
    taken: &mut ParsedLine<'a>,
) -> Result<(), Answer>
    requires none { taken.old.field_set.items ≡ [] }
    requires room { 4 ≤ taken.old.field_set.capacity }
    ensures ok { OnOk result (IsLineIn line.now parts.now × (line_read taken.new ≡ line_in copies line.now parts.now)) }
    ensures some { OnOk result (0 < length taken.new.field_set.items) }
    ensures err { IfErr result (λ e. RefusesFor (IsLineIn line.now parts.now) e) }
    ensures told { copies ≡ false → line.now.tags ≤ 8 → line.now.fields ≤ 4 → IfErr result (λ e. e ≡ NotALine) }
{
    take_series(alloc, copies, line, parts, &mut taken.series)?;
    if line.fields == 0 {
        return Err(Answer::NotALine);
    }
    let fields = &parts[line.tags..];
    if fields.len() < line.fields {
        return Err(Answer::NotALine);
    }
    taken.timestamp = if line.has_timestamp {
        Some(line.timestamp)
    } else {
        None
    };
    take_fields(alloc, copies, &fields[..line.fields], &mut taken.field_set)
}
