//! Finds the clauses of portability that a text breaks.
//!
//! Most lines break no clause, and one reading shows it: see `plain`. Any other text is read into a line. Its names, values and
//! timestamp are checked, and a walk over the text checks how its names are spelled.

ghost use Rattle.std.specs.Prelude.{◌≡◌, ◌↔◌, ◌≤◌, true, IfOk, IsOk, IsTrue, MatchOption, length};
ghost use Rattle.lp_format.specs.{code.Light.is_light, format.IsCutPiece, format.Line, format.Strict, format.some_tags, format.trimmed};
ghost use Rattle.lp_lines.specs.code.{Lookups.some_items, Parsed.line_read};
ghost use Rattle.lp_portable.specs.{code.Clauses.Breaks, code.Clauses.limits_of, code.Clauses.servers_of, format.Portable.IsPortable};
ghost use Rattle.lp_portable.specs.format.Portable.{is_outside};
ghost use Rattle.lp_portable.specs.code.{ByCode.ArePartsOf, ByCode.broken_by_code, Walks.most_compared, Walks.repeats_of};
ghost use Rattle.lp_portable.specs.code.Telling.{IsNoLine, IsTrimmedPiece, TellsBroken, TellsRead};

use crate::broken::Broken;
use crate::keys::has_repeats;
use crate::limits::{Limits, Servers};
use crate::names::{NameBreaks, name_breaks};
use crate::plain::surely_broken;
use crate::values;
use lp_lines::parsed::tags_in;
use lp_lines::{ParsedLine, Unread, read_spelled_into};
use lp_scan::trim::trimmed;
use lp_split::Dialect;
use lp_split::split::{cut_or_track, track_on};
use lp_values::{EscapedStr, FieldValue};
use memchr::memchr3;
use std::alloc::{AllocError, Global};

// Returns true if a newline ends the text as one piece by the strict rules.
fn is_cut_piece(text: &[u8]) -> bool
    ensures { IsTrue result ↔ IsCutPiece Strict text.now }
{
    // If no quote is open and nothing is escaped, any newline ends the piece.
    if memchr3(b'\\', b'\n', b'"', text).is_none() {
        return true;
    }
    match cut_or_track(Dialect::Strict, text) {
        Ok(_) => false,
        Err(track) => track_on(b"\n", track).is_ok(),
    }
}

// Returns the text without the blanks before it, if a newline ends it as one piece and it is more than blanks and a comment.
fn one_line(text: &str) -> Option<&str>
    ensures { MatchOption result (IsNoLine text.now) (λ line. IsTrimmedPiece text.now line.now) }
{
    if !is_cut_piece(text.as_bytes()) {
        return None;
    }
    let line = trimmed(text);
    if line.is_empty() {
        return None;
    }
    Some(line)
}

// Whether a tag key and whether a field key of a line is repeated.
#[derive(Clone, Copy)]
struct Repeats {
    tag: bool,
    field: bool,
}

// Returns whether a tag key and whether a field key of a line is repeated.
fn repeats_of<'a>(alloc: Global, read: &ParsedLine<'a>) -> Result<Repeats, AllocError>
    ensures value { IfOk result (λ repeats. repeats ≡ repeats_of read.now) }
    ensures no_memory { length (some_items read.now.series.tag_set) ≤ most_compared → length read.now.field_set.items ≤ most_compared
        → IsOk result }
{
    let tag = has_repeats(alloc, tags_in(&read.series))?;
    let field = has_repeats(alloc, read.field_set.as_slice())?;
    Ok(Repeats { tag, field })
}

// The parts of a line that was read.
#[derive(Clone, Copy)]
struct Parts<'l, 'a> {
    series: &'a str,
    measurement: &'l str,
    tags: &'l [(EscapedStr<'a>, EscapedStr<'a>)],
    fields: &'l [(EscapedStr<'a>, FieldValue<'a>)],
    timestamp: Option<i64>,
}

// Returns the parts of a line that was read.
fn parts_of<'l, 'a>(read: &'l ParsedLine<'a>) -> Parts<'l, 'a>
    ensures { ArePartsOf read.now result }
{
    Parts {
        series: read.series.raw_input,
        measurement: read.series.measurement.as_str(),
        tags: tags_in(&read.series),
        fields: read.field_set.as_slice(),
        timestamp: read.timestamp,
    }
}

// Returns true if a timestamp is outside the times that are kept.
fn is_not_kept(limits: &Limits, timestamp: Option<i64>) -> bool
    ensures { result ≡ is_outside limits.now.earliest limits.now.latest timestamp }
{
    values::is_outside(limits.earliest, limits.latest, timestamp)
}

// Returns the clauses that a line breaks, from its text, its parts, its repeated keys, and the clauses that its spelled names
// break.
fn broken_in<'l, 'a>(
    limits: &Limits,
    text: &str,
    parts: Parts<'l, 'a>,
    repeats: Repeats,
    names: NameBreaks,
) -> Broken
    ensures { result ≡ broken_by_code limits.now text.now parts.entry repeats names }
{
    Broken {
        leading_blank: values::begins_with_blank(text),
        trailing_space: values::ends_in_space(text),
        newline: values::has_byte(text.as_bytes(), b'\n'),
        measurement_equals: names.equals,
        measurement_escape: names.escape,
        tag_escape: names.tags.escape,
        tag_key_comma: names.tags.comma,
        tag_value_equals: names.tags.sign,
        repeated_tag: repeats.tag,
        field_key_escape: names.keys.escape,
        field_key_comma: names.keys.comma,
        field_key_quote: values::has_quoted_key(parts.fields),
        long_series: names.keys.long,
        unsigned: values::has_unsigned(parts.fields),
        infinite_float: values::has_infinite(parts.fields),
        rounded_float: values::has_rounded(parts.fields),
        leading_nul: values::begins_with_nul(parts.fields),
        time_out_of_range: values::is_outside(
            -9_223_372_036_854_775_806,
            9_223_372_036_854_775_806,
            parts.timestamp,
        ),
        tag_count: values::is_hundreds(parts.tags.len()),
        time_name: values::has_time(parts.tags, parts.fields),
        system_name: values::has_system_name(parts.measurement, parts.fields),
        repeated_field: repeats.field,
        key_separator: values::holds_text(b"#!~", parts.series.as_bytes()),
        control_byte: values::has_control(parts.measurement, parts.fields),
        name_label: values::has_tag_key("__name__", parts.tags),
        long_tag_key: values::has_long_key(256, parts.tags),
        long_tag_value: values::has_long_value(16_384, parts.tags),
        long_metric_name: values::has_long_name(16_384, parts.measurement.len(), parts.fields),
        long_labels: values::has_long_name(32_000, parts.series.len(), parts.fields),
        too_many_tags: parts.tags.len() > limits.tags,
        long_line: text.len() > limits.line,
        time_not_kept: is_not_kept(limits, parts.timestamp),
    }
}

// Reads a trimmed text into `read`. Returns true if the text is a line.
fn is_read<'a>(alloc: Global, line: &'a str, read: &mut ParsedLine<'a>) -> Result<bool, AllocError>
    ensures value { IfOk result (λ is_line. TellsRead line.now read.new is_line) }
    ensures no_memory { is_light Strict line.now ≡ true → IsOk result }
{
    match read_spelled_into(alloc, Dialect::Strict, line, read, &mut None) {
        Ok(()) => Ok(true),
        Err(Unread::Fault(_)) => Ok(false),
        Err(Unread::OutOfMemory) => Err(AllocError),
    }
}

// Returns the clauses that a text breaks, from its trimmed text and the line that was read from it.
fn broken_by<'a>(
    alloc: Global,
    limits: &Limits,
    text: &str,
    line: &str,
    read: &ParsedLine<'a>,
) -> Result<Broken, AllocError>
    requires piece { IsTrimmedPiece text.now line.now }
    requires read { TellsRead line.now read.now true }
    ensures value { IfOk result (Breaks limits.now text.now) }
    ensures no_memory { is_light Strict line.now ≡ true → IsOk result }
{
    let repeats = repeats_of(alloc, read)?;
    let parts = parts_of(read);
    let names = name_breaks(
        parts.series.len(),
        parts.tags.len(),
        parts.fields.len(),
        line,
    );
    Ok(broken_in(limits, text, parts, repeats, names))
}

/// Returns the clauses of portability that a text breaks, with these limits. Returns `None` if the text is not exactly one line,
/// without its newline, that the strict reader reads.
///
/// [`Broken::first`] returns the first broken clause that concerns a server. If there is none, the server reads the line as this
/// library does.
///
/// The text is read once. It is read a second time if it may break a clause that is not about its time and the limits, or if it
/// has a string, an escape, a `#`, keys that do not rise, more than 29 tags or more than 8,000 bytes. A second reading takes
/// memory as reading the line does, and for a map if there are more than 32 tags or fields. It takes none for a line with at most
/// 8 tags and 4 fields whose names and strings need no copies.
///
/// # Errors
///
/// Returns `AllocError` if memory was refused.
///
/// ```text
/// m,t=x f=1u 1    breaks unsigned
/// m,t=x f=1i      breaks nothing
/// m               is None
/// ```
pub fn broken_clauses(
    alloc: Global,
    limits: &Limits,
    text: &str,
) -> Result<Option<Broken>, AllocError>
    ensures value { IfOk result (TellsBroken limits.now text.now) }
    ensures no_memory { is_light Strict (trimmed text.now) ≡ true → IsOk result }
{
    if let Some(broken) = surely_broken(limits, text) {
        return Ok(Some(broken));
    }
    let Some(line) = one_line(text) else {
        return Ok(None);
    };
    let mut read = ParsedLine::new(alloc);
    if !is_read(alloc, line, &mut read)? {
        return Ok(None);
    }
    let broken = broken_by(alloc, limits, text, line, &read)?;
    Ok(Some(broken))
}

/// Returns true if a text is a portable line: if these servers read it as the strict reader does and store the same point, with
/// these limits.
///
/// A portable line is one line, without its newline, that breaks no clause that concerns the servers. [`broken_clauses`] returns
/// the clauses that a line breaks, and says when memory is taken.
///
/// # Errors
///
/// Returns `AllocError` if memory was refused.
///
/// ```text
/// m,t=x f=1i 1    is portable to all
/// m,t=x f=1u 1    is portable to Servers::Victoria
/// m,t=x f= 1      is not portable: it is no line
/// ```
pub fn is_portable(
    alloc: Global,
    to: Servers,
    limits: &Limits,
    text: &str,
) -> Result<bool, AllocError>
    ensures value { IfOk result (λ portable. IsTrue portable ↔ IsPortable (servers_of to) (limits_of limits.now) text.now) }
    ensures no_memory { is_light Strict (trimmed text.now) ≡ true → IsOk result }
{
    match broken_clauses(alloc, limits, text)? {
        Some(broken) => Ok(broken.first(to).is_none()),
        None => Ok(false),
    }
}
