//! Readers of lines that tell a sink one part after another. They take no memory.

ghost use Rattle.std.specs.Prelude.{◌≡◌, ◌<◌, ◌++◌, ◌==◌, ℕ, List, length, slice_index, IfOk, IfSome};
ghost use Rattle.lp_format.specs.format.{space, answer, field, front_before, tag, without_comma, Pair, Text, Value};
ghost use Rattle.lp_split.specs.code.{rules_of};
ghost use Rattle.lp_values.specs.code.SpelledParts.{GivesSpelled, spelled_fault, spelled_text, spelled_value};
ghost use Rattle.lp_events.specs.code.Events.{AreCounted, AreEventsOf, AreEventsOfText, AreFields, AreTags, AreToldBefore, Event};
ghost use Rattle.lp_events.specs.code.Events.{WasTold, WasToldParts, ended, failed, named, spelled_field, spelled_tag, tagged, valued};
ghost use Rattle.lp_events.specs.code.OwnBases.{KeepsOn, TellsBase};
ghost use Rattle.lp_events.specs.code.Stops.{IsStopOf};
ghost use Rattle.lp_events.specs.code.Places.{EndsBefore, IsEndOf, LiesAt, ValueEndsBefore, placed_field, placed_tag};

use crate::bases::{Kept, after_tag, before_tags};
use crate::lines::next_line;
use lp_scan::trim::{strip_byte, trim_start_spaces};
use lp_split::Dialect;
use lp_split::split::split_lines_in;
use lp_values::names::NameKind;
use lp_values::spelled_parts::{self, Front};
use lp_values::{ErrorKind, Spelled, SpelledFault, SpelledValue};

/// A sink, which takes the parts of lines as a reader tells them.
///
/// For a line that is read, the reader calls `measurement`, `tag` for each tag, `field` for each field, and `end`, in the order
/// of the line. For a line at fault, it calls these methods for exactly the parts that read before the place where reading stops,
/// and then `fault`. The parts are the measurement, the tags up to the first that does not read, and, after a space, the fields
/// up to the first that does not read.
///
/// For contracts, a sink has the member `takes`: the relation between the sink before an event, the event, and the sink after it.
///
/// ```text
/// m,t=x a=1i  calls  measurement(m), tag(t, x), field(a, I64(1)), end("m,t=x", None)
/// m,t=x,u     calls  measurement(m), tag(t, x), fault(GenericParsingError)
/// m a=1i,b=x  calls  measurement(m), field(a, I64(1)), fault(CannotParseEntireLine)
/// ```
pub trait EventSink<'a> {
    // Holds of the sink before an event, the event, and the sink after it.
    ghost takes: { Self → Event → Self → Type 0 };

    /// Takes the measurement of a line. A new line begins with it.
    fn measurement(&mut self, name: Spelled<'a>)
        ensures { takes self.old (named (spelled_text name.entry)) self.new };

    /// Takes a tag of the line.
    fn tag(&mut self, key: Spelled<'a>, value: Spelled<'a>)
        ensures { takes self.old (tagged (spelled_tag (key.entry, value.entry))) self.new };

    /// Takes a field of the line.
    fn field(&mut self, key: Spelled<'a>, value: SpelledValue<'a>)
        ensures { takes self.old (valued (spelled_field (key.entry, value.entry))) self.new };

    /// Takes the end of the line: `series` is the front of the line that was read as measurement and tags. A [`PlacedSink`] also
    /// learns whether this front is the base of the series.
    fn end(&mut self, series: &'a str, timestamp: Option<i64>)
        ensures { takes self.old (ended series.now timestamp) self.new };

    /// Takes the fault of the line. The parts that were told before it are no line.
    fn fault(&mut self, fault: SpelledFault<'a>)
        ensures { takes self.old (failed (spelled_fault fault.entry)) self.new };
}

/// A sink that takes the parts of a line with their places: after each part, how many bytes of the line are left.
///
/// A reader calls it as it calls an [`EventSink`], and tells it at the end of a line whether the text of the series is the base
/// of the series. A name that is a part of the line ends where this many bytes are left. The text of a float ends there too, and
/// the text of a string together with the quote after it.
///
/// For contracts, a sink has two members: `line`, the line that it is told of, and `takes`, as an [`EventSink`] has it.
///
/// ```text
/// m,t=x a=1i  calls  measurement(m, 9), tag(t, x, 7, 5), field(a, I64(1), 3, 0), end("m,t=x", None, true)
/// ```
pub trait PlacedSink<'a> {
    // The line that the sink is told of.
    ghost line: { Self → List ℕ };
    // Holds of the sink before an event, the event, and the sink after it.
    ghost takes: { Self → Event → Self → Type 0 };

    /// Takes the measurement of a line, after which `left` bytes are left. The line begins with it.
    fn measurement(&mut self, name: Spelled<'a>, left: usize)
        requires { EndsBefore (line self.old) (spelled_text name) left }
        ensures takes { takes self.old (named (spelled_text name.entry)) self.new }
        ensures line { line self.new ≡ line self.old };

    /// Takes a tag of the line: `key_left` bytes are left after its key, and `left` after its value.
    fn tag(&mut self, key: Spelled<'a>, value: Spelled<'a>, key_left: usize, left: usize)
        requires key { EndsBefore (line self.old) (spelled_text key) key_left }
        requires value { EndsBefore (line self.old) (spelled_text value) left }
        ensures takes { takes self.old (tagged (spelled_tag (key.entry, value.entry))) self.new }
        ensures line { line self.new ≡ line self.old };

    /// Takes a field of the line: `key_left` bytes are left after its key, and `left` after its value.
    fn field(&mut self, key: Spelled<'a>, value: SpelledValue<'a>, key_left: usize, left: usize)
        requires key { EndsBefore (line self.old) (spelled_text key) key_left }
        requires value { ValueEndsBefore (line self.old) (spelled_value value) left }
        ensures takes { takes self.old (valued (spelled_field (key.entry, value.entry))) self.new }
        ensures line { line self.new ≡ line self.old };

    /// Takes the end of the line: `series` is the front of the line that was read as measurement and tags. `is_base` tells
    /// whether this text is the base of the series: no name is a copy, and each tag key is greater than the one before it, by
    /// bytes.
    fn end(&mut self, series: &'a str, timestamp: Option<i64>, is_base: bool)
        requires { TellsBase (line self.old) is_base }
        ensures { takes self.old (ended series.now timestamp) self.new };

    /// Takes the fault of the line. The parts that were told before it are no line.
    fn fault(&mut self, fault: SpelledFault<'a>)
        ensures { takes self.old (failed (spelled_fault fault.entry)) self.new };
}

// Reads a tag at the start of `text`, and returns it with the number of bytes that are left after its key, and the rest.
#[tactic(auto, unfolding(lp_format::specs::format::Lines::tag))]
#[inline(always)]
fn placed_tag<'a>(text: &'a str) -> Front<'a, (Spelled<'a>, Spelled<'a>, usize)>
    ensures value { GivesSpelled placed_tag result (tag text.now) }
    ensures less { IfOk result (λ o. IfSome o (λ p. length p.1.now < length text.now)) }
    ensures places { IfOk result (λ o. IfSome o (λ p. LiesAt EndsBefore text.now (placed_tag p.0) p.0.2 p.1.now)) }
{
    let Some((key, after_key)) = spelled_parts::name(NameKind::TagKey, text)? else {
        return Ok(None);
    };
    let Some(rest) = strip_byte(b'=', after_key) else {
        return Ok(None);
    };
    let Some((value, rest)) = spelled_parts::name(NameKind::TagValue, rest)? else {
        return Ok(None);
    };
    Ok(Some(((key, value, after_key.len()), rest)))
}

// Reads a tag at the start of `text`, and returns the rest with it.
#[tactic(auto, unfolding(lp_format::specs::format::Lines::tag))]
#[inline(always)]
pub(crate) fn tag<'a>(text: &'a str) -> Front<'a, (Spelled<'a>, Spelled<'a>)>
    ensures value { GivesSpelled spelled_tag result (tag text.now) }
    ensures less { IfOk result (λ o. IfSome o (λ p. length p.1.now < length text.now)) }
{
    let Some((key, rest)) = spelled_parts::name(NameKind::TagKey, text)? else {
        return Ok(None);
    };
    let Some(rest) = strip_byte(b'=', rest) else {
        return Ok(None);
    };
    let Some((value, rest)) = spelled_parts::name(NameKind::TagValue, rest)? else {
        return Ok(None);
    };
    Ok(Some(((key, value), rest)))
}

// Reads a field at the start of `text`, and returns it with the number of bytes that are left after its key, and the rest.
#[tactic(auto, unfolding(lp_format::specs::format::Lines::field))]
#[inline(always)]
fn placed_field<'a>(text: &'a str) -> Front<'a, (Spelled<'a>, SpelledValue<'a>, usize)>
    ensures value { GivesSpelled placed_field result (field text.now) }
    ensures less { IfOk result (λ o. IfSome o (λ p. length p.1.now < length text.now)) }
    ensures places { IfOk result (λ o. IfSome o (λ p. LiesAt ValueEndsBefore text.now (placed_field p.0) p.0.2 p.1.now)) }
{
    let Some((key, after_key)) = spelled_parts::name(NameKind::FieldKey, text)? else {
        return Ok(None);
    };
    let Some(rest) = strip_byte(b'=', after_key) else {
        return Ok(None);
    };
    let Some((value, rest)) = spelled_parts::value(rest)? else {
        return Ok(None);
    };
    Ok(Some(((key, value, after_key.len()), rest)))
}

// Reads a field at the start of `text`, and returns the rest with it.
#[tactic(auto, unfolding(lp_format::specs::format::Lines::field))]
#[inline(always)]
pub(crate) fn field<'a>(text: &'a str) -> Front<'a, (Spelled<'a>, SpelledValue<'a>)>
    ensures value { GivesSpelled spelled_field result (field text.now) }
    ensures less { IfOk result (λ o. IfSome o (λ p. length p.1.now < length text.now)) }
{
    let Some((key, rest)) = spelled_parts::name(NameKind::FieldKey, text)? else {
        return Ok(None);
    };
    let Some(rest) = strip_byte(b'=', rest) else {
        return Ok(None);
    };
    let Some((value, rest)) = spelled_parts::value(rest)? else {
        return Ok(None);
    };
    Ok(Some(((key, value), rest)))
}

// Tells the sink the tags at the start of `text`, joined by commas, and returns their number and the rest. `kept` is the data
// that is kept of the series.
#[inline(always)]
fn tags<'a, S: PlacedSink<'a>>(text: &'a str, sink: &mut S, kept: &mut Kept<'a>) -> Front<'a, usize>
    requires { IsEndOf (S.line sink.old) text.now }
    ensures told { WasToldParts S.takes tagged sink.old sink.new
        (λ parts. AreCounted result tag text.now parts × KeepsOn kept.old parts kept.new) }
    ensures line { S.line sink.new ≡ S.line sink.old }
{
    let mut count = 0;
    let mut rest = text;
    let mut place = text;
    while let Some(((key, value, key_left), after)) = placed_tag(place)? {
        sink.tag(key, value, key_left, after.len());
        *kept = after_tag(*kept, key, value);
        count += 1;
        rest = after;
        match strip_byte(b',', rest) {
            Some(suffix) => place = suffix,
            None => return Ok(Some((count, rest))),
        }
    }
    if count == 0 {
        return Ok(None);
    }
    Ok(Some((count, rest)))
}

// Tells the sink the fields at the start of `text`, joined by commas, and returns their number and the rest.
#[inline(always)]
fn fields<'a, S: PlacedSink<'a>>(text: &'a str, sink: &mut S) -> Front<'a, usize>
    requires { IsEndOf (S.line sink.old) text.now }
    ensures told { WasToldParts S.takes valued sink.old sink.new (AreCounted result field text.now) }
    ensures line { S.line sink.new ≡ S.line sink.old }
{
    let mut count = 0;
    let mut rest = text;
    let mut place = text;
    while let Some(((key, value, key_left), after)) = placed_field(place)? {
        sink.field(key, value, key_left, after.len());
        count += 1;
        rest = after;
        match strip_byte(b',', rest) {
            Some(suffix) => place = suffix,
            None => return Ok(Some((count, rest))),
        }
    }
    if count == 0 {
        return Ok(None);
    }
    Ok(Some((count, rest)))
}

// Tells the sink the tags after the comma at the start of `text`, and returns the rest. Without a comma there are no tags.
#[inline(always)]
fn tag_set<'a, S: PlacedSink<'a>>(
    text: &'a str,
    sink: &mut S,
    kept: &mut Kept<'a>,
) -> Result<&'a str, SpelledFault<'a>>
    requires { IsEndOf (S.line sink.old) text.now }
    ensures told { WasToldParts S.takes tagged sink.old sink.new
        (λ parts. AreTags result text.now parts × KeepsOn kept.old parts kept.new) }
    ensures line { S.line sink.new ≡ S.line sink.old }
{
    let Some(rest) = strip_byte(b',', text) else {
        return Ok(text);
    };
    let Some((_, rest)) = tags(rest, sink, kept)? else {
        return Err(SpelledFault::TagSetMalformed);
    };
    Ok(rest)
}

// Returns the text that is left after the last field. In the crate's dialect, a comma after a field that is the only one is
// dropped.
#[inline(always)]
pub(crate) fn rest_after(dialect: Dialect, is_first: bool, rest: &str) -> &str
    ensures { (all : List (Pair Text (Value Text))) → is_first ≡ (length all == 1)
        → result.now ≡ without_comma (rules_of dialect) all rest.now }
{
    match dialect {
        Dialect::Crate if is_first => strip_byte(b',', rest).unwrap_or(rest),
        _ => rest,
    }
}

// Tells the sink the fields at the start of `text`, joined by commas, and returns the rest after them, or `None` if no field is
// there.
#[inline(always)]
fn field_set<'a, S: PlacedSink<'a>>(
    dialect: Dialect,
    text: &'a str,
    sink: &mut S,
) -> Result<Option<&'a str>, SpelledFault<'a>>
    requires { IsEndOf (S.line sink.old) text.now }
    ensures told { WasToldParts S.takes valued sink.old sink.new (AreFields result (rules_of dialect) text.now) }
    ensures line { S.line sink.new ≡ S.line sink.old }
{
    let Some((count, rest)) = fields(text, sink)? else {
        return Ok(None);
    };
    Ok(Some(rest_after(dialect, count == 1, rest)))
}

// Returns the text before `rest`, which ends `line` and begins with a space.
#[inline(always)]
pub(crate) fn front_before<'a>(line: &'a str, rest: &str) -> &'a str
    requires ends { (front : List ℕ) × (line.now ≡ front ++ rest.now) }
    requires space { slice_index rest.now 0 ≡ space }
    ensures { result.now ≡ front_before line.now rest.now }
{
    &line[..line.len() - rest.len()]
}

// Tells the sink the parts of the trimmed text `line`, but not its fault. If the measurement or a space is missing, or if text is
// left after the line, the place where reading stops is stored.
#[tactic(auto, unfolding(lp_format::specs::format::Lines::answer))]
#[inline(always)]
fn parts<'a, S: PlacedSink<'a>>(
    dialect: Dialect,
    line: &'a str,
    sink: &mut S,
    stop: &mut Option<&'a str>,
) -> Result<(), SpelledFault<'a>>
    requires { S.line sink.old ≡ line.now }
    ensures told { WasTold S.takes sink.old sink.new (AreToldBefore result line.now (answer (rules_of dialect) line.now)) }
    ensures stop { IsStopOf (rules_of dialect) line.now stop.new }
{
    *stop = Some(line);
    let Some((measurement, rest)) = spelled_parts::name(NameKind::Measurement, line)? else {
        return Err(SpelledFault::MeasurementValueInvalid);
    };
    *stop = None;
    sink.measurement(measurement, rest.len());
    let mut kept = before_tags(measurement);
    let rest = tag_set(rest, sink, &mut kept)?;
    let Some(_after_space) = strip_byte(b' ', rest) else {
        *stop = Some(rest);
        return Err(SpelledFault::GenericParsingError {
            kind: ErrorKind::TakeWhile1,
        });
    };
    let series = front_before(line, rest);
    let Some(rest) = field_set(dialect, trim_start_spaces(rest), sink)? else {
        return Err(SpelledFault::FieldSetMissing);
    };
    let (timestamp, rest) = spelled_parts::timestamp(rest)?;
    if !rest.is_empty() {
        *stop = Some(rest);
        return Err(SpelledFault::CannotParseEntireLine {
            trailing_content: rest,
        });
    }
    sink.end(series, timestamp, kept.is_base);
    Ok(())
}

/// Reads the trimmed text `line`, and tells its parts to a sink that takes them with their places, as [`read_line_events`] does
/// to another sink. It takes no memory.
///
/// Returns the text that is left of a line at fault where reading it stops, if the reader knows this place;
/// [`reading_stop`](crate::stops) finds it for each line.
///
/// ```text
/// m,t=x a=1i 7  tells  measurement m and 11 bytes left, tag t x and 9 and 7, field a 1i and 5 and 2, end m,t=x 7
/// ```
#[inline(always)]
pub fn read_placed_events<'a, S: PlacedSink<'a>>(
    dialect: Dialect,
    line: &'a str,
    sink: &mut S,
) -> Option<&'a str>
    requires { S.line sink.old ≡ line.now }
    ensures told { WasTold S.takes sink.old sink.new (λ events. AreEventsOf line.now events (answer (rules_of dialect) line.now)) }
    ensures stop { IsStopOf (rules_of dialect) line.now result }
{
    let mut stop = None;
    if let Err(fault) = parts(dialect, line, sink, &mut stop) {
        sink.fault(fault);
    }
    stop
}

// A sink that does not ask for the places of the parts, as a sink that takes them.
#[derive(Drop)]
struct Unplaced<'s, 'a, S> {
    line: &'a str,
    sink: &'s mut S,
}

impl<'s, 'a, S: EventSink<'a>> PlacedSink<'a> for Unplaced<'s, 'a, S> {
    ghost use Rattle.lp_events.specs.code.Places.{TakesUnplaced};

    ghost line = { λ unplaced. unplaced.line.now };

    ghost takes = { TakesUnplaced S.takes };

    #[inline(always)]
    fn measurement(&mut self, name: Spelled<'a>, left: usize) {
        self.sink.measurement(name);
    }

    #[inline(always)]
    fn tag(&mut self, key: Spelled<'a>, value: Spelled<'a>, key_left: usize, left: usize) {
        self.sink.tag(key, value);
    }

    #[inline(always)]
    fn field(&mut self, key: Spelled<'a>, value: SpelledValue<'a>, key_left: usize, left: usize) {
        self.sink.field(key, value);
    }

    #[inline(always)]
    fn end(&mut self, series: &'a str, timestamp: Option<i64>, is_base: bool) {
        self.sink.end(series, timestamp);
    }

    #[inline(always)]
    fn fault(&mut self, fault: SpelledFault<'a>) {
        self.sink.fault(fault);
    }
}

// Tells a sink without places the parts of the trimmed text `line`.
#[inline(always)]
fn tell_unplaced<'s, 'a, S: EventSink<'a>>(
    dialect: Dialect,
    line: &'a str,
    unplaced: &mut Unplaced<'s, 'a, S>,
)
    requires { unplaced.old.line.now ≡ line.now }
    ensures sink { unplaced.new.sink.ghost_name ≡ unplaced.old.sink.ghost_name }
    ensures told { WasTold S.takes unplaced.old.sink.now unplaced.new.sink.now
        (λ events. AreEventsOf line.now events (answer (rules_of dialect) line.now)) }
{
    let _stop = read_placed_events(dialect, line, unplaced);
}

// Ends the loan of a sink. It changes nothing, but the caller then knows in which state the sink is.
#[inline(always)]
fn give_back<S>(sink: &mut S)
    ensures { sink.new ≡ sink.old }
{}

/// Reads the trimmed text `line`, and tells a sink its measurement, tags, fields and end. If the line is at fault, it tells the
/// parts that read, as [`EventSink`] says, and then the fault. It takes no memory.
///
/// ```text
/// m,t=x a=1i 7   tells  measurement m, tag t x, field a 1i, end m,t=x 7
/// m a=1i,b       tells  measurement m, field a 1i, fault CannotParseEntireLine
/// ```
#[inline(always)]
pub fn read_line_events<'a, S: EventSink<'a>>(dialect: Dialect, line: &'a str, sink: &mut S)
    ensures { WasTold S.takes sink.old sink.new (λ events. AreEventsOf line.now events (answer (rules_of dialect) line.now)) }
{
    let mut unplaced = Unplaced { line, sink };
    tell_unplaced(dialect, line, &mut unplaced);
    let Unplaced { sink, .. } = unplaced;
    give_back(sink);
}

/// Reads all lines of a text by the rules of a dialect, and tells a sink their parts, one line after another. It goes on after a
/// fault.
///
/// The lines are those of [`parse_lines_in`](crate::parse_lines_in). It takes no memory, so no fault is `OutOfMemory`.
///
/// ```text
/// "m a=1i\n# c\nm b\n"  tells  measurement m, field a 1i, end m, and measurement m, fault FieldSetMissing
/// ```
pub fn read_events_in<'a, S: EventSink<'a>>(dialect: Dialect, input: &'a str, sink: &mut S)
    ensures { WasTold S.takes sink.old sink.new (AreEventsOfText (rules_of dialect) input.now) }
{
    let mut lines = split_lines_in(dialect, input);
    while let Some(line) = next_line(&mut lines) {
        read_line_events(dialect, line, sink);
    }
}
