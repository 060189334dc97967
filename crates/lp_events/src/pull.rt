//! The parts of lines, given one after another. They take no memory.

ghost use Rattle.std.specs.Prelude.{◌≡◌, ◌<◌, ◌+◌, ◌↔◌, [], List, None, length, IfOk, IfSome, MatchOption, MatchResult};
ghost use Rattle.std.specs.Iterator.{at_most};
ghost use Rattle.lp_format.specs.format.{Crate, after_comma, field, tag, most_pieces};
ghost use Rattle.lp_split.specs.code.{rules_of};
ghost use Rattle.lp_values.specs.code.SpelledParts.{GivesSpelled};
ghost use Rattle.lp_events.specs.code.Events.{AreEventsOfText, Event as Told, WasTold, spelled_field, spelled_tag};
ghost use Rattle.lp_events.specs.code.EventsLeft.{AreLeftAfterSeries, AreLeftFrom, Completes, GivesEvent, HasEventsLeft, Steps};
ghost use Rattle.lp_events.specs.code.EventsLeft.{most_events, most_of_line, told};

use crate::events::{self, EventSink, front_before, rest_after};
use crate::lines::next_line;
use crate::place::{Fields, LinePlace, Names};
use lp_scan::trim::{strip_byte, trim_start_spaces};
use lp_split::Dialect;
use lp_split::split::{SplitLines, dialect_of, split_lines_in};
use lp_values::names::NameKind;
use lp_values::spelled_parts::{self, Front};
use lp_values::{ErrorKind, Spelled, SpelledFault, SpelledValue};

/// A part of a line, the end of a line, or the fault of a line.
///
/// A line that is read has the events of its measurement, of each tag, of each field and of its end, in the order of the line. A
/// line at fault has the events of exactly the parts that read before the place where reading stops, and then its fault. The
/// parts are the measurement, the tags up to the first that does not read, and, after a space, the fields up to the first that
/// does not read.
///
/// ```text
/// m,t=x a=1i  gives  Measurement(m), Tag(t, x), Field(a, I64(1)), End { series: "m,t=x", timestamp: None }
/// m,t=x,u     gives  Measurement(m), Tag(t, x), Fault(GenericParsingError)
/// ```
#[derive(Clone, Copy)]
pub enum Event<'a> {
    /// The measurement of a line, which begins with it.
    Measurement(Spelled<'a>),
    /// A tag of the line: its key and its value.
    Tag(Spelled<'a>, Spelled<'a>),
    /// A field of the line: its key and its value.
    Field(Spelled<'a>, SpelledValue<'a>),
    /// The end of the line: `series` is the front of the line that was read as measurement and tags.
    End {
        series: &'a str,
        timestamp: Option<i64>,
    },
    /// The fault of the line. The parts that came before it are no line.
    Fault(SpelledFault<'a>),
}

impl<'a> Event<'a> {
    /// Tells a sink this event, by the method of its kind.
    ///
    /// ```text
    /// Tag(t, x)  calls  tag(t, x)
    /// ```
    #[inline(always)]
    pub fn tell<S: EventSink<'a>>(self, sink: &mut S)
        ensures { S.takes sink.old (told self.entry) sink.new }
    {
        match self {
            Event::Measurement(name) => sink.measurement(name),
            Event::Tag(key, value) => sink.tag(key, value),
            Event::Field(key, value) => sink.field(key, value),
            Event::End { series, timestamp } => sink.end(series, timestamp),
            Event::Fault(fault) => sink.fault(fault),
        }
    }
}

// The next event of a line and the place where its part ends, or the fault of the line.
type Step<'a> = Result<(Event<'a>, LinePlace<'a>), SpelledFault<'a>>;

// Reads a comma and a tag at the start of `text`, and returns the rest with the tag.
#[inline(always)]
pub(crate) fn next_tag<'a>(text: &'a str) -> Front<'a, (Spelled<'a>, Spelled<'a>)>
    ensures value { GivesSpelled spelled_tag result (after_comma tag text.now) }
    ensures less { IfOk result (λ o. IfSome o (λ p. length p.1.now < length text.now)) }
{
    match strip_byte(b',', text) {
        Some(place) => events::tag(place),
        None => Ok(None),
    }
}

// Reads a comma and a field at the start of `text`, and returns the rest with the field.
#[inline(always)]
pub(crate) fn next_field<'a>(text: &'a str) -> Front<'a, (Spelled<'a>, SpelledValue<'a>)>
    ensures value { GivesSpelled spelled_field result (after_comma field text.now) }
    ensures less { IfOk result (λ o. IfSome o (λ p. length p.1.now < length text.now)) }
{
    match strip_byte(b',', text) {
        Some(place) => events::field(place),
        None => Ok(None),
    }
}

// Reads the measurement of a trimmed text.
#[tactic(auto, using(crate::proofs::lemmas::pull::EventSteps::first_steps), unfolding(lp_format::specs::format::Lines::answer))]
#[inline(always)]
fn begin<'a>(line: &'a str) -> Step<'a>
    ensures steps { Steps (Completes line.now []) result }
    ensures less { IfOk result (λ p. most_of_line p.1 < length line.now + 1) }
{
    let Some((name, rest)) = spelled_parts::name(NameKind::Measurement, line)? else {
        return Err(SpelledFault::MeasurementValueInvalid);
    };
    let names = Names {
        line,
        rest,
        is_first: true,
    };
    Ok((Event::Measurement(name), LinePlace::Names(names)))
}

// Reads the first field of a line, after its tags and spaces.
#[tactic(auto, using(crate::proofs::lemmas::pull::EventSteps::first_steps), unfolding(lp_format::specs::format::Lines::answer))]
#[inline(always)]
fn first_field<'a>(names: Names<'a>) -> Step<'a>
    ensures steps { Steps (AreLeftAfterSeries names.entry.line.now names.entry.rest.now) result }
    ensures less { IfOk result (λ p. most_of_line p.1 < length names.entry.rest.now + 1) }
{
    let Some(_after_space) = strip_byte(b' ', names.rest) else {
        return Err(SpelledFault::GenericParsingError {
            kind: ErrorKind::TakeWhile1,
        });
    };
    let series = front_before(names.line, names.rest);
    let Some(((key, value), rest)) = events::field(trim_start_spaces(names.rest))? else {
        return Err(SpelledFault::FieldSetMissing);
    };
    let fields = Fields {
        series,
        rest,
        is_first: true,
    };
    Ok((Event::Field(key, value), LinePlace::Fields(fields)))
}

// Reads the next tag of a line, or its first field.
#[inline(always)]
fn after_name<'a>(names: Names<'a>) -> Step<'a>
    ensures steps { Steps (AreLeftFrom (LinePlace.Names names.entry)) result }
    ensures less { IfOk result (λ p. most_of_line p.1 < length names.entry.rest.now + 1) }
{
    let Some(((key, value), rest)) = next_tag(names.rest)? else {
        if names.is_first && strip_byte(b',', names.rest).is_some() {
            return Err(SpelledFault::TagSetMalformed);
        }
        return first_field(names);
    };
    let names = Names {
        line: names.line,
        rest,
        is_first: false,
    };
    Ok((Event::Tag(key, value), LinePlace::Names(names)))
}

// Reads the next field of a line, or its end.
#[inline(always)]
fn after_field<'a>(dialect: Dialect, fields: Fields<'a>) -> Step<'a>
    ensures steps { Steps (λ left events. left.dialect ≡ rules_of dialect → AreLeftFrom (LinePlace.Fields fields.entry) left events) result }
    ensures less { IfOk result (λ p. most_of_line p.1 < length fields.entry.rest.now + 1) }
{
    if let Some(((key, value), rest)) = next_field(fields.rest)? {
        let fields = Fields {
            series: fields.series,
            rest,
            is_first: false,
        };
        return Ok((Event::Field(key, value), LinePlace::Fields(fields)));
    }
    let left = rest_after(dialect, fields.is_first, fields.rest);
    let (timestamp, rest) = spelled_parts::timestamp(left)?;
    if !rest.is_empty() {
        return Err(SpelledFault::CannotParseEntireLine {
            trailing_content: rest,
        });
    }
    let end = Event::End {
        series: fields.series,
        timestamp,
    };
    Ok((end, LinePlace::Between))
}

/// The events of a text, one after another. [`parse_events`] returns it.
///
/// After the events of a line, whatever they are, come the events of the lines after it. The iterator gives at most `input.len()
/// + 1` events. After the last event it gives `None`, also if it is called again. It takes no memory, because it keeps only a
/// place in a line.
#[derive(Drop)]
pub struct ParseEvents<'a> {
    lines: SplitLines<'a>,
    // The place in the line that comes before the lines that are left.
    place: LinePlace<'a>,
}

/// Reads the lines of a text part by part, and gives the events that [`read_events_in`](crate::read_events_in) tells a sink.
///
/// It takes no memory, and neither does the iterator. The caller can stop after any event.
///
/// ```text
/// "m a=1i\n# c\nm b\n"  gives  Measurement(m), Field(a, I64(1)), End { .. }, Measurement(m), Fault(FieldSetMissing)
/// ```
pub fn parse_events(input: &str) -> ParseEvents<'_>
    ensures left { (events : List Told) → HasEventsLeft result events ↔ AreEventsOfText Crate input.now events }
    ensures most { most_events result ≡ length input.now + 1 }
{
    parse_events_in(Dialect::Crate, input)
}

/// Reads the lines of a text part by part, by the rules of a dialect.
///
/// ```text
/// parse_events_in(Dialect::Crate, "m a=1i,")   gives  Measurement(m), Field(a, I64(1)), End { .. }
/// parse_events_in(Dialect::Strict, "m a=1i,")  gives  Measurement(m), Field(a, I64(1)), Fault(CannotParseEntireLine)
/// ```
pub fn parse_events_in(dialect: Dialect, input: &str) -> ParseEvents<'_>
    ensures left { (events : List Told) → HasEventsLeft result events ↔ AreEventsOfText (rules_of dialect) input.now events }
    ensures most { most_events result ≡ length input.now + 1 }
{
    ParseEvents {
        lines: split_lines_in(dialect, input),
        place: LinePlace::Between,
    }
}

impl<'a> ParseEvents<'a> {
    // Returns the next step, or `None` if no line is left.
    #[inline(always)]
    fn step(&mut self) -> Option<Step<'a>>
        ensures place { self.new.place ≡ self.old.place }
        ensures steps { MatchOption result (GivesEvent self.old None self.new)
            (λ step. Steps (λ left events. left ≡ self.new.lines → HasEventsLeft self.old events) step) }
        ensures less { IfSome result (λ step. MatchResult step
            (λ p. most_of_line p.1 + most_pieces self.new.lines.text < most_events self.old)
            (λ fault. most_pieces self.new.lines.text < most_events self.old)) }
    {
        match self.place {
            LinePlace::Between => Some(begin(next_line(&mut self.lines)?)),
            LinePlace::Names(names) => Some(after_name(names)),
            LinePlace::Fields(fields) => Some(after_field(dialect_of(&self.lines), fields)),
        }
    }

    /// Tells a sink all events that are left.
    ///
    /// ```text
    /// after Measurement(m) of  m a=1i  it calls  field(a, I64(1)), end("m", None)
    /// ```
    pub fn tell<S: EventSink<'a>>(self, sink: &mut S)
        ensures { WasTold S.takes sink.old sink.new (HasEventsLeft self.entry) }
    {
        for event in self {
            event.tell(sink);
        }
    }
}

impl<'a> Iterator for ParseEvents<'a> {
    type Item = Event<'a>;

    ghost next_gives = { GivesEvent };

    ghost remaining = { λ reader. at_most (most_events reader) };

    #[inline(always)]
    fn next(&mut self) -> Option<Event<'a>> {
        match self.step()? {
            Ok((event, place)) => {
                self.place = place;
                Some(event)
            }
            Err(fault) => {
                self.place = LinePlace::Between;
                Some(Event::Fault(fault))
            }
        }
    }
}
