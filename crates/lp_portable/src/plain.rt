//! Finds lines that surely break only clauses about their time and the limits, while the reader of events reads them.
//!
//! Most lines hold no backslash and no quote. Their names are then spelled as they read, so the events of a line tell all facts
//! that clauses are about, and the line is read only once, without memory. A line is not read again to check its time or its
//! length. A line that may break another clause is checked again, clause by clause.

ghost use Rattle.std.specs.Prelude.{◌≡◌, ◌&&◌, ◌||◌, IfSome, not};
ghost use Rattle.lp_format.specs.format.{float, trimmed};
ghost use Rattle.lp_values.specs.code.Texts.{literal_of};
ghost use Rattle.lp_values.specs.code.SpelledParts.{spelled_value};
ghost use Rattle.lp_portable.specs.format.Portable.{is_rounded, is_finite, is_unsigned};
ghost use Rattle.lp_portable.specs.code.Clauses.{Breaks};
ghost use Rattle.lp_portable.specs.code.Sure.{IsNotedOf, TakesNoted, is_sure_value, none_noted, note_field, note_tag, noted, unsure};

use crate::broken::Broken;
use crate::keys::rises;
use crate::limits::Limits;
use crate::sure::{begins_own, broken_by_noted, is_bare, is_sure_key, is_sure_tag};
use crate::values::{is_infinite_text, is_rounded};
use lp_events::{EventSink, read_line_events};
use lp_scan::trim::trimmed;
use lp_split::Dialect;
use lp_values::spelled::shared;
use lp_values::{FloatText, Spelled, SpelledFault, SpelledValue};

/// The notes about a line.
#[derive(Clone, Copy, Drop)]
pub(crate) struct Noting<'a> {
    /// Whether no event so far may break a clause.
    pub is_sure: bool,
    /// Whether the line was read to its end.
    pub is_ended: bool,
    pub tags: usize,
    pub fields: usize,
    pub last_tag: &'a str,
    pub last_field: &'a str,
    pub timestamp: Option<i64>,
}

// Returns true if a float surely breaks no clause. A short float without an exponent is finite, so few literals have to be parsed
// as numbers.
#[inline(always)]
fn is_sure_float<'a>(literal: FloatText<'a>) -> bool
    ensures { result ≡ is_sure_value (float (literal_of literal.entry)) }
{
    let text = literal.as_str();
    !is_rounded(text) && (text.len() <= 300 || !is_infinite_text(text))
}

// Returns true if a value surely breaks no clause.
#[inline(always)]
fn is_sure_value<'a>(value: SpelledValue<'a>) -> bool
    ensures { result ≡ is_sure_value (spelled_value value.entry) }
{
    match value {
        SpelledValue::U64(_) => false,
        SpelledValue::F64(literal) => is_sure_float(literal),
        _ => true,
    }
}

// Returns the notes about a line that may break a clause.
fn unsure<'a>() -> Noting<'a>
    ensures { noted result ≡ unsure }
{
    Noting {
        is_sure: false,
        is_ended: false,
        tags: 0,
        fields: 0,
        last_tag: "",
        last_field: "",
        timestamp: None,
    }
}

impl<'a> Noting<'a> {
    /// Returns the notes before the first event.
    pub(crate) fn new() -> Noting<'a>
        ensures { noted result ≡ none_noted }
    {
        Noting {
            is_sure: true,
            ..unsure()
        }
    }

    // Notes one more tag whose key is a part of the line.
    #[inline(always)]
    fn note_tag(&mut self, key: &'a str)
        ensures { noted self.new ≡ note_tag (noted self.old) key.now }
    {
        if self.is_sure
            && self.tags < 29
            && rises(self.last_tag.as_bytes(), key.as_bytes())
            && is_sure_tag(key.as_bytes())
        {
            self.tags += 1;
            self.last_tag = key;
        } else {
            *self = unsure();
        }
    }

    // Notes one more field whose key is a part of the line.
    #[inline(always)]
    fn note_field(&mut self, key: &'a str, value: SpelledValue<'a>)
        ensures { noted self.new ≡ note_field (noted self.old) key.now (spelled_value value.entry) }
    {
        if self.is_sure
            && self.fields < 4000
            && rises(self.last_field.as_bytes(), key.as_bytes())
            && is_sure_key(key.as_bytes())
            && is_sure_value(value)
        {
            self.fields += 1;
            self.last_field = key;
        } else {
            *self = unsure();
        }
    }

    /// Returns the clauses that a text breaks, if the notes show that its line breaks only clauses about its time, its tags and
    /// its length. Otherwise returns `None`. The notes must be those of the trimmed text. Takes no memory, and reads the bytes
    /// once.
    ///
    /// ```text
    /// m,t=x f=1i    breaks nothing
    /// m,t=x f=1i 5  breaks time_not_kept
    /// m,t=x f=1u    is None
    /// ```
    #[inline(always)]
    pub(crate) fn broken(&self, limits: &Limits, text: &str) -> Option<Broken>
        requires { IsNotedOf (trimmed text.now) self.now }
        ensures { IfSome result (Breaks limits.now text.now) }
    {
        let bytes = text.as_bytes();
        if !self.is_ended || !is_bare(bytes, self.tags + self.fields) {
            return None;
        }
        Some(broken_by_noted(limits, bytes, self.tags, self.timestamp))
    }
}

impl<'a> EventSink<'a> for Noting<'a> {
    ghost takes = { TakesNoted };

    #[inline(always)]
    fn measurement(&mut self, name: Spelled<'a>) {
        let is_sure = match shared(name) {
            Some(text) => self.is_sure && !begins_own(text.as_bytes()),
            None => false,
        };
        if !is_sure {
            *self = unsure();
        }
    }

    #[inline(always)]
    fn tag(&mut self, key: Spelled<'a>, value: Spelled<'a>) {
        match (shared(key), shared(value)) {
            (Some(key), Some(_)) => self.note_tag(key),
            _ => *self = unsure(),
        }
    }

    #[inline(always)]
    fn field(&mut self, key: Spelled<'a>, value: SpelledValue<'a>) {
        match shared(key) {
            Some(key) => self.note_field(key, value),
            None => *self = unsure(),
        }
    }

    #[inline(always)]
    fn end(&mut self, series: &'a str, timestamp: Option<i64>) {
        if self.is_sure {
            self.is_ended = true;
            self.timestamp = timestamp;
        } else {
            *self = unsure();
        }
    }

    #[inline(always)]
    fn fault(&mut self, fault: SpelledFault<'a>) {
        *self = unsure();
    }
}

// Returns the notes about a trimmed text.
fn noting_of<'a>(line: &'a str) -> Noting<'a>
    ensures { IsNotedOf line.now result }
{
    let mut noting = Noting::new();
    read_line_events(Dialect::Strict, line, &mut noting);
    noting
}

/// Returns the clauses that a text breaks, if one reading shows that it breaks only clauses about its time, its tags and its
/// length. Otherwise returns `None`.
pub(crate) fn surely_broken(limits: &Limits, text: &str) -> Option<Broken>
    ensures { IfSome result (Breaks limits.now text.now) }
{
    noting_of(trimmed(text)).broken(limits, text)
}
