//! The times with which lines go out: the unit in which timestamps come, the time of a line without one, and which times lines may have.
//!
//! A line is read first. If its time changes, the piece is copied with another timestamp, and all else of it stays; a line whose time stays is
//! not copied.
ghost use Rattle.std.specs.Prelude.{◌≡◌, ◌<◌, ◌≤◌, ◌-◌, not, ◌==◌, length, slice_index, take, string_bytes, ◌++◌, IfOk, OnOk, Some};
ghost use Rattle.std.specs.List.{suffix_len};
ghost use Rattle.influxdb_line_protocol.specs.format.Bytes.{space};
ghost use Rattle.influxdb_line_protocol.specs.format.Trimming.{trimmed};
ghost use Rattle.lp_conditions.specs.LineTimes.{change_of, if_within, in_nanos, is_within, nanos_in, piece_at, text_at, time_fault_text, unit_text, without_time, word_end, word_start};
ghost use Rattle.lp_conditions.specs.LineTimes.{front_of};

use std::alloc::{AllocError, Global};
use std::fmt::{self, Display};

/// The unit of timestamps.
#[derive(Clone, Copy, Debug, PartialEq, Eq)]
pub enum TimeUnit {
    Seconds,
    Millis,
    Micros,
    Nanos,
}

/// With which time each line goes out, if the times of lines are looked at.
///
/// A timestamp becomes one in nanoseconds, and all else of a line stays as it came. A line is refused if its time is not within the range, or is
/// more nanoseconds than an `i64` holds.
#[derive(Clone, Copy, Debug, PartialEq, Eq)]
pub struct Times {
    /// The unit of the timestamps that come. Those in nanoseconds stay as they are spelled.
    pub unit: TimeUnit,
    /// The time, in nanoseconds, of each line that comes without a timestamp, if it is to have one.
    pub missing: Option<i64>,
    /// The least time that a line may have, in nanoseconds. If there is one, a line without a time is refused.
    pub from: Option<i64>,
    /// The time before which that of a line must be, in nanoseconds. If there is one, a line without a time is refused.
    pub to: Option<i64>,
}

/// What becomes of the time of a line.
#[derive(Clone, Copy)]
pub enum TimeChange {
    /// It stays, or there is none.
    Stays,
    /// It becomes this one.
    Becomes(i64),
    /// The line is refused.
    Wrong(TimeFault),
}

/// Why a line is refused for its time.
#[derive(Clone, Copy, Debug, PartialEq, Eq)]
pub enum TimeFault {
    /// This time in this unit is more nanoseconds than an `i64` holds.
    Overflow(i64, TimeUnit),
    /// This time is not within the range.
    OutOfRange(i64),
    /// There is a range, and the line has no time.
    Missing,
}

// How many nanoseconds a unit has.
fn nanos_in(unit: TimeUnit) -> i64
    ensures { result ≡ nanos_in unit }
{
    match unit {
        TimeUnit::Seconds => 1_000_000_000,
        TimeUnit::Millis => 1_000_000,
        TimeUnit::Micros => 1_000,
        TimeUnit::Nanos => 1,
    }
}

// A unit, as faults name it.
fn unit_text(unit: TimeUnit) -> &'static str
    ensures { result.now ≡ unit_text unit }
{
    match unit {
        TimeUnit::Seconds => "seconds",
        TimeUnit::Millis => "milliseconds",
        TimeUnit::Micros => "microseconds",
        TimeUnit::Nanos => "nanoseconds",
    }
}

// What is wrong with the line.
impl fmt::Display for TimeFault {
    ghost output = { λ fault. Some (time_fault_text fault) };

    fn fmt<W: fmt::Write>(&self, f: &mut fmt::Formatter<W>) -> fmt::Result {
        match self {
            TimeFault::Overflow(came, unit) => write!(
                f,
                "time overflow: {came} {} do not fit 64 bits in nanoseconds",
                unit_text(*unit)
            ),
            TimeFault::OutOfRange(time) => write!(f, "time out of range: {time}"),
            TimeFault::Missing => f.write_str("time missing: the line has no timestamp"),
        }
    }
}

// Whether lines may have this time.
fn is_within(times: &Times, time: i64) -> bool
    ensures { result ≡ is_within times.now time }
{
    let is_late = match times.from {
        Some(from) => from <= time,
        None => true,
    };
    let is_early = match times.to {
        Some(to) => time < to,
        None => true,
    };
    is_late && is_early
}

// This change, if lines may have this time.
fn if_within(times: &Times, time: i64, change: TimeChange) -> TimeChange
    ensures { result ≡ if_within times.now time change }
{
    if is_within(times, time) {
        change
    } else {
        TimeChange::Wrong(TimeFault::OutOfRange(time))
    }
}

// What becomes of a timestamp in this unit that comes to so many nanoseconds.
fn in_nanos(unit: TimeUnit, time: i64) -> TimeChange
    ensures { result ≡ in_nanos unit time }
{
    match unit {
        TimeUnit::Nanos => TimeChange::Stays,
        _ => TimeChange::Becomes(time),
    }
}

// What becomes of a line without a timestamp.
fn without_time(times: &Times) -> TimeChange
    ensures { result ≡ without_time times.now times.now.missing }
{
    match times.missing {
        Some(time) => if_within(times, time, TimeChange::Becomes(time)),
        None if times.from.is_some() || times.to.is_some() => TimeChange::Wrong(TimeFault::Missing),
        None => TimeChange::Stays,
    }
}

/// What becomes of the timestamp with which a line came, if it came with one.
pub fn change_of(times: &Times, came: Option<i64>) -> TimeChange
    ensures { result ≡ change_of times.now came }
{
    let Some(came) = came else {
        return without_time(times);
    };
    match came.checked_mul(nanos_in(times.unit)) {
        Some(time) => if_within(times, time, in_nanos(times.unit, time)),
        None => TimeChange::Wrong(TimeFault::Overflow(came, times.unit)),
    }
}

// Where the last word of a text ends: before the spaces at its end.
fn word_end(text: &[u8]) -> usize
    ensures value { result ≡ word_end text.now }
    ensures within { result ≤ length text.now }
    ensures space { result < length text.now → slice_index text.now result ≡ space }
{
    let mut end = text.len();
    while end > 0 && text[end - 1] == b' ' {
        end -= 1;
    }
    end
}

// Where the last word begins of a text with no space at its end: after its last space.
fn word_start(text: &[u8]) -> usize
    ensures value { result ≡ word_start text.now }
    ensures within { result ≤ length text.now }
    ensures space { 0 < result → slice_index text.now (result - 1) ≡ space }
{
    let mut start = text.len();
    while start > 0 && text[start - 1] != b' ' {
        start -= 1;
    }
    start
}

// Appends the text of a line that has this time, in the place of the one with which it came, if it came with one.
fn put_text_at(out: &mut String, text: &str, came: Option<i64>, time: i64) -> Result<(), AllocError>
    ensures { OnOk result (string_bytes out.new ≡ string_bytes out.old ++ text_at came time text.now) }
{
    if came.is_none() {
        out.push_str(text)?;
        write!(out, " {time}")?;
        return Ok(());
    }
    let end = word_end(text.as_bytes());
    let start = word_start(&text.as_bytes()[..end]);
    out.push_str(&text[..start])?;
    write!(out, "{time}")?;
    out.push_str(&text[end..])
}

/// The piece of a line that has this time, in the place of the one with which it came, if it came with one.
pub fn piece_at(
    alloc: Global,
    piece: &str,
    text: &str,
    came: Option<i64>,
    time: i64,
) -> Result<String, AllocError>
    requires text { text.now ≡ trimmed piece.now }
    requires some { 0 < length text.now }
    ensures value { IfOk result (λ new. string_bytes new ≡ piece_at came time piece.now) }
    ensures front { IfOk result (λ new. front_of (string_bytes new) ≡ front_of piece.now) }
{
    let front = piece.len().saturating_sub(text.len());
    let mut new = String::from_str(alloc, &piece[..front])?;
    put_text_at(&mut new, text, came, time)?;
    Ok(new)
}
