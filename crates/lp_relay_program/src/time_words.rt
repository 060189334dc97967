//! What words say of the times of lines: the unit of timestamps, a time, and a range of times.
ghost use Rattle.std.specs.Prelude.{◌≡◌, ◌+◌, ◌^◌, neg_ℤ, option_map, pos};
ghost use Rattle.lp_relay_program.specs.TimeWords.{asked_time, asked_times, number_below, range_with, time_end, times_between, unit_named};

use lp_relay::TimeUnit;
use lp_words::options::{decimal_of, place_of};

/// The times from one on, and before another; one of the two may be missing.
#[derive(Clone, Copy)]
pub(crate) struct TimeRange {
    pub(crate) from: Option<i64>,
    pub(crate) to: Option<i64>,
}

/// The unit that a word names.
pub(crate) fn unit_of(word: &str) -> Option<TimeUnit>
    ensures { result ≡ unit_named word.now }
{
    match word {
        "s" => Some(TimeUnit::Seconds),
        "ms" => Some(TimeUnit::Millis),
        "us" => Some(TimeUnit::Micros),
        "ns" => Some(TimeUnit::Nanos),
        _ => None,
    }
}

// The number that a word writes, if it is less than 2^63.
fn positive_of(word: &str) -> Option<i64>
    ensures { result ≡ option_map pos (number_below (2 ^ 63) word.now) }
{
    let number = decimal_of(word)?;
    i64::try_from(number).ok()
}

// The negative of the number that a word writes, if that number is at most 2^63.
fn negative_of(word: &str) -> Option<i64>
    ensures { result ≡ option_map (λ n. neg_ℤ (pos n)) (number_below (2 ^ 63 + 1) word.now) }
{
    let number = decimal_of(word)?;
    i64::try_from(-(number as i128)).ok()
}

/// The time that a word writes: any number that an `i64` holds, with a minus sign before a negative number.
pub(crate) fn time_of(word: &str) -> Option<i64>
    ensures { result ≡ asked_time word.now }
{
    match word.strip_prefix('-') {
        Some(digits) => negative_of(digits),
        None => positive_of(word),
    }
}

// An end of a range of times, as a word writes it: none if it has no byte.
fn time_end_of(word: &str) -> Option<Option<i64>>
    ensures { result ≡ time_end word.now }
{
    if word.is_empty() {
        return Some(None);
    }
    Some(Some(time_of(word)?))
}

// A range of times with one end or both.
fn range_with(from: Option<i64>, to: Option<i64>) -> Option<TimeRange>
    ensures { result ≡ range_with from to }
{
    if from.is_none() && to.is_none() {
        return None;
    }
    Some(TimeRange { from, to })
}

// The range from the time that a word writes, and before the one that another writes.
fn times_between(from: &str, to: &str) -> Option<TimeRange>
    ensures { result ≡ times_between from.now to.now }
{
    let start = time_end_of(from)?;
    let end = time_end_of(to)?;
    range_with(start, end)
}

/// The range of times that a word writes: two times, of which one may be missing, with two dots between them.
pub(crate) fn times_of(word: &str) -> Option<TimeRange>
    ensures { result ≡ asked_times word.now }
{
    let at = place_of(b'.', word.as_bytes())?;
    let next = at + 1;
    if next >= word.len() || word.as_bytes()[next] != b'.' {
        return None;
    }
    times_between(&word[..at], &word[next + 1..])
}
