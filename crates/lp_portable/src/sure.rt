//! Finds lines that surely break no clause, from the names and literals that were read and from the text.
//!
//! A line whose parts are known need not be read a second time. If its text holds exactly as many marks as its parts need, only
//! the clauses about its time, its tags and its length are left to check.

ghost use Rattle.std.specs.Prelude.{◌≡◌, ◌≤◌, ◌<◌, ◌+◌, ◌^◌, IfSome, IsTrue, codes, false, length, true, if◌then◌else◌};
ghost use Rattle.std.specs.List.{list_any};
ghost use Rattle.lp_format.specs.format.{is_one_of, trimmed};
ghost use Rattle.lp_portable.specs.code.Bits.{bits_of, place};
ghost use Rattle.lp_portable.specs.code.Sure.{AreBitsOf, IsBare, IsLineNoted, begins_own, broken_by_noted, counted, is_sure_key, is_sure_tag};

use crate::broken::{Broken, Clause, NOTHING};
use crate::limits::Limits;
use crate::marks::marks_in;
use crate::values;

/// Returns true if a name begins with an underscore, as the servers' own names do.
#[inline(always)]
pub fn begins_own(name: &[u8]) -> bool
    ensures { result ≡ begins_own name.now }
{
    matches!(name, [b'_', ..])
}

/// Returns true if a key without marks surely breaks no clause, neither as a tag key nor as a field key.
#[inline(always)]
pub fn is_sure_key(key: &[u8]) -> bool
    ensures { result ≡ is_sure_key key.now }
{
    !begins_own(key) && key != b"time".as_slice()
}

/// Returns true if a tag key without marks surely breaks no clause.
#[inline(always)]
pub fn is_sure_tag(key: &[u8]) -> bool
    ensures { result ≡ is_sure_tag key.now }
{
    key.len() <= 256 && is_sure_key(key)
}

// Returns true if a text holds an `e` or an `E`.
fn has_power(literal: &[u8]) -> bool
    ensures { result ≡ list_any (is_one_of (codes "eE")) literal.now }
{
    literal.iter().any(|byte| matches!(byte, b'e' | b'E'))
}

/// Returns true if the literal of a float is short and has no exponent.
#[inline(always)]
pub fn is_short_literal(literal: &[u8]) -> bool
    ensures short { result ≡ true → length literal.now ≤ 300 }
    ensures bare { result ≡ true → list_any (is_one_of (codes "eE")) literal.now ≡ false }
{
    literal.len() <= 300 && !has_power(literal)
}

/// Returns true if a text is short, holds no more marks than this number of parts needs, and begins and ends with no blank.
#[inline(always)]
pub(crate) fn is_bare(text: &[u8], parts: usize) -> bool
    requires { parts < 2 ^ 60 }
    ensures { IsTrue result → IsBare text.now parts }
{
    text.len() <= 8000
        && !matches!(text, [b' ' | b'\t', ..])
        && !matches!(text, [.., b' '])
        && marks_in(text) + 1 == 2 * parts
}

/// Returns the clauses that a line with this number of tags and this timestamp breaks, if it breaks only clauses about its time,
/// its tags and its length.
pub(crate) fn broken_by_noted(
    limits: &Limits,
    text: &[u8],
    tags: usize,
    timestamp: Option<i64>,
) -> Broken
    ensures { result ≡ broken_by_noted limits.now text.now tags timestamp }
{
    Broken {
        time_out_of_range: values::is_outside(
            -9_223_372_036_854_775_806,
            9_223_372_036_854_775_806,
            timestamp,
        ),
        too_many_tags: tags > limits.tags,
        long_line: text.len() > limits.line,
        time_not_kept: values::is_outside(limits.earliest, limits.latest, timestamp),
        ..NOTHING
    }
}

// Returns the bit of a clause that is broken, and 0 for a clause that is not broken.
#[inline(always)]
fn bit_if(broken: bool, clause: Clause) -> u64
    ensures value { result ≡ (if broken then 2 ^ (place clause + 1) else 0) }
    ensures within { result ≤ 2 ^ 32 }
{
    if broken { 2 << clause.place() } else { 0 }
}

// Returns the bits of the clauses that a line breaks that is sure.
#[inline(always)]
fn bits_by_noted(limits: &Limits, text: &[u8], tags: usize, timestamp: Option<i64>) -> u64
    ensures { result ≡ bits_of (broken_by_noted limits.now text.now tags timestamp) }
{
    let broken = broken_by_noted(limits, text, tags, timestamp);
    bit_if(broken.time_out_of_range, Clause::TimeOutOfRange)
        + bit_if(broken.too_many_tags, Clause::TooManyTags)
        + bit_if(broken.long_line, Clause::LongLine)
        + bit_if(broken.time_not_kept, Clause::TimeNotKept)
}

/// Returns the bits of the clauses that a text breaks. Returns `None` if the text may break a clause that is not about its time,
/// its tags or its length.
///
/// The line of the text must have this many tags and fields and this timestamp, and its parts must be sure: its measurement begins
/// with no underscore, its keys and values are sure, and no key is repeated. Takes no memory, and reads the bytes once.
///
/// ```text
/// m,t=x f=1i   with 1 tag, 1 field and no timestamp  is Some(0)
/// m,t=x f="x"  with as many                          is None
/// ```
#[inline(always)]
pub fn sure_bits(
    limits: &Limits,
    text: &[u8],
    tags: usize,
    fields: usize,
    timestamp: Option<i64>,
) -> Option<u64>
    requires { IsLineNoted (trimmed text.now) (counted tags fields timestamp) }
    ensures { IfSome result (AreBitsOf limits.now text.now) }
{
    if !is_bare(text, tags + fields) {
        return None;
    }
    Some(bits_by_noted(limits, text, tags, timestamp))
}
