//! Finds the key of a series at the start of a text.
//!
//! A line that the builder writes begins with the key of its series if its tags are in order. Checking this is a walk over the
//! names that takes no memory. Making a key takes memory and copies each name.

ghost use Rattle.std.specs.Prelude.{◌≡◌, ◌<◌, ◌≤◌, ℕ, List, IfSome, length, not};
ghost use Rattle.std.specs.{Cmp.Lexicographic.slice_cmp, Ordering.is_lt, Ordering.nat_cmp};
ghost use Rattle.lp_format.specs.format.{a_tag_key, spelling};
ghost use Rattle.lp_written.specs.code.AsWritten.{IsOnlyRest};
ghost use Rattle.lp_written.specs.code.WrittenKeys.{AreTagsFront, EndsSeries, IsTagAfter, LendsKey, TakesByte};

use crate::tokens::after_written_name;
use lp_scan::trim::strip_byte;
use lp_values::names::NameKind;

// Returns the first byte of a name and the text of its other bytes, from the text that the builder writes for the name.
#[tactic(auto, using(crate::proofs::lemmas::parts::WrittenKeys::byte_steps))]
#[inline(always)]
fn split_byte(text: &[u8]) -> Option<(u8, &[u8])>
    ensures value { TakesByte text.now result }
    ensures less { IfSome result (λ p. length p.1.now < length text.now) }
{
    let Some((first, rest)) = text.split_first() else {
        return None;
    };
    if *first != b'\\' {
        return Some((*first, rest));
    }
    let Some((byte, rest)) = rest.split_first() else {
        return None;
    };
    Some((*byte, rest))
}

// Tells whether a tag key is not less than the key before it. Both keys are given by the texts that the builder writes for
// them.
fn is_in_order(before: &[u8], key: &[u8]) -> bool
    ensures { (b k : List ℕ) → before.now ≡ spelling a_tag_key b → key.now ≡ spelling a_tag_key k
        → result ≡ not (is_lt (slice_cmp nat_cmp k b)) }
{
    let mut left = before;
    let mut right = key;
    while let Some((byte, rest)) = split_byte(left) {
        let Some((other, others)) = split_byte(right) else {
            return false;
        };
        if byte != other {
            return byte < other;
        }
        left = rest;
        right = others;
    }
    true
}

// Returns the key of the tag at the start of `text`, as it is written, and the rest after the tag. Returns `None` if the tag is
// not as the builder writes it, or its key is less than the key before it.
#[inline(always)]
fn next_tag<'a>(before: &[u8], text: &'a str) -> Option<(&'a [u8], &'a str)>
    ensures value { IsTagAfter before.now text.now result }
    ensures less { IfSome result (λ p. length p.1.now ≤ length text.now) }
{
    let Some(key_end) = after_written_name(NameKind::TagKey, text) else {
        return None;
    };
    let key = &text.as_bytes()[..text.len() - key_end.len()];
    if !is_in_order(before, key) {
        return None;
    }
    let Some(value) = strip_byte(b'=', key_end) else {
        return None;
    };
    let Some(rest) = after_written_name(NameKind::TagValue, value) else {
        return None;
    };
    Some((key, rest))
}

// Returns the rest after the tags at the start of `text`, each after a comma. Returns `None` if a tag is not as the builder
// writes it, or the tags are not in order.
#[inline(always)]
fn after_tags(text: &str) -> Option<&str>
    ensures { IsOnlyRest (AreTagsFront text.now) EndsSeries result }
{
    let mut key: &[u8] = b"";
    let mut left = text;
    while let Some(tag) = strip_byte(b',', left) {
        let Some((next, rest)) = next_tag(key, tag) else {
            return None;
        };
        key = next;
        left = rest;
    }
    Some(left)
}

/// Returns the key of the series at the start of a text, if the text begins with this key. The key is a part of `text`.
///
/// The text can be a line, or the `raw_input` of a [`Series`](lp_lines::Series). Returns `None` unless the text begins with a
/// measurement and tags as the builder writes them, the tags are in the order of their keys, by bytes, and all names are
/// admitted. The series ends at a space or at the end of the text. The key is the text that
/// [`Series::key`](lp_lines::Series::key) makes of this series; `laws::keys_tell_series` has the theorem. Takes no memory, and
/// reads the names once.
///
/// ```text
/// cpu,az=b,host=a usage=1  ->  cpu,az=b,host=a
/// cpu,az=b,host=a          ->  cpu,az=b,host=a
/// cpu,host=a,az=b usage=1  ->  None: the keys are not in order
/// m,a=x\y f=1              ->  None: the builder writes x\\y
/// ```
pub fn key_of_text(text: &str) -> Option<&str>
    ensures { LendsKey text.now result }
{
    let Some(tags) = after_written_name(NameKind::Measurement, text) else {
        return None;
    };
    let Some(rest) = after_tags(tags) else {
        return None;
    };
    if rest.is_empty() {
        return Some(text);
    }
    if strip_byte(b' ', rest).is_none() {
        return None;
    }
    Some(&text[..text.len() - rest.len()])
}
