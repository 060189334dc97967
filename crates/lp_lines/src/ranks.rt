//! Tags in the order of their keys. The first bytes of the keys are compared as numbers.

ghost use Rattle.std.specs.Prelude.{◌≡◌, ◌<◌, ◌≤◌, ◌∷◌, OnOk, length, map, slice_index, take};
ghost use Rattle.std.specs.Cmp.Lexicographic.{slice_cmp};
ghost use Rattle.std.specs.Ordering.{nat_cmp};
ghost use Rattle.lp_events.specs.code.OwnBases.{is_strictly_sorted};
ghost use Rattle.lp_lines.specs.code.Keys.{sorted_by};
ghost use Rattle.lp_lines.specs.code.Ranks.{AreSorted, IsFrontLen, lent_rank, rank_of, ranked, ranked_key};
ghost use Rattle.lp_values.specs.code.Texts.{text_of};

use lp_values::EscapedStr;
use std::alloc::{AllocError, Global};
use std::cmp::Ordering;

/// The number of tags that are put in order without memory.
pub(crate) const FEW_TAGS: usize = 16;

/// A tag with the rank of its key: the number that 8 bytes of the key spell, after the bytes that all keys begin with.
pub(crate) type Ranked<'l, 'a> = (u64, &'l (EscapedStr<'a>, EscapedStr<'a>));

// Returns the byte at this place, or 0 after the end.
#[inline(always)]
fn byte_at(text: &[u8], at: usize) -> u8
    ensures { result ≡ slice_index text.now at }
{
    if at < text.len() { text[at] } else { 0 }
}

// Returns the rank of a text of any length.
fn short_rank(text: &[u8]) -> u64
    ensures { result ≡ rank_of text.now }
{
    u64::from_be_bytes([
        byte_at(text, 0),
        byte_at(text, 1),
        byte_at(text, 2),
        byte_at(text, 3),
        byte_at(text, 4),
        byte_at(text, 5),
        byte_at(text, 6),
        byte_at(text, 7),
    ])
}

// Returns the rank of a text, by one load if the text has 8 bytes.
#[inline(always)]
fn rank(text: &[u8]) -> u64
    ensures { result ≡ rank_of text.now }
{
    if text.len() < 8 {
        return short_rank(text);
    }
    u64::from_be_bytes([
        text[0], text[1], text[2], text[3], text[4], text[5], text[6], text[7],
    ])
}

// Returns how many bytes at the start of both texts are equal.
fn alike_len(one: &[u8], other: &[u8]) -> usize
    ensures alike { take result one.now ≡ take result other.now }
    ensures bound { (result ≤ length one.now) × (result ≤ length other.now) }
{
    let mut at = 0;
    while at < one.len() && at < other.len() && one[at] == other[at] {
        at += 1;
    }
    at
}

// Returns how many bytes all keys begin with. Returns 0 if the tags are few, or if these bytes are fewer than a rank has.
fn front_len<'a>(tags: &[(EscapedStr<'a>, EscapedStr<'a>)]) -> usize
    ensures { IsFrontLen result tags.now }
{
    if tags.len() <= FEW_TAGS {
        return 0;
    }
    let key = tags[0].0.as_str().as_bytes();
    let mut len = key.len();
    for tag in tags {
        len = alike_len(&key[..len], tag.0.as_str().as_bytes());
        if len < 8 {
            return 0;
        }
    }
    len
}

// Compares two tags by their ranks, and by their keys if the ranks are equal.
#[inline(always)]
fn order<'l, 'a>(one: &Ranked<'l, 'a>, other: &Ranked<'l, 'a>) -> Ordering
    ensures { result ≡ slice_cmp nat_cmp (ranked_key (lent_rank one.now)) (ranked_key (lent_rank other.now)) }
{
    if one.0 != other.0 {
        return one.0.cmp(&other.0);
    }
    one.1.0.as_str().cmp(other.1.0.as_str())
}

// Puts each tag out with the rank of its key after the first `len` bytes.
fn rank_tags<'l, 'a>(
    len: usize,
    tags: &'l [(EscapedStr<'a>, EscapedStr<'a>)],
    out: &mut [Ranked<'l, 'a>],
)
    requires { (length out.old ≡ length tags.now) × IsFrontLen len tags.now }
    ensures { map lent_rank out.new ≡ map (ranked len) tags.now }
{
    for at in 0..tags.len() {
        let tag = &tags[at];
        out[at] = (rank(&tag.0.as_str().as_bytes()[len..]), tag);
    }
}

// Sorts ranked tags. Tags with equal keys stay in their order.
fn sort_ranked<'l, 'a>(alloc: Global, tags: &mut [Ranked<'l, 'a>]) -> Result<(), AllocError>
    ensures { OnOk result (tags.new ≡ sorted_by (λ r. ranked_key (lent_rank r)) tags.old) }
{
    tags.sort_by(alloc, |one, other| order(one, other))?;
    Ok(())
}

/// Puts the tags out in the order of their keys. Tags with equal keys stay in their order. More than 20 tags take memory.
pub(crate) fn put_sorted<'l, 'a>(
    alloc: Global,
    tags: &'l [(EscapedStr<'a>, EscapedStr<'a>)],
    out: &mut [Ranked<'l, 'a>],
) -> Result<(), AllocError>
    requires { length out.old ≡ length tags.now }
    ensures { OnOk result (AreSorted (map lent_rank out.new) tags.now) }
{
    rank_tags(front_len(tags), tags, out);
    sort_ranked(alloc, out)
}

/// Returns whether each of these tags is greater than the one before it, by its rank and its key.
pub(crate) fn ranks_rise<'l, 'a>(tags: &[Ranked<'l, 'a>]) -> bool
    ensures { result ≡ is_strictly_sorted (map (λ r. ranked_key (lent_rank r)) tags.now) }
{
    tags.is_sorted_by(|before, tag| order(before, tag).is_lt())
}
