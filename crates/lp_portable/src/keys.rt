//! Checks whether a key is repeated.
//!
//! No key is repeated if the keys rise, and most writers sort them. Otherwise up to 32 keys are compared with one another, which
//! takes no memory. More keys are put into a map, so that the time for a line of a million fields does not grow with the square
//! of their number.

ghost use Rattle.std.specs.Prelude.{◌≡◌, ◌≤◌, IfOk, IsOk, bytes_eq, length, map};
ghost use Rattle.std.specs.List.{list_any};
ghost use Rattle.std.specs.{Cmp.Lexicographic.slice_cmp, Ordering.is_lt, Ordering.nat_cmp};
ghost use Rattle.lp_values.specs.code.Texts.{text_of};
ghost use Rattle.lp_events.specs.code.OwnBases.{is_strictly_sorted};
ghost use Rattle.lp_portable.specs.format.Portable.{has_repeats};
ghost use Rattle.lp_portable.specs.code.Walks.{keys_in, most_compared};

use lp_values::EscapedStr;
use std::alloc::{AllocError, Global};
use std::collections::BTreeMap;

// The most keys that are compared with one another.
const MOST_COMPARED: usize = 32;

// Returns true if some key is this text.
fn has_key<'a, X: Drop>(key: &str, items: &[(EscapedStr<'a>, X)]) -> bool
    ensures { result ≡ list_any (λ x. bytes_eq key.now (text_of x.0)) items.now }
{
    items.iter().any(|(other, _)| key == other.as_str())
}

/// Returns true if a key is greater than the last key, by bytes. Most keys differ in one of their first bytes. A loop finds this
/// byte before another comparison has to be called.
#[inline(always)]
pub fn rises(last: &[u8], key: &[u8]) -> bool
    ensures { result ≡ is_lt (slice_cmp nat_cmp last.now key.now) }
{
    let mut at = 0;
    while at < last.len() && at < key.len() {
        if last[at] != key[at] {
            return last[at] < key[at];
        }
        at += 1;
    }
    last.len() < key.len()
}

// Returns true if each key is greater than the key before it.
fn keys_rise<'a, X: Drop>(items: &[(EscapedStr<'a>, X)]) -> bool
    ensures { result ≡ is_strictly_sorted (keys_in items.now) }
{
    items.is_sorted_by(|(before, _), (key, _)| before.as_str() < key.as_str())
}

// Returns true if a key is repeated. Compares each key with the keys before it.
fn has_few_repeats<'a, X: Drop>(items: &[(EscapedStr<'a>, X)]) -> bool
    ensures { result ≡ has_repeats (keys_in items.now) }
{
    for at in 0..items.len() {
        if has_key(items[at].0.as_str(), &items[..at]) {
            return true;
        }
    }
    false
}

// Returns true if a key is repeated. Looks for each key, from the last key on, in a map of the keys after it.
fn has_many_repeats<'a, X: Drop>(
    alloc: Global,
    items: &[(EscapedStr<'a>, X)],
) -> Result<bool, AllocError>
    ensures { IfOk result (λ found. found ≡ has_repeats (keys_in items.now)) }
{
    let mut keys = BTreeMap::new(alloc);
    let mut left = items.len();
    while left > 0 {
        left -= 1;
        let name = items[left].0.as_str();
        if keys.contains_key(name) {
            return Ok(true);
        }
        keys.insert(name, ())?;
    }
    Ok(false)
}

/// Returns true if a key is repeated. Takes no memory for at most 32 keys, and for keys that rise.
///
/// # Errors
///
/// Returns `AllocError` if memory was refused.
///
/// ```text
/// of the fields of  m f=1,f=2  is true
/// ```
pub(crate) fn has_repeats<'a, X: Drop>(
    alloc: Global,
    items: &[(EscapedStr<'a>, X)],
) -> Result<bool, AllocError>
    ensures value { IfOk result (λ found. found ≡ has_repeats (keys_in items.now)) }
    ensures no_memory { length items.now ≤ most_compared → IsOk result }
{
    if keys_rise(items) {
        return Ok(false);
    }
    if items.len() <= MOST_COMPARED {
        return Ok(has_few_repeats(items));
    }
    has_many_repeats(alloc, items)
}
