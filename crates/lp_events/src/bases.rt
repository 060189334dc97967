//! Whether the text of a series is its base, found while the series is read.
//!
//! The text is the base if no name is a copy and each key is greater than the one before it. The last key is therefore all that
//! is kept.

ghost use Rattle.std.specs.Prelude.{◌≡◌, ◌<◌, ◌++◌, ◌∷◌, [], List, length};
ghost use Rattle.std.specs.{Cmp.Lexicographic.slice_cmp, Ordering.is_lt, Ordering.nat_cmp};
ghost use Rattle.lp_format.specs.format.{Pair, Text};
ghost use Rattle.lp_values.specs.code.SpelledParts.{spelled_text};
ghost use Rattle.lp_events.specs.code.{Events.spelled_tag, OwnBases.IsKeptOf};

use lp_values::Spelled;
use lp_values::spelled::shared;

/// The data that is kept of a series: whether its text is its base so far, and, if so, its last key, or the empty text before the
/// first key.
#[derive(Clone, Copy)]
pub(crate) struct Kept<'a> {
    pub(crate) last: &'a str,
    pub(crate) is_base: bool,
}

/// Returns the data of a series before its first tag.
#[inline(always)]
pub(crate) fn before_tags<'a>(measurement: Spelled<'a>) -> Kept<'a>
    ensures { IsKeptOf (spelled_text measurement.entry) [] result }
{
    Kept {
        last: "",
        is_base: shared(measurement).is_some(),
    }
}

// Returns whether a key is greater than the last key, by bytes.
//
// It is a loop that ends for the compiler to see. A reader whose sink does not ask for the answer therefore does not pay for it:
// a call would stay.
#[inline(always)]
fn rises(last: &[u8], key: &[u8]) -> bool
    ensures { result ≡ is_lt (slice_cmp nat_cmp last.now key.now) }
{
    let mut at = 0;
    while at < last.len() && at < key.len() {
        if last[at] != key[at] {
            return last[at] < key[at];
        }
        at += 1;
    }
    last.len() < key.len()
}

/// Returns the data of a series after one more tag.
///
/// The keys are always compared, whatever was found before. No jump depends on the answer, and a reader that does not ask for the
/// answer compares nothing.
#[inline(always)]
pub(crate) fn after_tag<'a>(kept: Kept<'a>, key: Spelled<'a>, value: Spelled<'a>) -> Kept<'a>
    requires { 0 < length (spelled_text key).bytes }
    ensures { (measurement : Text) (tags : List (Pair Text Text)) → IsKeptOf measurement tags kept.entry
        → IsKeptOf measurement (tags ++ spelled_tag (key.entry, value.entry) ∷ []) result }
{
    let (last, is_single) = match shared(key) {
        Some(text) => (text, shared(value).is_some()),
        None => ("", false),
    };
    let is_greater = rises(kept.last.as_bytes(), last.as_bytes());
    Kept {
        last,
        is_base: kept.is_base & is_single & is_greater,
    }
}
