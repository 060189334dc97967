//! Lines that are freed without a visit to each place of their sets.
//!
//! To drop a line visits the 8 places of tags and the 4 places of fields that it has inline, also the empty ones. A caller that
//! reads many short lines, each into a line of its own, can free the memory of a line by [`free_line`], which mostly has nothing
//! to do. The caller then forgets the line by [`forget_line`], which requires a line that holds no memory, so that no memory is
//! lost.

ghost use Rattle.std.specs.Prelude.{◌≡◌, ◌≤◌, []};
ghost use Rattle.lp_lines.specs.code.Freeing.{HoldsNoMemory};

use crate::ParsedLine;
use lp_values::EscapedStr;
use smallvec::SmallVec;
use std::alloc::Global;
use std::default::MadeWith;
use std::mem;

// Frees the memory of a set that has grown.
#[inline(never)]
fn free_set<T: MadeWith<Global> + Drop, const N: usize>(alloc: Global, set: &mut SmallVec<T, N>)
    ensures items { set.new.items ≡ [] }
    ensures room { set.new.capacity ≡ N }
{
    *set = SmallVec::new(alloc);
}

// Empties a set, and frees its memory if it has grown.
#[inline(always)]
fn empty_set<T: MadeWith<Global> + Drop, const N: usize>(alloc: Global, set: &mut SmallVec<T, N>)
    ensures items { set.new.items ≡ [] }
    ensures room { set.new.capacity ≤ N }
{
    set.clear();
    if set.spilled() {
        free_set(alloc, set);
    }
}

/// Frees the memory that a line holds, and empties its sets. [`forget_line`] can then forget the line.
#[inline(always)]
pub fn free_line<'a>(alloc: Global, parsed: &mut ParsedLine<'a>)
    ensures { HoldsNoMemory parsed.new }
{
    parsed.series.measurement = EscapedStr::SingleSlice("");
    if let Some(tags) = &mut parsed.series.tag_set {
        empty_set(alloc, tags);
    }
    empty_set(alloc, &mut parsed.field_set);
}

/// Forgets a line that holds no memory, without a visit to the places of its sets.
#[inline(always)]
pub fn forget_line(parsed: ParsedLine<'_>)
    requires { HoldsNoMemory parsed }
{
    mem::forget(parsed);
}
