//! A text that is rebuilt: its lines are written again into a buffer that the caller lends, and its faults into another.

ghost use Rattle.std.specs.Prelude.{◌≡◌, ◌≢◌, ◌↔◌, IsUtf8};
ghost use Rattle.lp_offsets.specs.declared.enums.Answer.TheVariants.{MoreRoom, NotADialect, NotUtf8, OutOfMemory, Written};
ghost use Rattle.lp_offsets.specs.Numbers.{IsNoDialect, answer_number, dialect_of};
ghost use Rattle.lp_c.specs.Rebuilding.{Counted, PutsBoth, RebuildsInto};

use crate::writing::put_front;
use lp_offsets::enums::{Answer, Dialect};
use lp_rebuild::{Rebuilt, rebuild_in};
use std::alloc::Global;

/// How much was rebuilt.
#[repr(C)]
#[derive(Clone, Copy)]
pub struct Counts {
    /// How many bytes the lines take that are written again.
    pub batch_len: usize,
    /// How many bytes the lines of the faults take.
    pub faults_len: usize,
    /// How many lines are written again.
    pub carried: usize,
    /// How many items are refused.
    pub refused: usize,
}

// Counts what was rebuilt.
fn count(rebuilt: &Rebuilt) -> Counts
    ensures { Counted rebuilt.now result }
{
    Counts {
        batch_len: rebuilt.batch.len(),
        faults_len: rebuilt.faults.len(),
        carried: rebuilt.carried,
        refused: rebuilt.refused,
    }
}

// Puts out what was rebuilt.
fn put_both(rebuilt: &Rebuilt, batch: &mut [u8], faults: &mut [u8]) -> u32
    ensures { PutsBoth rebuilt.now batch.old batch.new faults.old faults.new result }
{
    if batch.len() < rebuilt.batch.len() {
        return Answer::MoreRoom.number();
    }
    if faults.len() < rebuilt.faults.len() {
        return Answer::MoreRoom.number();
    }
    put_front(rebuilt.batch.as_slice(), batch);
    put_front(rebuilt.faults.as_slice(), faults);
    Answer::Written.number()
}

/// Writes again each line of a text whose names are all admitted, and refuses every other item, by the rules of the [`Dialect`] of
/// this number.
///
/// Answers `Written`, with the lines in `batch` and the faults in `faults`; or `MoreRoom`, where one of the two is too short:
/// `counts` says how much is needed. Or `NotADialect`, whatever the text is, or `NotUtf8` or `OutOfMemory`, and `counts` is as
/// before. Only `Written` changes the buffers.
#[unsafe(no_mangle)]
pub extern "C" fn lp_rebuild(
    alloc: Global,
    dialect: u32,
    text: &[u8],
    batch: &mut [u8],
    faults: &mut [u8],
    counts: &mut Counts,
) -> u32
    ensures not_a_dialect { result ≡ answer_number NotADialect ↔ IsNoDialect dialect }
    ensures not_utf8 { result ≡ answer_number NotUtf8 → ¬ IsUtf8 text.now }
    ensures utf8 { result ≢ answer_number NotADialect → result ≢ answer_number NotUtf8 → IsUtf8 text.now }
    ensures kept { result ≢ answer_number Written → result ≢ answer_number MoreRoom →
        (batch.new ≡ batch.old) × (faults.new ≡ faults.old) × (counts.new ≡ counts.old) }
    ensures rebuilds { result ≢ answer_number NotADialect → result ≢ answer_number NotUtf8 → result ≢ answer_number OutOfMemory →
        RebuildsInto (dialect_of dialect) text.now batch.old batch.new faults.old faults.new counts.new result }
{
    let Some(dialect) = Dialect::numbered(dialect) else {
        return Answer::NotADialect.number();
    };
    let Ok(text) = simdutf8::basic::from_utf8(text) else {
        return Answer::NotUtf8.number();
    };
    let Ok(rebuilt) = rebuild_in(alloc, dialect.rules(), text) else {
        return Answer::OutOfMemory.number();
    };
    *counts = count(&rebuilt);
    put_both(&rebuilt, batch, faults)
}
