//! Which clauses of what is portable the lines of rows by offsets break, told in the rows.

ghost use Rattle.std.specs.Prelude.{◌≡◌, ◌≢◌, ◌↔◌, ◌≤◌, ◌<◌, IfOk, IfSome, IsOk, drop, length, take, true};
ghost use Rattle.std.specs.List.{AllByRecursion, AllZip};
ghost use Rattle.lp_format.specs.{code.Light.is_light, format.Strict, format.trimmed};
ghost use Rattle.lp_portable.specs.format.Portable.{default_limits};
ghost use Rattle.lp_offsets.specs.Numbers.{answer_number};
ghost use Rattle.lp_c.specs.SureRows.{IsShownRow};
ghost use Rattle.lp_c.specs.Verdicts.{IsPieceOf, IsVerdictBy, MayTakeMemory, TellsVerdict, format_limits, limits_of, piece_there};
ghost use Rattle.lp_offsets.specs.declared.enums.Answer.TheVariants as Answer;

use crate::sure_rows::sure_verdict;
use lp_offsets::enums::Answer;
use lp_offsets::offsets::OffsetRow;
use lp_offsets::placed::OffsetPart;
use lp_offsets::portions::{Portion, no_portion};
use lp_portable::{Limits as Most, broken_clauses};
use std::alloc::{AllocError, Global};

/// What the options of a server change.
#[repr(C)]
#[derive(Clone, Copy)]
pub struct Limits {
    /// The most bytes of a line.
    pub line: usize,
    /// The most tags of a line.
    pub tags: usize,
    /// The earliest timestamp that is kept.
    pub earliest: i64,
    /// The latest timestamp that is kept.
    pub latest: i64,
}

// Limits as the library takes them.
fn limits_of(limits: &Limits) -> Most
    ensures { result ≡ limits_of limits.now }
{
    Most {
        line: limits.line,
        tags: limits.tags,
        earliest: limits.earliest,
        latest: limits.latest,
    }
}

/// The limits of servers whose options are as they come: lines of 262,144 bytes, 29 tags, and timestamps from 1,000,000 on. It asks for no
/// memory.
///
/// ```text
/// limits.tags  is  29
/// ```
#[unsafe(no_mangle)]
pub extern "C" fn lp_limits_default(limits: &mut Limits)
    ensures { format_limits limits.new ≡ default_limits }
{
    let most = Most::new();
    *limits = Limits {
        line: most.line,
        tags: most.tags,
        earliest: most.earliest,
        latest: most.latest,
    };
}

// The piece of a row, if it has a line and the text has the piece at its place.
fn piece_of<'a>(portion: &mut Portion<'a>, row: &OffsetRow) -> Option<&'a str>
    ensures text { portion.new.bytes.now ≡ portion.old.bytes.now }
    ensures piece { IsPieceOf portion.old.bytes.now row.now result }
{
    if row.answer != Answer::Line.number() {
        return None;
    }
    let at = row.piece.at as usize;
    let len = row.piece.len as usize;
    if portion.bytes.len() < at || portion.bytes.len() - at < len {
        return None;
    }
    portion.next_text(at, len)
}

// The bits of the clauses that the piece of a row breaks, or 1 if it is no line, by a look at its text.
fn verdict_by_text(
    alloc: Global,
    limits: &Most,
    portion: &mut Portion<'_>,
    row: &OffsetRow,
) -> Result<u64, AllocError>
    ensures text { portion.new.bytes.now ≡ portion.old.bytes.now }
    ensures bits { IfOk result (IsVerdictBy limits.now portion.old.bytes.now row.now) }
    ensures memory { is_light Strict (trimmed (piece_there portion.old.bytes.now row.now)) ≡ true → IsOk result }
{
    let Some(piece) = piece_of(portion, row) else {
        return Ok(1);
    };
    match broken_clauses(alloc, limits, piece)? {
        Some(broken) => Ok(broken.bits()),
        None => Ok(1),
    }
}

// The same, from its places if that is sure. The parts are those of the rows, if the strict rules filled them.
#[inline(always)]
fn verdict(
    alloc: Global,
    limits: &Most,
    portion: &mut Portion<'_>,
    parts: Option<&[OffsetPart]>,
    row: &OffsetRow,
) -> Result<u64, AllocError>
    requires { IfSome parts (λ own. IsShownRow portion.old.bytes.now own.now row.now) }
    ensures text { portion.new.bytes.now ≡ portion.old.bytes.now }
    ensures bits { IfOk result (IsVerdictBy limits.now portion.old.bytes.now row.now) }
    ensures memory { is_light Strict (trimmed (piece_there portion.old.bytes.now row.now)) ≡ true → IsOk result }
{
    if let Some(own) = parts {
        if let Some(bits) = sure_verdict(limits, portion.bytes, own, row) {
            return Ok(bits);
        }
    }
    verdict_by_text(alloc, limits, portion, row)
}

/// Tells rows their verdicts, and gives how many it told: fewer than all if memory was refused for the next one. The parts are those of the
/// rows, if these were filled by the strict rules.
#[inline(always)]
pub(crate) fn tell_verdicts(
    alloc: Global,
    limits: &Limits,
    text: &[u8],
    parts: Option<&[OffsetPart]>,
    rows: &mut [OffsetRow],
) -> usize
    requires { IfSome parts (λ own. AllByRecursion (IsShownRow text.now own.now) rows.old) }
    ensures verdicts { AllZip (TellsVerdict limits.now text.now) (take result rows.old) (take result rows.new) }
    ensures others { drop result rows.new ≡ drop result rows.old }
    ensures size { (length rows.new ≡ length rows.old) × (result ≤ length rows.new) }
    ensures memory { result < length rows.new → MayTakeMemory text.now (drop result rows.old) }
{
    let most = limits_of(limits);
    let count = rows.len();
    let mut portion = no_portion(text, 0);
    for at in 0..count {
        portion.texts = count - at;
        let Ok(bits) = verdict(alloc, &most, &mut portion, parts, &rows[at]) else {
            return at;
        };
        rows[at].verdict = bits;
    }
    count
}

/// Tells each row which clauses its piece breaks, with these limits: `verdict` is the sum of their bits, 0 if it breaks none. It is 1 if the
/// piece is not one line for the strict reader, or the row has no line, or the text has no UTF-8 at the place of the piece.
///
/// `text` is the one of which `lp_offsets_block` filled the rows, by whatever rules: each piece is read again by the strict ones. Answers
/// `Written`; or `OutOfMemory`, if memory was refused for a row. `told` is how many rows are told: the first ones. The rows after these
/// are as they were, and so is all else in each row. No memory is taken for a line with at most 8 tags and 4 fields whose names and
/// strings are no copies; else as for `broken_clauses`, and given back.
///
/// ```text
/// m f=1   ->  0
/// m f=1u  ->  16384: an unsigned integer
/// m 1     ->  1: no line
/// ```
#[unsafe(no_mangle)]
pub extern "C" fn lp_offsets_verdicts(
    alloc: Global,
    text: &[u8],
    rows: &mut [OffsetRow],
    limits: &Limits,
    told: &mut usize,
) -> u32
    ensures verdicts { AllZip (TellsVerdict limits.now text.now) (take told.new rows.old) (take told.new rows.new) }
    ensures others { drop told.new rows.new ≡ drop told.new rows.old }
    ensures size { (length rows.new ≡ length rows.old) × (told.new ≤ length rows.new) }
    ensures all { result ≡ answer_number Answer.Written ↔ told.new ≡ length rows.new }
    ensures answers { result ≢ answer_number Answer.Written → result ≡ answer_number Answer.OutOfMemory }
    ensures memory { result ≡ answer_number Answer.OutOfMemory → MayTakeMemory text.now (drop told.new rows.old) }
{
    *told = tell_verdicts(alloc, limits, text, None, rows);
    if *told < rows.len() {
        return Answer::OutOfMemory.number();
    }
    Answer::Written.number()
}
