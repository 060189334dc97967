//! Many items in one call, by offsets, and which clauses of what is portable each line breaks.

ghost use Rattle.std.specs.Prelude.{◌≡◌, ◌≢◌, ◌↔◌, ◌⊎◌, ◌≤◌, ◌^◌, IfSome, length};
ghost use Rattle.lp_format.specs.format.{Strict};
ghost use Rattle.lp_c.specs.BlockVerdicts.{ReadsVerdicts};
ghost use Rattle.lp_offsets.specs.Numbers.{IsNoDialect, answer_number, dialect_of};
ghost use Rattle.lp_offsets.specs.declared.enums.Answer.TheVariants as Answer;

use crate::verdicts::{Limits, tell_verdicts};
use lp_offsets::enums::{Answer, Dialect};
use lp_offsets::offsets::{Block, OffsetRow, are_in_32, fill_block};
use lp_offsets::pieces::Source;
use lp_offsets::placed::OffsetPart;
use std::alloc::Global;

// The parts of rows that are filled by the rules of this number, if these are the strict ones.
#[inline(always)]
fn strict_parts(dialect: u32, parts: &[OffsetPart]) -> Option<&[OffsetPart]>
    ensures { IfSome result (λ own. (dialect_of dialect ≡ Strict) × (own.now ≡ parts.now)) }
{
    if dialect == Dialect::Strict.number() {
        Some(parts)
    } else {
        None
    }
}

/// Reads items of a text into rows, as `lp_offsets_block` does, and tells each filled row which clauses of what is portable its piece breaks,
/// as `lp_offsets_verdicts` does, with these limits.
///
/// It answers what `lp_offsets_block` answers. `told` is how many of the filled rows are told: all of them, or fewer if memory was refused,
/// which leaves the verdict of the others at 0: `lp_offsets_verdicts` tells those. By the strict rules most lines are told from the
/// places that are read anyway, so that it takes far less than both calls. By others each line is read again.
///
/// ```text
/// m f=1u  ->  a row whose verdict is 16384: an unsigned integer
/// ```
#[unsafe(no_mangle)]
pub extern "C" fn lp_offsets_block_verdicts(
    alloc: Global,
    text: &[u8],
    dialect: u32,
    last: bool,
    block: &mut Block,
    room: &mut [u8],
    rows: &mut [OffsetRow],
    parts: &mut [OffsetPart],
    limits: &Limits,
    told: &mut usize,
) -> u32
    ensures reads { result ≢ answer_number Answer.NotADialect → result ≢ answer_number Answer.TooLong
        → ∥ ReadsVerdicts (dialect_of dialect) last text.now block.old rows.new parts.new room.new block.new limits.now told.new result ∥₁ }
    ensures refused { (result ≡ answer_number Answer.NotADialect) ⊎ (result ≡ answer_number Answer.TooLong)
        → (block.new ≡ block.old) × (rows.new ≡ rows.old) × (parts.new ≡ parts.old) × (room.new ≡ room.old) × (told.new ≡ 0) }
    ensures not_a_dialect { result ≡ answer_number Answer.NotADialect ↔ IsNoDialect dialect }
    ensures too_long { result ≡ answer_number Answer.TooLong → (2 ^ 32 ≤ length text.now) ⊎ (2 ^ 32 ≤ length rows.new)
        ⊎ (2 ^ 32 ≤ length parts.new) ⊎ (2 ^ 32 ≤ length room.new) }
    ensures memory { result ≢ answer_number Answer.OutOfMemory }
{
    *told = 0;
    if Dialect::numbered(dialect).is_none() {
        return Answer::NotADialect.number();
    }
    if !are_in_32(text, rows, parts, room) {
        return Answer::TooLong.number();
    }
    let source = Source {
        text,
        dialect,
        last,
    };
    let answer = fill_block(source, block, room, rows, parts);
    let filled = &mut rows[..block.rows as usize];
    *told = tell_verdicts(alloc, limits, text, strict_parts(dialect, parts), filled);
    answer
}
