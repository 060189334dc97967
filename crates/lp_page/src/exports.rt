//! The calls of `lp_offsets` for callers in C and over WebAssembly.

ghost use Rattle.std.specs.Prelude.{◌≡◌, ◌≢◌, ◌↔◌, ◌⊎◌, ◌≤◌, ◌<◌, ◌+◌, ◌^◌, ℕ, List, [], length, IsFalse, IsTrue};
ghost use Rattle.std.specs.List.{AllByRecursion, AllZip};
ghost use Rattle.lp_offsets.specs.Cutting.{CutsOn, HasCome, KeepsRules, is_cut_answer};
ghost use Rattle.lp_offsets.specs.Numbers.{IsNoDialect, answer_number, dialect_of};
ghost use Rattle.lp_offsets.specs.OffsetBlocks.{ReadsOffsets};
ghost use Rattle.lp_offsets.specs.RowKeys.{TellsKey, TellsSeries};
ghost use Rattle.lp_offsets.specs.declared.enums.Answer.TheVariants as Answer;
ghost use Rattle.lp_offsets.specs.declared.enums.Answer.TheVariants.{MoreText, OutOfMemory, Piece, TooLong};

use lp_offsets::cuts::{Cuts, begin_cuts, search_next};
use lp_offsets::offsets::{Block, OffsetRow, read_block};
use lp_offsets::pieces::Source;
use lp_offsets::placed::OffsetPart;
use lp_offsets::row_keys::tell_keys;

/// Reads items of a text into rows, as [`read_block`] does.
#[unsafe(no_mangle)]
pub extern "C" fn lp_offsets_block(
    text: &[u8],
    dialect: u32,
    last: bool,
    block: &mut Block,
    room: &mut [u8],
    rows: &mut [OffsetRow],
    parts: &mut [OffsetPart],
) -> u32
    ensures reads { result ≢ answer_number Answer.NotADialect → result ≢ answer_number Answer.TooLong
        → ∥ ReadsOffsets (dialect_of dialect) last text.now block.old rows.new parts.new room.new block.new result ∥₁ }
    ensures refused { (result ≡ answer_number Answer.NotADialect) ⊎ (result ≡ answer_number Answer.TooLong)
        → (block.new ≡ block.old) × (rows.new ≡ rows.old) × (parts.new ≡ parts.old) × (room.new ≡ room.old) }
    ensures not_a_dialect { result ≡ answer_number Answer.NotADialect ↔ IsNoDialect dialect }
    ensures too_long { result ≡ answer_number Answer.TooLong → (2 ^ 32 ≤ length text.now) ⊎ (2 ^ 32 ≤ length rows.new)
        ⊎ (2 ^ 32 ≤ length parts.new) ⊎ (2 ^ 32 ≤ length room.new) }
    ensures memory { result ≢ answer_number Answer.OutOfMemory }
{
    read_block(
        Source {
            text,
            dialect,
            last,
        },
        block,
        room,
        rows,
        parts,
    )
}

/// Tells each row how many bytes at the start of its line are the key of its series, as [`tell_keys`] does.
#[unsafe(no_mangle)]
pub extern "C" fn lp_offsets_keys(text: &[u8], rows: &mut [OffsetRow])
    ensures keys { AllZip (TellsKey text.now) rows.old rows.new }
    ensures series { AllByRecursion (TellsSeries text.now) rows.new }
{
    tell_keys(text, rows)
}

/// Begins a search for the cuts of a text, as [`begin_cuts`] does.
#[unsafe(no_mangle)]
pub extern "C" fn lp_cuts_begin(dialect: u32, limit: usize, cuts: &mut Cuts) -> bool
    ensures begins { IsFalse result ↔ IsNoDialect dialect }
    ensures rules { IsTrue result → (cuts.new.limit ≡ limit) × (cuts.new.dialect ≡ dialect) }
    ensures begun { IsTrue result → HasCome cuts.new [] }
    ensures refused { IsFalse result → cuts.new ≡ cuts.old }
{
    begin_cuts(dialect, limit, cuts)
}

/// Searches the bytes that come after those that were searched, as [`search_next`] does.
#[unsafe(no_mangle)]
pub extern "C" fn lp_cuts_next(cuts: &mut Cuts, text: &[u8], cut: &mut usize) -> u32
    ensures rules { KeepsRules cuts.old cuts.new }
    ensures answers { IsTrue (is_cut_answer result) }
    ensures memory { result ≡ answer_number OutOfMemory ↔ 2 ^ 64 ≤ cuts.old.len + length text.now }
    ensures refused { result ≡ answer_number OutOfMemory → (cuts.new ≡ cuts.old) × (cut.new ≡ cut.old) }
    ensures within { result ≢ answer_number OutOfMemory → cut.new ≤ length text.now }
    ensures piece { result ≡ answer_number Piece → (cut.new < length text.now) × (cuts.old.len + cut.new ≤ cuts.old.limit) }
    ensures more { result ≡ answer_number MoreText → (cut.new ≡ length text.now) × (cuts.old.len + cut.new ≤ cuts.old.limit) }
    ensures long { result ≡ answer_number TooLong → cuts.old.limit < cuts.old.len + cut.new }
    ensures finds { result ≢ answer_number OutOfMemory → (before : List ℕ) → HasCome cuts.old before →
        CutsOn (dialect_of cuts.old.dialect) before text.now cut.new cuts.new }
{
    search_next(cuts, text, cut)
}
