//! What a relay takes of a piece of its input.
ghost use Rattle.std.specs.Prelude.{◌≡◌, ◌≢◌, ◌+◌, ◌<◌, ◌≤◌, ◌++◌, ◌∷◌, [], List, false, true, ℕ, length, option_map, string_bytes, Err, IfOk, Ok, OnOk, Some};
ghost use Rattle.influxdb_line_protocol.specs.code.Rules.{rules_of};
ghost use Rattle.influxdb_line_protocol.specs.format.Dialects.{Dialect as AnyDialect};
ghost use Rattle.influxdb_line_protocol.specs.format.Lines.{answer};
ghost use Rattle.influxdb_line_protocol.specs.format.Bytes.{newline, tab};
ghost use Rattle.influxdb_line_protocol.specs.code.Parsed.{line_read, parsed_point};
ghost use Rattle.influxdb_line_protocol.specs.format.Points.{IsAsWritten};
ghost use Rattle.influxdb_line_protocol.specs.format.Trimming.{trimmed};
ghost use Rattle.lp_conditions.specs.KindCounts.{counts_if, with_fault};
ghost use Rattle.lp_conditions.specs.LineTimes.{relayed, timed, front_of};
ghost use Rattle.lp_conditions.specs.FieldTypes.{Types, types_of};
ghost use Rattle.lp_relay.specs.Taking.{BecomesAt, EndsPiece, HasLine, HasTime, KeepsItem, RefusesPiece, TakesItem, TakesPiece};
ghost use Rattle.lp_faults.specs.Refusals.{GaveSame, IsKnown, IsLineOf, given_of, line_piece, reason_of, refusal_kind};
ghost use Rattle.lp_faults.specs.Relaying.{Item, answered, unchanged_item, allowed, canonical_item, copies, if_portable, is_of_shard, item_line, item_of, keyed_item, kept_of, line_in, line_of};
ghost use Rattle.lp_faults.specs.FaultsTold.{first_line, is_told, line_after, told_at, told_fault};
ghost use Rattle.lp_relay.specs.RelaySteps.{EndsAhead, HoldsLess, TakesAhead, TakesBy, TakesGiven, after_given, items_before, made};
ghost use Rattle.lp_faults.specs.Objects.{len_given, newlines_given};
ghost use Rattle.lp_relay.specs.RelaySteps.{next_place, types_given};
ghost use Rattle.lp_relay.specs.RelaySteps.{unwritten_of, unwritten_of_none};

use influxdb_line_protocol::{
    Dialect, ParsedLine, PieceTooLong, hash_series, is_admitted, is_as_written, laws,
};
use lp_conditions::differing::{differing_part, part_text};
use lp_conditions::field_types::{KnownTypes, StrictTypes};
use lp_conditions::kinds::{Kind, KindCounts};
use lp_conditions::line_ends::ends_at_newline;
use lp_conditions::portable::{Portable, is_shown_portable, told_of_bytes};
use lp_conditions::settings::{LineForm, Numbering, Settings, Shard};
use lp_conditions::times::{TimeChange, Times, change_of, piece_at};
use lp_conditions::verdict::fault_of;
use lp_escapes::forms::Faults;
use lp_faults::editors::tell_for_editors;
use lp_faults::objects::{Telling, tell_as_object};
use lp_faults::pieces::{Piece, bytes_without_return, piece_of, without_return};
use lp_faults::refusals::Refusal;
use lp_faults::telling::{Place, put_fault_line, put_on_one_line};
use lp_rebuild::LineRefusal;
use lp_rebuild::batch::{self, LineReader, copy_line};
use lp_rebuild::program::BLOCK;
use lp_scan::trim::trimmed;
use std::alloc::{AllocError, Global};

/// What was made so far, and what the fault line of the next item names.
#[derive(Drop)]
pub(crate) struct Progress {
    pub(crate) batch: Vec<u8>,
    pub(crate) faults: String,
    pub(crate) carried: usize,
    pub(crate) refused: usize,
    /// The line of the input on which the piece of the next item begins, if fault lines name lines.
    pub(crate) line: Option<usize>,
}

/// What a relay made and has not written yet.
#[derive(Drop)]
pub(crate) struct Pending {
    /// Where memory for what is taken comes from.
    pub(crate) alloc: Global,
    /// The lines and the fault lines, with the counts of all items so far.
    pub(crate) so_far: Progress,
    /// The refused pieces that go out, each with a newline.
    pub(crate) pieces: Vec<u8>,
    /// How many bytes come before the next piece.
    pub(crate) offset: usize,
    /// How many items were refused for each kind of fault, if that is counted.
    pub(crate) kinds: Option<KindCounts>,
    /// Whether the fault of the next piece was told ahead of its end, since it is too long already.
    pub(crate) ahead: bool,
    /// The first types of the fields of the lines that went out, if these stay.
    pub(crate) types: KnownTypes,
}

/// What came of a piece.
#[derive(Drop)]
pub(crate) enum Taken<'a> {
    /// It has no item.
    Blank,
    /// Its line was added to those that go out.
    Carried,
    Refused(Refusal<'a>),
}

// A line of a piece.
#[derive(Clone, Copy)]
struct Line<'a> {
    // The piece, as it came.
    whole: &'a str,
    // Its line, as it goes out, with what comes before the text.
    piece: &'a str,
    // What is left of that once it is trimmed.
    text: &'a str,
}

// How many items are counted before the first item: if fault lines name items, as many as give it its number.
pub(crate) fn items_before(settings: Settings<'_>) -> usize
    ensures { result ≡ items_before settings.entry.numbering settings.entry.first }
{
    match settings.numbering {
        Numbering::Items => settings.first.saturating_sub(1),
        Numbering::Lines => 0,
    }
}

// The line on which the first piece begins, if lines are named.
fn first_line(settings: Settings<'_>) -> Option<usize>
    ensures { result ≡ first_line settings.entry.faults settings.entry.numbering settings.entry.first }
{
    match (settings.faults, settings.numbering) {
        (Faults::Json { first_line, .. } | Faults::Editor { first_line }, _) => {
            Some(first_line.max(1))
        }
        (_, Numbering::Items) => None,
        (_, Numbering::Lines) => Some(settings.first.max(1)),
    }
}

// Before the first item, if these types are known. It takes no memory.
pub(crate) fn nothing_made(alloc: Global, settings: Settings<'_>, types: KnownTypes) -> Pending
    ensures made { unwritten_of result ≡ unwritten_of_none settings.entry (types_of types) }
    ensures fits { result.so_far.carried + result.so_far.refused ≤ usize.MAX }
{
    let so_far = Progress {
        batch: Vec::new(alloc),
        faults: String::new(alloc),
        carried: items_before(settings),
        refused: 0,
        line: first_line(settings),
    };
    let pieces = Vec::new(alloc);
    Pending {
        alloc,
        so_far,
        pieces,
        offset: settings.first_offset,
        kinds: if settings.counts_kinds {
            Some(KindCounts::none())
        } else {
            None
        },
        ahead: false,
        types,
    }
}

// Takes a line that is not as the builder writes it: it is written again, to find the part that is not so, and taken back.
#[inline(always)]
fn take_canonical<'a>(
    batch: &mut Vec<u8>,
    reader: &mut LineReader<'a>,
    piece: &'a str,
    text: &'a str,
) -> Result<Taken<'a>, AllocError>
    requires text { text.now ≡ trimmed piece.now }
    requires unwritten { ¬ (IsAsWritten text.now) }
    ensures taken { IfOk result (λ taken. TakesItem taken
        (item_of (rules_of reader.old.dialect) LineForm.Canonical piece.now (answer (rules_of reader.old.dialect) text.now)) batch.old.items batch.new.items) }
    ensures dialect { reader.new.dialect ≡ reader.old.dialect }
{
    laws::written_lines_stay();
    let start = batch.len();
    if let Some(refusal) = batch::take_text(batch, reader, text)? {
        return Ok(Taken::Refused(Refusal::Line(refusal)));
    }
    let part = differing_part(text, &batch[start..]);
    batch.truncate(start);
    let wrong = part_text(reader.alloc, part)?;
    Ok(Taken::Refused(Refusal::NotAsWritten(wrong)))
}

// Takes a line: it is written again.
#[inline(always)]
fn take_rebuilt<'a>(
    batch: &mut Vec<u8>,
    reader: &mut LineReader<'a>,
    piece: &'a str,
    text: &'a str,
) -> Result<Taken<'a>, AllocError>
    requires { text.now ≡ trimmed piece.now }
    ensures taken { IfOk result (λ taken. TakesItem taken
        (item_of (rules_of reader.old.dialect) LineForm.Rebuilt piece.now (answer (rules_of reader.old.dialect) text.now)) batch.old.items batch.new.items) }
    ensures dialect { reader.new.dialect ≡ reader.old.dialect }
{
    match batch::take_text(batch, reader, text)? {
        None => Ok(Taken::Carried),
        Some(refusal) => Ok(Taken::Refused(Refusal::Line(refusal))),
    }
}

// Takes a line as it came, with what its piece has before it. It is written again if no newline ends its piece.
#[inline(always)]
fn take_verbatim<'a>(
    batch: &mut Vec<u8>,
    reader: &mut LineReader<'a>,
    piece: &'a str,
    text: &'a str,
) -> Result<Taken<'a>, AllocError>
    requires { text.now ≡ trimmed piece.now }
    ensures taken { IfOk result (λ taken. TakesItem taken
        (item_of (rules_of reader.old.dialect) LineForm.Verbatim piece.now (answer (rules_of reader.old.dialect) text.now))
        batch.old.items batch.new.items) }
    ensures dialect { reader.new.dialect ≡ reader.old.dialect }
{
    if !ends_at_newline(reader.dialect, piece.as_bytes()) {
        return take_rebuilt(batch, reader, piece, text);
    }
    match fault_of(reader.dialect, text) {
        None => {
            copy_line(batch, piece.as_bytes())?;
            Ok(Taken::Carried)
        }
        Some(fault) => Ok(Taken::Refused(Refusal::Line(LineRefusal::Fault(fault)))),
    }
}

// Appends a key, a tab, a text and a newline.
fn put_keyed(batch: &mut Vec<u8>, key: &str, text: &str) -> Result<(), AllocError>
    ensures { OnOk result (batch.new.items ≡ batch.old.items ++ (key.now ++ tab ∷ (text.now ++ newline ∷ []))) }
{
    batch.extend_from_slice(key.as_bytes())?;
    batch.push(b'\t')?;
    copy_line(batch, text.as_bytes())
}

// Takes a line that was read: it goes out after the key of its series.
#[inline(always)]
fn put_by_key<'a>(
    alloc: Global,
    batch: &mut Vec<u8>,
    line: &ParsedLine<'_>,
    piece: &str,
    text: &str,
) -> Result<Taken<'a>, AllocError>
    requires { text.now ≡ trimmed piece.now }
    ensures { IfOk result (λ taken. TakesItem taken (keyed_item (front_of piece.now) (trimmed piece.now) (line_read line.now)) batch.old.items batch.new.items) }
{
    if !is_admitted(line) {
        return Ok(Taken::Refused(Refusal::Line(LineRefusal::NotAdmitted)));
    }
    let key = line.series.key(alloc)?;
    put_keyed(batch, key.as_str(), text)?;
    Ok(Taken::Carried)
}

// Takes a line: it goes out after the key of its series.
#[inline(never)]
fn take_keyed<'a>(
    batch: &mut Vec<u8>,
    reader: &mut LineReader<'a>,
    piece: &'a str,
    text: &'a str,
) -> Result<Taken<'a>, AllocError>
    requires { text.now ≡ trimmed piece.now }
    ensures taken { IfOk result (λ taken. TakesItem taken
        (item_of (rules_of reader.old.dialect) LineForm.Keyed piece.now (answer (rules_of reader.old.dialect) text.now)) batch.old.items batch.new.items) }
    ensures dialect { reader.new.dialect ≡ reader.old.dialect }
{
    if let Some(fault) = reader.read(text)? {
        return Ok(Taken::Refused(Refusal::Line(LineRefusal::Fault(fault))));
    }
    put_by_key(reader.alloc, batch, reader.line(), piece, text)
}

// Whether a series is of a shard.
fn is_of_shard(alloc: Global, shard: Shard, line: &ParsedLine<'_>) -> Result<bool, AllocError>
    ensures { IfOk result (λ is. is ≡ is_of_shard shard (parsed_point line.now)) }
{
    let hash = hash_series(alloc, &line.series)?;
    Ok(hash % shard.count.max(1) == shard.number)
}

// Takes a line that was read: it goes out as it came, or is written again if no newline ends its piece.
fn put_unchanged<'a>(
    alloc: Global,
    dialect: Dialect,
    batch: &mut Vec<u8>,
    line: &ParsedLine<'_>,
    piece: &str,
) -> Result<Taken<'a>, AllocError>
    requires { 0 < length line.now.field_set.items }
    ensures { IfOk result (λ taken. TakesItem taken (unchanged_item (rules_of dialect) piece.now (line_read line.now)) batch.old.items batch.new.items) }
{
    if !ends_at_newline(dialect, piece.as_bytes()) {
        return put_rebuilt(alloc, batch, line, piece);
    }
    copy_line(batch, piece.as_bytes())?;
    Ok(Taken::Carried)
}

// Takes a line that was read: it goes out if it is of a shard.
fn put_if_of_shard<'a>(
    alloc: Global,
    dialect: Dialect,
    shard: Shard,
    batch: &mut Vec<u8>,
    line: &ParsedLine<'_>,
    piece: &str,
) -> Result<Taken<'a>, AllocError>
    requires { 0 < length line.now.field_set.items }
    ensures { IfOk result (λ taken.
        TakesItem taken (item_of (rules_of dialect) (LineForm.OfShard shard) piece.now (Ok (line_read line.now))) batch.old.items batch.new.items) }
{
    if !is_of_shard(alloc, shard, line)? {
        return Ok(Taken::Carried);
    }
    put_unchanged(alloc, dialect, batch, line, piece)
}

// Takes a line: it goes out as it came if it is of a shard.
#[inline(never)]
fn take_of_shard<'a>(
    shard: Shard,
    batch: &mut Vec<u8>,
    reader: &mut LineReader<'a>,
    piece: &'a str,
    text: &'a str,
) -> Result<Taken<'a>, AllocError>
    ensures taken { IfOk result (λ taken. TakesItem taken
        (item_of (rules_of reader.old.dialect) (LineForm.OfShard shard) piece.now (answer (rules_of reader.old.dialect) text.now))
        batch.old.items batch.new.items) }
    ensures dialect { reader.new.dialect ≡ reader.old.dialect }
{
    laws::lines_are_points();
    if let Some(fault) = reader.read(text)? {
        return Ok(Taken::Refused(Refusal::Line(LineRefusal::Fault(fault))));
    }
    let (alloc, dialect) = (reader.alloc, reader.dialect);
    put_if_of_shard(alloc, dialect, shard, batch, reader.line(), piece)
}

// Takes a line that is not copied: it goes out by the settings, or is refused.
#[inline(always)]
fn put_uncopied<'a>(
    lines: LineForm,
    batch: &mut Vec<u8>,
    reader: &mut LineReader<'a>,
    piece: &'a str,
    text: &'a str,
) -> Result<Taken<'a>, AllocError>
    requires text { text.now ≡ trimmed piece.now }
    requires unwritten { lines ≡ LineForm.Canonical → ¬ (IsAsWritten text.now) }
    ensures taken { IfOk result (λ taken. TakesItem taken
        (item_of (rules_of reader.old.dialect) lines piece.now (answer (rules_of reader.old.dialect) text.now)) batch.old.items batch.new.items) }
    ensures dialect { reader.new.dialect ≡ reader.old.dialect }
{
    match lines {
        LineForm::Rebuilt => take_rebuilt(batch, reader, piece, text),
        LineForm::Verbatim => take_verbatim(batch, reader, piece, text),
        LineForm::Canonical => take_canonical(batch, reader, piece, text),
        LineForm::Keyed => take_keyed(batch, reader, piece, text),
        LineForm::OfShard(shard) => take_of_shard(shard, batch, reader, piece, text),
    }
}

// Takes a line that was read: it is written again.
fn put_rebuilt<'a>(
    alloc: Global,
    batch: &mut Vec<u8>,
    line: &ParsedLine<'_>,
    piece: &str,
) -> Result<Taken<'a>, AllocError>
    requires { 0 < length line.now.field_set.items }
    ensures { IfOk result (λ taken. TakesItem taken (answered (front_of piece.now) (Ok (line_read line.now))) batch.old.items batch.new.items) }
{
    match batch::take_line(alloc, batch, line)? {
        None => Ok(Taken::Carried),
        Some(refusal) => Ok(Taken::Refused(Refusal::Line(refusal))),
    }
}

// The line in what goes out for a piece that is left so if it is trimmed: without its newline, and without the key before it.
fn line_in<'a>(lines: LineForm, text: &'a str, out: &'a [u8]) -> &'a [u8]
    ensures { (piece : List ℕ) → text.now ≡ trimmed piece → result.now ≡ line_in lines piece out.now }
{
    match lines {
        LineForm::Keyed => text.as_bytes(),
        _ => &out[..out.len().saturating_sub(1)],
    }
}

// Looks at a line that was added, which begins at this place of the batch: if it is not portable, it is taken back, and refused.
fn allow_added<'a>(
    alloc: Global,
    lines: LineForm,
    portable: &Portable,
    batch: &mut Vec<u8>,
    at: usize,
    text: &str,
) -> Result<Taken<'a>, AllocError>
    requires { at < length batch.old.items }
    ensures { IfOk result (λ after. (item : Item) (before piece : List ℕ) → at ≡ length before → text.now ≡ trimmed piece
        → TakesItem Taken.Carried item before batch.old.items
        → TakesItem after (if_portable portable.now (front_of piece) (line_in lines piece (item_line item)) item) before batch.new.items) }
{
    let told = told_of_bytes(alloc, portable, line_in(lines, text, &batch[at..]))?;
    if is_shown_portable(told) {
        return Ok(Taken::Carried);
    }
    batch.truncate(at);
    Ok(Taken::Refused(Refusal::NotPortable(portable.to, told)))
}

// Takes a line back that was added, if the settings ask for portable lines and it is none. What came of the line begins at this place of
// the batch.
#[inline(always)]
fn allow<'a>(
    alloc: Global,
    settings: &Settings<'_>,
    batch: &mut Vec<u8>,
    at: usize,
    text: &str,
    taken: Taken<'a>,
) -> Result<Taken<'a>, AllocError>
    ensures { IfOk result (λ after. (item : Item) (before piece : List ℕ) → at ≡ length before → text.now ≡ trimmed piece
        → TakesItem taken.entry item before batch.old.items
        → TakesItem after (allowed settings.now.portable settings.now.lines piece item) before batch.new.items) }
{
    let Some(portable) = settings.portable else {
        return Ok(taken);
    };
    let Taken::Carried = taken else {
        return Ok(taken);
    };
    if batch.len() <= at {
        return Ok(taken);
    }
    allow_added(alloc, settings.lines, &portable, batch, at, text)
}

// Keeps the types of the fields of a line that was read and added, which begins at this place of the batch. If one is of another type than
// before, or is one too many, the line is taken back, and refused.
fn keep_read<'a>(
    alloc: Global,
    strict: StrictTypes,
    types: &mut KnownTypes,
    batch: &mut Vec<u8>,
    line: &ParsedLine<'_>,
    begin: usize,
) -> Result<Taken<'a>, AllocError>
    requires { begin < length batch.old.items }
    ensures { IfOk result (λ after. KeepsItem (Some strict) (Ok (line_read line.now)) begin
        Taken.Carried batch.old.items (types_of types.old) after batch.new.items (types_of types.new)) }
{
    let Some(fault) = types.keep(alloc, strict.max_fields, line)? else {
        return Ok(Taken::Carried);
    };
    batch.truncate(begin);
    Ok(Taken::Refused(Refusal::NotOfType(fault)))
}

// The same of a line that was added, and is read for that.
#[inline(never)]
fn keep_added<'a>(
    strict: StrictTypes,
    types: &mut KnownTypes,
    batch: &mut Vec<u8>,
    reader: &mut LineReader<'a>,
    begin: usize,
    text: &'a str,
) -> Result<Taken<'a>, AllocError>
    requires { begin < length batch.old.items }
    ensures kept { IfOk result (λ after. KeepsItem (Some strict) (answer (rules_of reader.old.dialect) text.now) begin
        Taken.Carried batch.old.items (types_of types.old) after batch.new.items (types_of types.new)) }
    ensures dialect { reader.new.dialect ≡ reader.old.dialect }
{
    if let Some(_) = reader.read(text)? {
        return Ok(Taken::Carried);
    }
    keep_read(reader.alloc, strict, types, batch, reader.line(), begin)
}

// Keeps the types of the fields of a line, if these are to stay and something was added for it. What came of the line begins at this place
// of the batch.
#[inline(always)]
fn keep<'a>(
    settings: &Settings<'_>,
    types: &mut KnownTypes,
    batch: &mut Vec<u8>,
    reader: &mut LineReader<'a>,
    begin: usize,
    text: &'a str,
    taken: Taken<'a>,
) -> Result<Taken<'a>, AllocError>
    ensures kept { IfOk result (λ after. KeepsItem settings.now.types (answer (rules_of reader.old.dialect) text.now) begin
        taken.entry batch.old.items (types_of types.old) after batch.new.items (types_of types.new)) }
    ensures dialect { reader.new.dialect ≡ reader.old.dialect }
{
    let Some(strict) = settings.types else {
        return Ok(taken);
    };
    let Taken::Carried = taken else {
        return Ok(taken);
    };
    if batch.len() <= begin {
        return Ok(taken);
    }
    keep_added(strict, types, batch, reader, begin, text)
}

// How many bytes are kept of a piece that is too long, if any are.
fn kept_of(settings: &Settings<'_>) -> Option<usize>
    ensures { result ≡ kept_of settings.now }
{
    if settings.puts_refused {
        Some(settings.limit)
    } else {
        None
    }
}

// Refuses an item more if no `usize` holds its number.
#[inline(always)]
fn check_number(so_far: &Progress) -> Result<(), AllocError>
    requires { so_far.now.carried + so_far.now.refused ≤ usize.MAX }
    ensures { OnOk result (so_far.now.carried + so_far.now.refused < usize.MAX) }
{
    if so_far.carried + so_far.refused == usize::MAX {
        return Err(AllocError);
    }
    Ok(())
}

// The line of the piece after this one, which begins on a line, if fault lines name lines. It is refused if it would not fit.
#[inline(always)]
fn line_after(line: Option<usize>, piece: Piece<'_>) -> Result<Option<usize>, AllocError>
    ensures { IfOk result (λ next. next ≡ line_after line (newlines_given (given_of piece.entry))) }
{
    let Some(line) = line else {
        return Ok(None);
    };
    let end = line.checked_add(piece.newlines()).ok_or(AllocError)?;
    Ok(Some(end.checked_add(1).ok_or(AllocError)?))
}

// How many bytes come before the piece after this one, which comes after so many. They are refused if that would not fit.
#[inline(always)]
fn offset_after(offset: usize, piece: Piece<'_>) -> Result<usize, AllocError>
    ensures { IfOk result (λ next. next ≡ offset + len_given (given_of piece.entry) + 1) }
{
    let newline_at = offset.checked_add(piece.len()).ok_or(AllocError)?;
    newline_at.checked_add(1).ok_or(AllocError)
}

// Counts a fault of this kind, if kinds are counted.
fn count(kinds: &mut Option<KindCounts>, kind: Kind) -> Result<(), AllocError>
    ensures { OnOk result (counts_if kinds.new ≡ option_map (with_fault kind) (counts_if kinds.old)) }
{
    match kinds {
        Some(counts) => counts.count(kind),
        None => Ok(()),
    }
}

// The line of a piece that is text.
#[inline(always)]
fn line_of<'a>(settings: &Settings<'_>, piece: &'a str) -> &'a str
    ensures { result.now ≡ line_of settings.now piece.now }
{
    if settings.drops_returns {
        without_return(piece)
    } else {
        piece
    }
}

// The line of a piece that is no text.
fn line_of_bytes<'a>(settings: &Settings<'_>, piece: &'a [u8]) -> &'a [u8]
    ensures { result.now ≡ line_of settings.now piece.now }
{
    if !settings.drops_returns {
        return piece;
    }
    bytes_without_return(piece)
}

// The line of a piece, if that is not too long.
fn line_piece<'a>(settings: &Settings<'_>, piece: Piece<'a>) -> Piece<'a>
    ensures { IsLineOf settings.now piece.entry result }
{
    match piece {
        Piece::Text(text) => Piece::Text(line_of(settings, text)),
        Piece::NoText(bytes) => Piece::NoText(line_of_bytes(settings, bytes)),
        Piece::TooLong(fault) => Piece::TooLong(fault),
    }
}

// Tells why an item is refused, as the settings say.
fn tell(
    settings: &Settings<'_>,
    faults: &mut String,
    place: Place<'_>,
    refusal: &Refusal<'_>,
    piece: Piece<'_>,
) -> Result<(), AllocError>
    ensures { OnOk result (string_bytes faults.new ≡ string_bytes faults.old
        ++ told_fault settings.now.faults place.entry
        (reason_of (rules_of settings.now.dialect) settings.now.limit piece.entry (line_piece settings.now piece.entry) refusal.now)) }
{
    match settings.faults {
        Faults::Raw => put_fault_line(faults, place, refusal),
        Faults::OneLine => put_on_one_line(faults, place, refusal),
        Faults::Json { has_piece, .. } => {
            let telling = Telling {
                dialect: settings.dialect,
                limit: settings.limit,
                has_piece,
            };
            let line = line_piece(settings, piece);
            tell_as_object(faults, telling, place, refusal, piece, line)
        }
        Faults::Editor { .. } => {
            let telling = Telling {
                dialect: settings.dialect,
                limit: settings.limit,
                has_piece: false,
            };
            let line = line_piece(settings, piece);
            tell_for_editors(faults, telling, place, refusal, line)
        }
    }
}

// Whether a fault is told before which so many items were refused, if so many faults are told at most.
fn is_told(most: Option<usize>, refused: usize) -> bool
    ensures { result ≡ is_told most refused }
{
    match most {
        Some(most) => refused < most,
        None => true,
    }
}

// Tells why an item is refused, unless as many faults were told as may be.
fn tell_at(
    settings: &Settings<'_>,
    faults: &mut String,
    place: Place<'_>,
    refusal: &Refusal<'_>,
    piece: Piece<'_>,
) -> Result<(), AllocError>
    ensures { OnOk result (string_bytes faults.new ≡ string_bytes faults.old
        ++ told_at settings.now place.entry
        (reason_of (rules_of settings.now.dialect) settings.now.limit piece.entry (line_piece settings.now piece.entry) refusal.now)) }
{
    if !is_told(settings.max_faults, place.refused) {
        return Ok(());
    }
    tell(settings, faults, place, refusal, piece)
}

// Refuses the item of a piece: the kind of its fault is counted, it is told, and the piece, or its first bytes if it is too long, goes
// out, if refused pieces do.
#[cold]
#[inline(never)]
fn refuse(
    settings: &Settings<'_>,
    pending: &mut Pending,
    refusal: &Refusal<'_>,
    piece: Piece<'_>,
) -> Result<(), AllocError>
    requires { pending.old.so_far.carried + pending.old.so_far.refused < usize.MAX }
    ensures taken { OnOk result ((item : Item) (types : Types) → RefusesPiece settings.now types piece.entry refusal.now item
        → types_of pending.old.types ≡ types_given settings.now types (given_of piece.entry)
        → TakesGiven settings.now (record (unwritten_of pending.old) { types = types }) (given_of piece.entry) (unwritten_of pending.new)) }
    ensures counted { OnOk result
        ((pending.new.so_far.carried ≡ pending.old.so_far.carried) × (pending.new.so_far.refused ≡ pending.old.so_far.refused + 1)) }
    ensures place { (pending.new.so_far.line ≡ pending.old.so_far.line) × (pending.new.offset ≡ pending.old.offset) }
{
    let refused = pending.so_far.refused;
    pending.so_far.refused += 1;
    count(&mut pending.kinds, refusal.kind())?;
    let place = Place {
        file: settings.file,
        number: pending.so_far.carried + pending.so_far.refused,
        refused,
        line: pending.so_far.line,
        offset: pending.offset,
    };
    tell_at(settings, &mut pending.so_far.faults, place, refusal, piece)?;
    if !settings.puts_refused {
        return Ok(());
    }
    copy_line(&mut pending.pieces, piece.bytes())
}

// Ends a piece: what came of it is counted, or refused.
#[inline(always)]
fn end_piece(
    settings: &Settings<'_>,
    pending: &mut Pending,
    taken: Taken<'_>,
    piece: Piece<'_>,
) -> Result<(), AllocError>
    requires { pending.old.so_far.carried + pending.old.so_far.refused < usize.MAX }
    ensures ends { OnOk result (EndsPiece settings.now piece.entry taken.entry (unwritten_of pending.old) (unwritten_of pending.new)) }
    ensures counted { OnOk result (pending.new.so_far.carried + pending.new.so_far.refused ≤ usize.MAX) }
{
    match taken {
        Taken::Blank => Ok(()),
        Taken::Carried => {
            pending.so_far.carried += 1;
            Ok(())
        }
        Taken::Refused(refusal) => refuse(settings, pending, &refusal, piece),
    }
}

// Whether a line is copied if it is as the builder writes it. One that goes out as it came is read alone, since that takes no longer.
#[inline(always)]
fn copies(lines: LineForm) -> bool
    ensures { result ≡ copies lines }
{
    matches!(lines, LineForm::Rebuilt | LineForm::Canonical)
}

// Takes a line: it is copied if it is as the builder writes it, or else goes out by the settings, or is refused.
#[inline(always)]
fn put_line<'a>(
    lines: LineForm,
    batch: &mut Vec<u8>,
    reader: &mut LineReader<'a>,
    piece: &'a str,
    text: &'a str,
) -> Result<Taken<'a>, AllocError>
    requires text { text.now ≡ trimmed piece.now }
    ensures taken { IfOk result (λ taken. TakesItem taken
        (item_of (rules_of reader.old.dialect) lines piece.now (answer (rules_of reader.old.dialect) text.now)) batch.old.items batch.new.items) }
    ensures dialect { reader.new.dialect ≡ reader.old.dialect }
{
    laws::written_lines_stay();
    if copies(lines) && is_as_written(text) {
        copy_line(batch, text.as_bytes())?;
        return Ok(Taken::Carried);
    }
    put_uncopied(lines, batch, reader, piece, text)
}

// Adds the line of a piece, which has its time, to what goes out, allows it, keeps its types, and ends the piece.
#[inline(never)]
fn take_line<'a>(
    settings: &Settings<'_>,
    pending: &mut Pending,
    reader: &mut LineReader<'a>,
    line: Line<'a>,
) -> Result<(), AllocError>
    requires dialect { reader.old.dialect ≡ settings.now.dialect }
    requires text { line.text.now ≡ trimmed line.piece.now }
    requires timed { HasTime settings.now line.whole.now line.piece.now (answer (rules_of settings.now.dialect) line.text.now) }
    requires fits { pending.old.so_far.carried + pending.old.so_far.refused < usize.MAX }
    ensures taken { OnOk result (TakesGiven settings.now (unwritten_of pending.old) (Ok line.entry.whole) (unwritten_of pending.new)) }
    ensures counted { OnOk result (pending.new.so_far.carried + pending.new.so_far.refused ≤ usize.MAX) }
    ensures dialect { reader.new.dialect ≡ reader.old.dialect }
{
    let (alloc, text) = (pending.alloc, line.text);
    let batch = &mut pending.so_far.batch;
    let start = batch.len();
    let added = put_line(settings.lines, batch, reader, line.piece, text)?;
    let allowed = allow(alloc, settings, batch, start, text, added)?;
    let types = &mut pending.types;
    let taken = keep(settings, types, batch, reader, start, text, allowed)?;
    end_piece(settings, pending, taken, Piece::Text(line.whole))
}

// Takes the line of a piece that came with this time, if any, with another time: a copy of it that has this time.
fn take_at(
    settings: &Settings<'_>,
    pending: &mut Pending,
    line: Line<'_>,
    came: Option<i64>,
    time: i64,
) -> Result<(), AllocError>
    requires line { HasLine settings.now line.whole.now line.piece.now line.text.now }
    requires becomes { BecomesAt settings.now line.text.now came time }
    requires fits { pending.old.so_far.carried + pending.old.so_far.refused < usize.MAX }
    ensures taken { OnOk result (TakesGiven settings.now (unwritten_of pending.old) (Ok line.entry.whole) (unwritten_of pending.new)) }
    ensures counted { OnOk result (pending.new.so_far.carried + pending.new.so_far.refused ≤ usize.MAX) }
{
    let copy = piece_at(pending.alloc, line.piece, line.text, came, time)?;
    let piece = copy.as_str();
    let text = trimmed(piece);
    let mut reader = LineReader::new(pending.alloc, settings.dialect);
    let whole = line.whole;
    let taken = take_line(settings, pending, &mut reader, Line { whole, piece, text });
    reader.free();
    taken
}

// Takes the line of a piece if the times of lines are looked at. It is read first, and if its time changes, it is that of a copy.
#[inline(never)]
fn take_timed<'a>(
    times: &Times,
    settings: &Settings<'_>,
    pending: &mut Pending,
    reader: &mut LineReader<'a>,
    line: Line<'a>,
) -> Result<(), AllocError>
    requires times { settings.now.times ≡ Some times.now }
    requires dialect { reader.old.dialect ≡ settings.now.dialect }
    requires line { HasLine settings.now line.whole.now line.piece.now line.text.now }
    requires fits { pending.old.so_far.carried + pending.old.so_far.refused < usize.MAX }
    ensures taken { OnOk result (TakesGiven settings.now (unwritten_of pending.old) (Ok line.entry.whole) (unwritten_of pending.new)) }
    ensures counted { OnOk result (pending.new.so_far.carried + pending.new.so_far.refused ≤ usize.MAX) }
    ensures dialect { reader.new.dialect ≡ reader.old.dialect }
{
    if let Some(_) = reader.read(line.text)? {
        return take_line(settings, pending, reader, line);
    }
    let came = reader.line().timestamp;
    match change_of(times, came) {
        TimeChange::Stays => take_line(settings, pending, reader, line),
        TimeChange::Becomes(time) => take_at(settings, pending, line, came, time),
        TimeChange::Wrong(fault) => {
            let refusal = Refusal::NotOfTime(fault);
            let whole = Piece::Text(line.whole);
            end_piece(settings, pending, Taken::Refused(refusal), whole)
        }
    }
}

// Takes a piece that is text. It is called for each line, so that the test whether a line is as written is compiled once.
#[inline(never)]
fn take_text<'a>(
    settings: &Settings<'_>,
    pending: &mut Pending,
    reader: &mut LineReader<'a>,
    whole: &'a str,
) -> Result<(), AllocError>
    requires dialect { reader.old.dialect ≡ settings.now.dialect }
    requires fits { pending.old.so_far.carried + pending.old.so_far.refused < usize.MAX }
    ensures taken { OnOk result (TakesGiven settings.now (unwritten_of pending.old) (Ok whole.entry) (unwritten_of pending.new)) }
    ensures counted { OnOk result (pending.new.so_far.carried + pending.new.so_far.refused ≤ usize.MAX) }
    ensures dialect { reader.new.dialect ≡ reader.old.dialect }
{
    let piece = line_of(settings, whole);
    let text = trimmed(piece);
    if text.is_empty() {
        return end_piece(settings, pending, Taken::Blank, Piece::Text(whole));
    }
    let line = Line { whole, piece, text };
    match &settings.times {
        Some(times) => take_timed(times, settings, pending, reader, line),
        None => take_line(settings, pending, reader, line),
    }
}

// Takes the item of a piece.
#[inline(always)]
fn take_item<'a>(
    settings: &Settings<'_>,
    pending: &mut Pending,
    reader: &mut LineReader<'a>,
    piece: Piece<'a>,
) -> Result<(), AllocError>
    requires dialect { reader.old.dialect ≡ settings.now.dialect }
    requires known { IsKnown piece }
    requires fits { pending.old.so_far.carried + pending.old.so_far.refused < usize.MAX }
    ensures taken { OnOk result (TakesGiven settings.now (unwritten_of pending.old) (given_of piece.entry) (unwritten_of pending.new)) }
    ensures counted { OnOk result (pending.new.so_far.carried + pending.new.so_far.refused ≤ usize.MAX) }
    ensures dialect { reader.new.dialect ≡ reader.old.dialect }
{
    match piece {
        Piece::Text(text) => take_text(settings, pending, reader, text),
        Piece::NoText(_) => refuse(settings, pending, &Refusal::NotUtf8, piece),
        Piece::TooLong(_) => {
            let refusal = Refusal::TooLong(kept_of(settings));
            refuse(settings, pending, &refusal, piece)
        }
    }
}

// Takes a piece, by way of a line that is used again. It is refused if its number, or the line after it, would not fit.
#[inline(always)]
pub(crate) fn take_piece<'a>(
    settings: &Settings<'_>,
    pending: &mut Pending,
    reader: &mut LineReader<'a>,
    piece: Piece<'a>,
) -> Result<(), AllocError>
    requires dialect { reader.old.dialect ≡ settings.now.dialect }
    requires known { IsKnown piece }
    requires fits { pending.old.so_far.carried + pending.old.so_far.refused ≤ usize.MAX }
    requires few { HoldsLess BLOCK pending.old }
    ensures taken { OnOk result (TakesGiven settings.now (unwritten_of pending.old) (given_of piece.entry) (unwritten_of pending.new)) }
    ensures start { OnOk result (next_place settings.now (unwritten_of pending.new)
        ≡ after_given settings.now (types_of pending.old.types) (next_place settings.now (unwritten_of pending.old)) (given_of piece.entry)) }
    ensures fits { OnOk result (pending.new.so_far.carried + pending.new.so_far.refused ≤ usize.MAX) }
    ensures dialect { reader.new.dialect ≡ reader.old.dialect }
{
    check_number(&pending.so_far)?;
    let next = line_after(pending.so_far.line, piece)?;
    let end = offset_after(pending.offset, piece)?;
    take_item(settings, pending, reader, piece)?;
    pending.so_far.line = next;
    pending.offset = end;
    Ok(())
}

// Takes what came of a piece that is too long, ahead of its end: its item is refused.
pub(crate) fn take_ahead(
    settings: &Settings<'_>,
    pending: &mut Pending,
    fault: PieceTooLong<'_>,
) -> Result<(), AllocError>
    requires fits { pending.old.so_far.carried + pending.old.so_far.refused ≤ usize.MAX }
    ensures taken { OnOk result (TakesAhead settings.now (unwritten_of pending.old) (Err fault.entry) (unwritten_of pending.new)) }
    ensures fits { OnOk result (pending.new.so_far.carried + pending.new.so_far.refused ≤ usize.MAX) }
{
    check_number(&pending.so_far)?;
    let refusal = Refusal::TooLong(kept_of(settings));
    refuse(settings, pending, &refusal, Piece::TooLong(fault))?;
    pending.ahead = true;
    Ok(())
}

// Ends a piece that was taken ahead: the next place comes after it.
fn end_ahead(pending: &mut Pending, piece: Piece<'_>) -> Result<(), AllocError>
    ensures { OnOk result (EndsAhead (unwritten_of pending.old) (given_of piece.entry) (unwritten_of pending.new)) }
{
    pending.so_far.line = line_after(pending.so_far.line, piece)?;
    pending.offset = offset_after(pending.offset, piece)?;
    pending.ahead = false;
    Ok(())
}

// Takes what the stream gave, by way of a line of its own, which is freed by its parts; or ends what was taken ahead.
#[inline(never)]
pub(crate) fn take_given(
    settings: &Settings<'_>,
    pending: &mut Pending,
    given: Result<&[u8], PieceTooLong<'_>>,
) -> Result<(), AllocError>
    requires fits { pending.old.so_far.carried + pending.old.so_far.refused ≤ usize.MAX }
    requires few { HoldsLess BLOCK pending.old }
    ensures taken { OnOk result
        (TakesBy pending.old.ahead settings.now (unwritten_of pending.old) given.entry (unwritten_of pending.new)) }
    ensures fits { OnOk result (pending.new.so_far.carried + pending.new.so_far.refused ≤ usize.MAX) }
{
    let piece = piece_of(given);
    if pending.ahead {
        return end_ahead(pending, piece);
    }
    let mut reader = LineReader::new(pending.alloc, settings.dialect);
    let taken = take_piece(settings, pending, &mut reader, piece);
    reader.free();
    taken
}
