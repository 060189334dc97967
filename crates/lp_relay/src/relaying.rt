//! From a reader to three writers, line by line as they come.
ghost use Rattle.std.specs.Prelude.{◌≡◌, ◌≢◌, ◌+◌, ◌-◌, ◌<◌, ◌≤◌, ◌++◌, ◌∷◌, [], length, take, true, false, IfOk, IfSome, OnOk};
ghost use Rattle.std.specs.List.{All};
ghost use Rattle.influxdb_line_protocol.specs.format.Bytes.{newline};
ghost use Rattle.influxdb_line_protocol.specs.code.Bounded.{most_given};
ghost use Rattle.lp_relay.specs.RelaySteps.{HoldsLess, HoldsNone, IsReady, IsToldAhead, RelaysAhead, RelaysFirst, RelaysLast, RelaysLines};
ghost use Rattle.lp_relay.specs.RelaySteps.{RelaysPart, Writes, counted, items_before, stage_of, unwritten_of};
ghost use Rattle.lp_conditions.specs.FieldTypes.{no_types, types_of};
ghost use Rattle.lp_relay.specs.Relays.{Relays, TypesAfter};
ghost use Rattle.lp_relay.specs.Writers.{AreFlushed, CountsWriteFault};
ghost use Rattle.lp_rebuild.specs.Running.{reader_told};

use crate::outputs::ThreeWriters;
use crate::taking::{Pending, items_before, nothing_made, take_ahead, take_given, take_piece};
use influxdb_line_protocol::{BoundedLineStream, laws, split_lines_in};
use lp_conditions::field_types::KnownTypes;
use lp_conditions::kinds::{KindCounts, Relayed};
use lp_conditions::settings::Settings;
use lp_escapes::texts::text_of;
use lp_faults::pieces::Piece;
use lp_rebuild::batch::LineReader;
use lp_rebuild::program::{BLOCK, read_block};
use lp_rebuild::{RunFault, Source};
use memchr::{memchr, memrchr};
use std::alloc::{AllocError, Global};
use std::mem;

// Writes all that is held.
fn pour<O: ThreeWriters>(pending: &mut Pending, outputs: &mut O) -> Result<(), RunFault>
    ensures writes { Writes result (stage_of pending.old (O.told outputs.old)) (stage_of pending.new (O.told outputs.new)) }
    ensures none { OnOk result (HoldsNone pending.new) }
    ensures counts { CountsWriteFault result (O.told outputs.old) (O.told outputs.new) }
    ensures same { counted pending.new ≡ counted pending.old }
    ensures ahead { pending.new.ahead ≡ pending.old.ahead }
{
    let so_far = &pending.so_far;
    outputs.put(
        so_far.batch.as_slice(),
        so_far.faults.as_bytes(),
        pending.pieces.as_slice(),
    )?;
    pending.so_far.batch.clear();
    pending.so_far.faults.clear();
    pending.pieces.clear();
    Ok(())
}

// Writes all that is held, if it fills a block.
fn pour_full<O: ThreeWriters>(pending: &mut Pending, outputs: &mut O) -> Result<(), RunFault>
    ensures writes { Writes result (stage_of pending.old (O.told outputs.old)) (stage_of pending.new (O.told outputs.new)) }
    ensures held { OnOk result (HoldsLess BLOCK pending.new) }
    ensures counts { CountsWriteFault result (O.told outputs.old) (O.told outputs.new) }
    ensures same { counted pending.new ≡ counted pending.old }
    ensures ahead { pending.new.ahead ≡ pending.old.ahead }
{
    if pending.so_far.batch.len() < BLOCK
        && pending.so_far.faults.len() < BLOCK
        && pending.pieces.len() < BLOCK
    {
        return Ok(());
    }
    pour(pending, outputs)
}

// Writes all that is held, and flushes.
pub(crate) fn pour_and_flush<O: ThreeWriters>(
    pending: &mut Pending,
    outputs: &mut O,
) -> Result<(), RunFault>
    ensures writes { Writes result (stage_of pending.old (O.told outputs.old)) (stage_of pending.new (O.told outputs.new)) }
    ensures none { OnOk result (HoldsNone pending.new) }
    ensures counts { CountsWriteFault result (O.told outputs.old) (O.told outputs.new) }
    ensures same { counted pending.new ≡ counted pending.old }
    ensures ahead { pending.new.ahead ≡ pending.old.ahead }
    ensures flushed { OnOk result (AreFlushed (O.told outputs.new)) }
{
    pour(pending, outputs)?;
    outputs.flush()
}

// Takes the next piece, and tells whether the stream could give one.
fn relay_piece<O: ThreeWriters>(
    settings: Settings<'_>,
    stream: &mut BoundedLineStream,
    pending: &mut Pending,
    outputs: &mut O,
) -> Result<bool, RunFault>
    requires ready { IsReady settings stream.old pending.old }
    ensures ready { OnOk result (IsReady settings.entry stream.new pending.new) }
    ensures fewer { IfOk result (λ some. some ≡ true → most_given stream.new < most_given stream.old) }
    ensures relays { RelaysFirst settings.entry result stream.old stream.new
        (stage_of pending.old (O.told outputs.old)) (stage_of pending.new (O.told outputs.new)) }
    ensures unahead { OnOk result (pending.old.ahead ≡ false → pending.new.ahead ≡ false) }
    ensures counts { CountsWriteFault result (O.told outputs.old) (O.told outputs.new) }
{
    laws::pieces_join();
    let Some(piece) = stream.next() else {
        return Ok(false);
    };
    if take_given(&settings, pending, piece).is_err() {
        return Err(RunFault::OutOfMemory);
    }
    pour_full(pending, outputs)?;
    Ok(true)
}

// Gives the stream a part, and takes each piece that it can give then.
fn relay_pieces<O: ThreeWriters>(
    settings: Settings<'_>,
    stream: &mut BoundedLineStream,
    pending: &mut Pending,
    part: &[u8],
    outputs: &mut O,
) -> Result<(), RunFault>
    requires ready { IsReady settings stream.old pending.old }
    ensures ready { OnOk result (IsReady settings.entry stream.new pending.new) }
    ensures relays { RelaysPart settings.entry part.now result (λ _. part.now) stream.old stream.new
        (stage_of pending.old (O.told outputs.old)) (stage_of pending.new (O.told outputs.new)) }
    ensures unahead { OnOk result (pending.old.ahead ≡ false → pending.new.ahead ≡ false) }
    ensures counts { CountsWriteFault result (O.told outputs.old) (O.told outputs.new) }
{
    if stream.push(part).is_err() {
        return Err(RunFault::OutOfMemory);
    }
    while relay_piece(settings, stream, pending, outputs)? {}
    Ok(())
}

// The whole lines at the start of bytes, as text: none if the bytes up to the last newline are not UTF-8.
fn whole_lines(bytes: &[u8]) -> &str
    ensures { result.now ≡ take (length result.now) bytes.now }
{
    let Some(last) = memrchr(b'\n', bytes) else {
        return "";
    };
    text_of(&bytes[..last + 1]).unwrap_or("")
}

// Takes the whole lines at the start of bytes as a rebuild does, up to one that is too long, where nothing of the bytes before
// is left. Gives how many bytes were taken.
fn relay_lines<O: ThreeWriters>(
    settings: Settings<'_>,
    pending: &mut Pending,
    bytes: &[u8],
    outputs: &mut O,
) -> Result<usize, RunFault>
    requires fits { counted pending.old ≤ usize.MAX }
    requires few { HoldsLess BLOCK pending.old }
    ensures within { IfOk result (λ taken. taken ≤ length bytes.now) }
    ensures relays { RelaysLines settings.entry bytes.now result
        (stage_of pending.old (O.told outputs.old)) (stage_of pending.new (O.told outputs.new)) }
    ensures held { OnOk result (HoldsLess BLOCK pending.new) }
    ensures fits { OnOk result (counted pending.new ≤ usize.MAX) }
    ensures unahead { OnOk result (pending.old.ahead ≡ false → pending.new.ahead ≡ false) }
    ensures counts { CountsWriteFault result (O.told outputs.old) (O.told outputs.new) }
{
    laws::pieces_join();
    let mut lines = split_lines_in(settings.dialect, whole_lines(bytes));
    let mut reader = LineReader::new(pending.alloc, settings.dialect);
    let mut taken = 0;
    while let Some(piece) = lines.next() {
        // The last piece has no newline.
        if lines.remainder().is_none() || piece.len() > settings.limit {
            return Ok(taken);
        }
        if take_piece(&settings, pending, &mut reader, Piece::Text(piece)).is_err() {
            return Err(RunFault::OutOfMemory);
        }
        pour_full(pending, outputs)?;
        taken += piece.len() + 1;
    }
    Ok(taken)
}

// The place of the first newline.
fn end_of_line(bytes: &[u8]) -> Option<usize>
    ensures { IfSome result (λ at. (at < length bytes.now) × (take (at + 1) bytes.now ≡ take at bytes.now ++ newline ∷ [])
        × All (λ b. b ≢ newline) (take at bytes.now)) }
{
    memchr(b'\n', bytes)
}

// Takes the line that ends in a part, if its first newline ends it, and the whole lines after it, which the stream is not
// given. Gives how many bytes of the part were taken, or given to the stream.
fn relay_begun<O: ThreeWriters>(
    settings: Settings<'_>,
    stream: &mut BoundedLineStream,
    pending: &mut Pending,
    part: &[u8],
    outputs: &mut O,
) -> Result<usize, RunFault>
    requires ready { IsReady settings stream.old pending.old }
    ensures within { IfOk result (λ given. given ≤ length part.now) }
    ensures ready { OnOk result (IsReady settings.entry stream.new pending.new) }
    ensures relays { RelaysPart settings.entry part.now result (λ n. take n part.now) stream.old stream.new
        (stage_of pending.old (O.told outputs.old)) (stage_of pending.new (O.told outputs.new)) }
    ensures unahead { OnOk result (pending.old.ahead ≡ false → pending.new.ahead ≡ false) }
    ensures counts { CountsWriteFault result (O.told outputs.old) (O.told outputs.new) }
{
    laws::pieces_join();
    let Some(at) = end_of_line(part) else {
        return Ok(0);
    };
    let end = at + 1;
    if stream.push(&part[..end]).is_err() {
        return Err(RunFault::OutOfMemory);
    }
    if !relay_piece(settings, stream, pending, outputs)? {
        return Ok(end);
    }
    let taken = relay_lines(settings, pending, &part[end..], outputs)?;
    Ok(end + taken)
}

// Takes ahead what the stream holds, if no newline ended it and it is too long already.
fn relay_ahead(
    settings: &Settings<'_>,
    stream: &BoundedLineStream,
    pending: &mut Pending,
) -> Result<(), AllocError>
    requires ready { IsReady settings.now stream.now pending.old }
    ensures fits { OnOk result (counted pending.new ≤ usize.MAX) }
    ensures relays { OnOk result (RelaysAhead settings.now stream.now (unwritten_of pending.old) (unwritten_of pending.new)) }
    ensures told { OnOk result (IsToldAhead settings.now stream.now (unwritten_of pending.new)) }
{
    if pending.ahead {
        return Ok(());
    }
    match stream.too_long_so_far() {
        Some(fault) => take_ahead(settings, pending, fault),
        None => Ok(()),
    }
}

// Takes a part of the text, and each piece that is there then.
pub(crate) fn relay_complete<O: ThreeWriters>(
    settings: Settings<'_>,
    stream: &mut BoundedLineStream,
    pending: &mut Pending,
    part: &[u8],
    outputs: &mut O,
) -> Result<(), RunFault>
    requires ready { IsReady settings stream.old pending.old }
    requires block { length part.now ≤ BLOCK }
    ensures ready { OnOk result (IsReady settings.entry stream.new pending.new) }
    ensures relays { RelaysPart settings.entry part.now result (λ _. part.now) stream.old stream.new
        (stage_of pending.old (O.told outputs.old)) (stage_of pending.new (O.told outputs.new)) }
    ensures unahead { OnOk result (pending.old.ahead ≡ false → pending.new.ahead ≡ false) }
    ensures counts { CountsWriteFault result (O.told outputs.old) (O.told outputs.new) }
{
    let given = relay_begun(settings, stream, pending, part, outputs)?;
    relay_pieces(settings, stream, pending, &part[given..], outputs)
}

// Takes a part of the text, and each piece that is there then, and what comes after them if that is too long already. All that these
// make is written and flushed.
fn relay_part<O: ThreeWriters>(
    settings: Settings<'_>,
    stream: &mut BoundedLineStream,
    pending: &mut Pending,
    part: &[u8],
    outputs: &mut O,
) -> Result<(), RunFault>
    requires ready { IsReady settings stream.old pending.old }
    requires block { length part.now ≤ BLOCK }
    ensures ready { OnOk result (IsReady settings.entry stream.new pending.new) }
    ensures relays { RelaysPart settings.entry part.now result (λ _. part.now) stream.old stream.new
        (stage_of pending.old (O.told outputs.old)) (stage_of pending.new (O.told outputs.new)) }
    ensures told { OnOk result (IsToldAhead settings.entry stream.new (unwritten_of pending.new)) }
    ensures none { OnOk result (HoldsNone pending.new) }
    ensures counts { CountsWriteFault result (O.told outputs.old) (O.told outputs.new) }
    ensures flushed { OnOk result (AreFlushed (O.told outputs.new)) }
{
    relay_complete(settings, stream, pending, part, outputs)?;
    if relay_ahead(&settings, stream, pending).is_err() {
        return Err(RunFault::OutOfMemory);
    }
    pour_and_flush(pending, outputs)
}

// Takes the last piece, writes all that is held, and flushes.
pub(crate) fn finish<O: ThreeWriters>(
    settings: Settings<'_>,
    stream: &mut BoundedLineStream,
    pending: &mut Pending,
    outputs: &mut O,
) -> Result<(), RunFault>
    requires ready { IsReady settings stream.old pending.old }
    ensures relays { RelaysLast settings.entry result stream.old
        (stage_of pending.old (O.told outputs.old)) (stage_of pending.new (O.told outputs.new)) }
    ensures none { OnOk result (HoldsNone pending.new) }
    ensures counts { CountsWriteFault result (O.told outputs.old) (O.told outputs.new) }
    ensures flushed { OnOk result (AreFlushed (O.told outputs.new)) }
{
    laws::runs_give_pieces();
    if take_given(&settings, pending, stream.finish()).is_err() {
        return Err(RunFault::OutOfMemory);
    }
    pour_and_flush(pending, outputs)
}

// What was counted by these settings.
pub(crate) fn counts_of(settings: Settings<'_>, pending: &Pending) -> Relayed
    ensures carried { result.carried ≡ pending.now.so_far.carried - items_before settings.entry.numbering settings.entry.first }
    ensures refused { result.refused ≡ pending.now.so_far.refused }
    ensures kinds { result.kinds ≡ pending.now.kinds }
{
    Relayed {
        carried: pending
            .so_far
            .carried
            .saturating_sub(items_before(settings)),
        refused: pending.so_far.refused,
        kinds: pending.kinds,
    }
}

/// Relays the lines that `reader` gives, as they come: each that [`rebuild`](lp_rebuild::rebuild) would write again goes to the
/// lines of `outputs`, and the fault of every other item to its faults, with what `settings.numbering` says. By `LineForm::Verbatim`
/// each line that can be read goes out as it came, also one that a rebuild would refuse for a name, unless no newline ends its piece. By `LineForm::Keyed` it goes out after
/// the key of its series, and by `LineForm::OfShard` only if it is of that shard.
///
/// If `settings.portable` names servers, each line is looked at as it would go out, by whatever form: if it is not portable to them, it is
/// refused, and its fault names the first clause that it breaks. A line that does not go out, since it is of another shard, is not looked at.
///
/// If `settings.types` says so, the first type of each field stays. Then a line that would go out, in whatever form, is refused if it has
/// a field of another type than the first line of it that went out, and so is one that gives a field two types. A refused line gives no
/// field a type, also one that is refused for another reason. What is known takes memory for each field, so a line with a new field beyond
/// `max_fields` is refused too. [`relay_inputs`](crate::relay_inputs) knows the types of all its inputs.
///
/// If `settings.puts_refused` says so, the refused pieces of `outputs` gain the piece of each item that has a fault line, byte for
/// byte as it came, and a newline. Of a piece that is too long its first bytes stand in its place, as many as the limit. If the
/// setting does not say so, they gain nothing.
///
/// If `settings.counts_kinds` says so, the answer tells how many items were refused for each kind of fault; they add up to all that
/// were. If `settings.max_faults` is a number, at most so many faults are told, those that come first; all else is as ever.
///
/// What each read completes is written and flushed before the next read is asked for, and the rest at the end. So is the fault of a
/// piece that is longer than `settings.limit`, as soon as so many bytes of it and one more have come. What is held of
/// the input is the line that has not ended yet and two blocks at most. Of each output less than a block and what one line makes is
/// held, since it is written too if it fills a block. So by `LineForm::Rebuilt` the lines are what [`run`](lp_rebuild::run) writes, and
/// by `Faults::Raw`, if items are named from 1 on, the faults are too, but not in its order.
///
/// Input that is not UTF-8 does not end it: each piece that is not is one item, whose fault line is `item N: the line is not
/// UTF-8`, and the pieces before and after it are read as ever. So is a piece that is longer than `settings.limit`, whose
/// fault is `the line is too long`, also if it is a comment, blank or not UTF-8; if refused pieces go out, `: its first N
/// bytes are kept` comes then, with the limit. Its other bytes are passed over up to its end. With a limit, that many bytes
/// and two blocks of the input are held at most. They are the bytes of the line that has not ended yet, no more than the limit,
/// the block that comes after them, and that block as it was read. The buffer of the first two grows by doubling, and has lines
/// too that were taken already, so it may have room for four times as many.
///
/// # Errors
///
/// After each of them, each writer of `outputs` has a beginning of what was meant for it.
///
/// * `Read` if `reader` failed, and only there.
/// * `OutOfMemory` if memory was refused, or if no `usize` holds the number of the next item, how many bytes come before the next
///   piece, or, if faults name lines, the line on which that would begin.
/// * `Write` if a writer of `outputs` failed, and only there.
pub fn relay<R: Source, O: ThreeWriters>(
    alloc: Global,
    settings: Settings<'_>,
    reader: &mut R,
    outputs: &mut O,
) -> Result<Relayed, RunFault>
    ensures { Relays settings.entry no_types result
        (reader_told R.bytes R.failures reader.old) (reader_told R.bytes R.failures reader.new)
        (O.told outputs.old) (O.told outputs.new) }
{
    let mut types = KnownTypes::none(alloc);
    relay_on(alloc, settings, &mut types, reader, outputs)
}

// The same after others, of which these types are known. After a fault fewer are.
pub(crate) fn relay_on<R: Source, O: ThreeWriters>(
    alloc: Global,
    settings: Settings<'_>,
    types: &mut KnownTypes,
    reader: &mut R,
    outputs: &mut O,
) -> Result<Relayed, RunFault>
    ensures relays { Relays settings.entry (types_of types.old) result
        (reader_told R.bytes R.failures reader.old) (reader_told R.bytes R.failures reader.new)
        (O.told outputs.old) (O.told outputs.new) }
    ensures types { OnOk result (IfSome (R.bytes reader.old) (λ bs.
        TypesAfter settings.entry (types_of types.old) bs (types_of types.new))) }
{
    laws::pieces_join();
    laws::runs_give_pieces();
    laws::utf8_by_pieces();
    let mut stream = BoundedLineStream::new_in(alloc, settings.dialect, settings.limit);
    let known = mem::replace(types, KnownTypes::none(alloc));
    let mut pending = nothing_made(alloc, settings, known);
    let mut block = Vec::new(alloc);
    for _ in 0..u64::MAX {
        let n = read_block(reader, &mut block, 0)?;
        if n == 0 {
            finish(settings, &mut stream, &mut pending, outputs)?;
            let counts = counts_of(settings, &pending);
            *types = mem::replace(&mut pending.types, KnownTypes::none(alloc));
            return Ok(counts);
        }
        relay_part(settings, &mut stream, &mut pending, &block[..n], outputs)?;
    }
    Err(RunFault::OutOfMemory)
}
