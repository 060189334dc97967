//! A relay that gives each line without a timestamp the time of the read with which its piece ended.
//!
//! What each read ends is relayed by itself, by settings that go on after the reads before it: only the stream, which holds the line that has
//! not ended yet, is handed on. So nothing else needs to know of times that change, and each read takes memory for its outputs anew.
ghost use Rattle.std.specs.Prelude.{◌≡◌, ◌∷◌, ◌++◌, ◌≤◌, [], List, ℤ, Option, Some, IfOk, IfSome, OnOk, length};
ghost use Rattle.lp_rebuild.specs.Running.{reader_told};
ghost use Rattle.lp_faults.specs.FaultsTold.{first_place};
ghost use Rattle.lp_conditions.specs.FieldTypes.{types_of};
ghost use Rattle.lp_faults.specs.Objects.{line_or_none};
ghost use Rattle.lp_relay.specs.Reads.{RelaysNow, RelaysRead, RelaysRest, faults_from, first_from, numbering_from, settings_at, settings_from};
ghost use Rattle.lp_relay.specs.RelaySteps.{HasRules, next_place, unwritten_of};
ghost use Rattle.lp_relay.specs.Writers.{AreFlushed, CountsWriteFault};

use crate::inputs::sum_of;
use crate::outputs::ThreeWriters;
use crate::relaying::{counts_of, finish, pour_and_flush, relay_complete};
use crate::taking::{Pending, nothing_made};
use influxdb_line_protocol::{BoundedLineStream, laws};
use lp_conditions::field_types::KnownTypes;
use lp_conditions::kinds::Relayed;
use lp_conditions::settings::{Numbering, Settings};
use lp_conditions::times::{TimeUnit, Times};
use lp_escapes::forms::Faults;
use lp_rebuild::program::{BLOCK, read_block};
use lp_rebuild::{RunFault, Source};
use std::alloc::Global;
use std::mem;

/// What tells the time.
///
/// For contracts it has one member, `told`: the times that it told so far, in order, if they are known.
pub trait Clock {
    ghost told: { Self → Option (List ℤ) };

    /// The time now, in nanoseconds since 1970.
    fn now(&mut self) -> i64
        ensures { IfSome (told self.old) (λ times. told self.new ≡ Some (times ++ result ∷ [])) };
}

// What a read gave: the counts of its items, and the settings that go on after it.
#[derive(Clone, Copy)]
struct ReadEnd<'n> {
    counts: Relayed,
    settings: Settings<'n>,
}

// The settings by which a line without a timestamp has this time.
fn settings_at<'n>(settings: Settings<'n>, time: i64) -> Settings<'n>
    ensures { result ≡ settings_at time settings.entry }
{
    let times = match settings.times {
        Some(times) => times,
        None => Times {
            unit: TimeUnit::Nanos,
            missing: None,
            from: None,
            to: None,
        },
    };
    Settings {
        times: Some(Times {
            missing: Some(time),
            ..times
        }),
        ..settings
    }
}

// What is numbered after some pieces: items, if the form of the faults names the line by itself.
fn numbering_from(settings: Settings<'_>) -> Numbering
    ensures { result ≡ numbering_from settings.entry.faults settings.entry.numbering }
{
    match settings.faults {
        Faults::Json { .. } | Faults::Editor { .. } => Numbering::Items,
        _ => settings.numbering,
    }
}

// The form of the faults from this line on.
fn faults_from(faults: Faults, line: usize) -> Faults
    ensures { result ≡ faults_from faults line }
{
    match faults {
        Faults::Json { has_piece, .. } => Faults::Json {
            first_line: line,
            has_piece,
        },
        Faults::Editor { .. } => Faults::Editor { first_line: line },
        faults => faults,
    }
}

// The settings that go on after what was taken, of which these are the counts.
fn settings_from<'n>(settings: Settings<'n>, pending: &Pending, counts: Relayed) -> Settings<'n>
    ensures { result ≡ settings_from settings.entry (next_place settings.entry (unwritten_of pending.now)) counts }
{
    let so_far = &pending.so_far;
    let line = so_far.line.unwrap_or(0);
    let numbering = numbering_from(settings);
    let first = match numbering {
        Numbering::Items => so_far
            .carried
            .saturating_add(so_far.refused)
            .saturating_add(1),
        Numbering::Lines => line,
    };
    let max_faults = match settings.max_faults {
        Some(most) => Some(most.saturating_sub(counts.refused)),
        None => None,
    };
    Settings {
        numbering,
        first,
        faults: faults_from(settings.faults, line),
        max_faults,
        first_offset: pending.offset,
        ..settings
    }
}

// Relays what ends with a part, after what the stream holds, by the types that fields have before it.
fn relay_read<'n, O: ThreeWriters>(
    alloc: Global,
    settings: Settings<'n>,
    types: &mut KnownTypes,
    stream: &mut BoundedLineStream,
    part: &[u8],
    outputs: &mut O,
) -> Result<ReadEnd<'n>, RunFault>
    requires rules { HasRules settings stream.old }
    requires block { length part.now ≤ BLOCK }
    ensures rules { IfOk result (λ end. HasRules end.settings stream.new) }
    ensures relays { RelaysRead settings.entry part.now result (types_of types.old) (types_of types.new) stream.old stream.new
        (O.told outputs.old) (O.told outputs.new) }
    ensures counts { CountsWriteFault result (O.told outputs.old) (O.told outputs.new) }
{
    laws::pieces_join();
    laws::runs_give_pieces();
    let known = mem::replace(types, KnownTypes::none(alloc));
    let mut pending = nothing_made(alloc, settings, known);
    relay_complete(settings, stream, &mut pending, part, outputs)?;
    pour_and_flush(&mut pending, outputs)?;
    let counts = counts_of(settings, &pending);
    let settings = settings_from(settings, &pending, counts);
    *types = mem::replace(&mut pending.types, KnownTypes::none(alloc));
    Ok(ReadEnd { counts, settings })
}

// Relays what the stream holds, at the end of the input.
fn relay_rest<O: ThreeWriters>(
    alloc: Global,
    settings: Settings<'_>,
    types: &mut KnownTypes,
    stream: &mut BoundedLineStream,
    outputs: &mut O,
) -> Result<Relayed, RunFault>
    requires rules { HasRules settings stream.old }
    ensures relays { RelaysRest settings.entry result (types_of types.old) stream.old (O.told outputs.old) (O.told outputs.new) }
    ensures counts { CountsWriteFault result (O.told outputs.old) (O.told outputs.new) }
    ensures flushed { OnOk result (AreFlushed (O.told outputs.new)) }
{
    laws::pieces_join();
    let known = mem::replace(types, KnownTypes::none(alloc));
    let mut pending = nothing_made(alloc, settings, known);
    finish(settings, stream, &mut pending, outputs)?;
    Ok(counts_of(settings, &pending))
}

/// Relays the lines that `reader` gives, as [`relay`](crate::relay) does, but that a line without a timestamp has the time that `clock` tells
/// after the read with which its piece ended. If no newline ends it, that is the time after the last read, which gives no bytes.
///
/// All lines that end with one read have the same time. Of two points of one series without a timestamp that come with one read a server
/// keeps one. `settings.times` says what else becomes of times: a line that gets its time so is refused if that is not within the range.
///
/// The fault of a piece that is longer than `settings.limit` is told once its end has come.
///
/// # Errors
///
/// After each of them, each writer of `outputs` has a beginning of what was meant for it.
///
/// * `Read` if `reader` failed, and only there.
/// * `OutOfMemory` and `Write` as [`relay`](crate::relay) answers them.
pub fn relay_now<R: Source, C: Clock, O: ThreeWriters>(
    alloc: Global,
    settings: Settings<'_>,
    reader: &mut R,
    clock: &mut C,
    outputs: &mut O,
) -> Result<Relayed, RunFault>
    ensures { RelaysNow settings.entry result
        (reader_told R.bytes R.failures reader.old) (reader_told R.bytes R.failures reader.new)
        (C.told clock.old) (C.told clock.new) (O.told outputs.old) (O.told outputs.new) }
{
    laws::pieces_join();
    let mut stream = BoundedLineStream::new_in(alloc, settings.dialect, settings.limit);
    let mut types = KnownTypes::none(alloc);
    let mut total = Relayed {
        carried: 0,
        refused: 0,
        kinds: None,
    };
    let mut own = settings;
    let mut block = Vec::new(alloc);
    for _ in 0..u64::MAX {
        let n = read_block(reader, &mut block, 0)?;
        let timed = settings_at(own, clock.now());
        if n == 0 {
            let counts = relay_rest(alloc, timed, &mut types, &mut stream, outputs)?;
            return Ok(sum_of(total, counts));
        }
        let end = relay_read(alloc, timed, &mut types, &mut stream, &block[..n], outputs)?;
        total = sum_of(total, end.counts);
        own = end.settings;
    }
    Err(RunFault::OutOfMemory)
}
