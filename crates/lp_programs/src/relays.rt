//! Relays what words ask for, and says how that ends.
ghost use Rattle.std.specs.Prelude.{◌≡◌, ◌≢◌, false, None, Err, Ok, IfErr, IfOk, IfSome, IsNone, IsOk, OnOk, Result};
ghost use Rattle.std.specs.declared.io.Error.{Error};
ghost use Rattle.lp_endings.specs.declared.{endings.Failure.Failure, summary.Totals.Totals};
ghost use Rattle.lp_endings.specs.Endings.{IsLastStatus, relay_ending};
ghost use Rattle.lp_files.specs.Batches.{AreDone, Current};
ghost use Rattle.lp_files.specs.Files.{ArePutWhole, Each, IsBeside, IsInPlace, IsRemoved, IsSettled, file_failure};

use crate::asked::{ReadsOn, relay_by_clock, relay_each};
use crate::clock::SystemClock;
use lp_endings::endings::{
    Device, Devices, Ending, Failure, LastErrors, ending_of_relay, ending_once_told,
};
use lp_endings::speaking::{Notice, Speaker, fault_name};
use lp_endings::summary::{AsObject, Totals};
use lp_files::batches::{Batches, Limits};
use lp_files::beside::{Destination, Destinations, FileBeside, System};
use lp_files::files::{Files, failure_of, failure_of_batch};
use lp_inputs::counted::CountedSource;
use lp_inputs::errors::Watched;
use lp_inputs::inputs::{Inputs, SystemOpener};
use lp_inputs::marks::{MarkedSource, Marks};
use lp_inputs::meter::{Counted, Meter, MeteredSink, MeteredSource};
use lp_inputs::watched::{Unwatched, WatchedSource, Watcher};
use lp_places::locks::{names_beside, remove_left};
use lp_places::places::{
    are_read_once, batch_at, old_refusal_at, place_of, range_refusal_at, refusal_at, relayed_len,
};
use lp_places::streams::{Stream, stream_of, sync_known};
use lp_rebuild::{Reading, RunFault, Source, Writing};
use lp_relay::{Outputs, Settings, ThreeWriters};
use lp_words::batch_names::batch_names_of;
use lp_words::options::Range;
use lp_words::refusals::{OldPieces, Refusal, refusal_of_batches};
use std::alloc::Global;
use std::cell::Cell;
use std::io::{self, ErrorKind, IsTerminal, Write};

/// A relay that words ask for.
#[derive(Clone, Copy)]
pub struct Request<'a> {
    /// How lines are read and written, what the fault lines name, and whether the counts of items are told at the end.
    pub relay: Settings<'a>,
    /// Whether a line without a timestamp has the time of the read with which it ended. There is one input then, or none is named.
    pub now: bool,
    /// Whether progress is shown.
    pub progress: bool,
    /// Whether the lines are only checked, and none is written.
    pub check: bool,
    /// The file that the lines go to, or none: standard output. A check has none.
    pub output: Option<&'a str>,
    /// The file that the refused pieces go to, if they go out: `-` is standard output.
    pub refused: Option<&'a str>,
    /// What becomes of the pieces that this file holds.
    pub old_pieces: OldPieces,
    /// How large the batches are to which the lines go, if they go to batches. `output` says the names of these then.
    pub batches: Option<Limits>,
    /// The part of the input that is relayed, if it is not all. There is one input then.
    pub range: Option<Range>,
    /// Whether no byte after the last newline of an input is read. Each newline ends a line then.
    pub whole_lines: bool,
    /// How many words name inputs: so many of the last. 0: standard input.
    pub inputs: usize,
}

// Relays the inputs of these names over these devices, by a clock, if it is to tell the times of lines.
fn relay_over<R: Source + Drop, W: Watcher + Drop, O: ThreeWriters + Drop>(
    alloc: Global,
    clock: Option<SystemClock<'_, HostRuntime>>,
    request: Request<'_>,
    names: &[&str],
    reader: R,
    watcher: W,
    mut outputs: O,
) -> (Result<Totals, RunFault>, W) {
    let reader = WatchedSource::new(reader, watcher);
    let mut inputs = lp_relay::Inputs {
        reader: CountedSource::new(request.relay.counts_kinds, reader),
        next: ReadsOn,
    };
    let answer = match clock {
        Some(mut clock) => relay_by_clock(
            alloc,
            request.relay,
            &mut inputs.reader,
            &mut clock,
            &mut outputs,
        ),
        None => relay_each(alloc, request.relay, names, &mut inputs, &mut outputs),
    };
    (answer, inputs.reader.into_inner().into_watcher())
}

// Where the lines and the refused pieces of a relay go.
#[derive(Drop)]
struct Outs<'d, L> {
    lines: L,
    // Whether the lines go to a terminal.
    is_shown: bool,
    refused: Destination<'d>,
}

// What shows how far a relay of these inputs is, if that is asked for, and standard error is a terminal.
fn meter_of<'a>(
    rt: &'a HostRuntime,
    request: Request<'_>,
    names: &[&str],
) -> Option<Meter<'a, HostRuntime>>
    ensures { request.entry.progress ≡ false → IsNone result }
{
    if !request.progress || !rt.stderr().is_terminal() {
        return None;
    }
    Some(Meter::new(rt, relayed_len(rt, names, request.range)))
}

// Relays the inputs of these names, one after another, and shows on the terminal how far it is, if that is asked for.
fn relay_inputs<'n, W: Watcher + Drop, L: Write + Drop>(
    rt: &HostRuntime,
    program: Speaker<'_>,
    request: Request<'_>,
    names: &'n [&'n str],
    watcher: W,
    outs: Outs<'_, L>,
    errors: &LastErrors<'n>,
) -> (Result<Totals, RunFault>, W) {
    let counted = if request.check {
        Counted::Nothing
    } else {
        Counted::Lines
    };
    let meter = meter_of(rt, request, names);
    let shown = meter.as_ref();
    let is_marked = Cell::new(false);
    let whole_lines = request.whole_lines.then_some(request.relay.limit);
    let opener = SystemOpener::new(rt, &errors.input, &is_marked, request.range, whole_lines);
    let reader = Reading::new(Watched::new(&errors.input, Inputs::new(opener, names)));
    let marks = Marks::new(rt, program, shown, &errors.input, &is_marked);
    let reader = MarkedSource::new(marks, MeteredSource::new(shown, reader));
    let lines = Writing::new(Watched::new(&errors.output, outs.lines));
    let faults = Writing::new(Watched::new(&errors.faults, rt.stderr()));
    let outputs = Outputs {
        lines: MeteredSink::new(shown, counted, outs.is_shown, lines),
        faults: MeteredSink::new(shown, Counted::Faults, true, faults),
        refused: Writing::new(Watched::new(&errors.refused, outs.refused)),
    };
    let clock = if request.now {
        SystemClock::new(rt)
    } else {
        None
    };
    let answer = relay_over(rt.alloc(), clock, request, names, reader, watcher, outputs);
    if let Some(meter) = shown {
        meter.finish();
    }
    answer
}

// The batches that a request asks for.
fn open_batches<'a, 'n>(
    rt: &'a HostRuntime,
    request: Request<'n>,
    names: &[&str],
) -> Result<Option<Batches<'a, 'n>>, Failure<'n>>
    ensures { IfOk result (λ batches. IfSome batches (Current IsBeside)) }
{
    let (Some(limits), Some(word)) = (request.batches, request.output) else {
        return Ok(None);
    };
    match batch_names_of(word) {
        Some(batch_names) => {
            let is_kept = are_read_once(rt, names);
            let dialect = request.relay.dialect;
            Ok(Some(Batches::open(rt, word, batch_names, dialect, limits, is_kept)?))
        }
        None => Ok(None),
    }
}

// What the refused pieces of a request are written to as they come. That it leads to an input or to the output may be seen only once it
// is there.
fn stream_at<'n>(
    rt: &HostRuntime,
    request: Request<'n>,
    names: &[&str],
    name: &'n str,
) -> io::Result<Option<Stream>> {
    let stream = stream_of(rt, name, request.old_pieces)?;
    if stream.is_some() && refusal_at(rt, names, request.output, Some(name))?.is_some() {
        return Err(io::Error::new(ErrorKind::InvalidInput, "it is an input or the output too"));
    }
    Ok(stream)
}

// What the refused pieces of a request are written to as they come, if they are.
fn open_stream<'n>(
    rt: &HostRuntime,
    request: Request<'n>,
    names: &[&str],
) -> Result<Option<Stream>, Failure<'n>>
    ensures none { request.entry.refused ≡ None → result ≡ Ok None }
    ensures told { IfErr result (λ failure. IfSome request.entry.refused (λ name. (error : Error) × (failure ≡ file_failure name error))) }
{
    let Some(name) = request.refused else {
        return Ok(None);
    };
    stream_at(rt, request, names, name).map_err(|error| failure_of(name, error))
}

// The devices of a run with the errors that they have now. The batch that was written last is the output, if lines go to batches.
fn devices_of<'n>(
    errors: &LastErrors<'n>,
    batches: &Option<Batches<'_, 'n>>,
) -> Devices<Device<'n>> {
    let devices = errors.now();
    let batch = batches.as_ref().map(|batches| batches.number());
    Devices {
        output: Device {
            batch,
            ..devices.output
        },
        ..devices
    }
}

// Relays the inputs of these names to where its lines and refused pieces go, or to batches.
fn relay_into<'a, 'n, W: Watcher + Drop>(
    rt: &HostRuntime,
    program: Speaker<'_>,
    request: Request<'n>,
    names: &'n [&'n str],
    watcher: W,
    destinations: Destinations<'_>,
    batches: &mut Option<Batches<'a, 'n>>,
) -> (Result<Totals, Failure<'n>>, W) {
    let refused = request.refused.filter(|name| *name != "-");
    let errors = LastErrors::unfailed(request.output, refused);
    let is_shown = destinations.is_on_terminal();
    let Destinations { lines, refused } = destinations;
    let (answer, watcher) = match batches {
        Some(lines) => {
            let outs = Outs {
                lines,
                is_shown: false,
                refused,
            };
            relay_inputs(rt, program, request, names, watcher, outs, &errors)
        }
        None => {
            let outs = Outs {
                lines,
                is_shown,
                refused,
            };
            relay_inputs(rt, program, request, names, watcher, outs, &errors)
        }
    };
    match answer {
        Ok(totals) => (Ok(totals), watcher),
        Err(fault) => (Err(devices_of(&errors, batches).failure(fault)), watcher),
    }
}

// The files of a request that come to their places once the run ends: for the lines, unless these go to batches, and for the refused
// pieces, unless these are written as they come.
fn open_files<'a, 'n>(
    system: System<'a>,
    request: Request<'n>,
    batches: &Option<Batches<'a, 'n>>,
    stream: &Option<Stream>,
) -> Result<Files<FileBeside<'a, 'n>>, Failure<'n>>
    ensures { IfOk result (λ files. Each (λ file. file.state) IsBeside files) }
{
    let output = if batches.is_some() {
        None
    } else {
        request.output
    };
    let refused = if stream.is_some() {
        None
    } else {
        request.refused
    };
    let mut files = Files::open(&system, output, refused)?;
    match files.check_places() {
        Ok(()) => Ok(files),
        Err(failure) => {
            let _ = files.finish::<()>(Err(failure));
            files.let_go();
            Err(failure)
        }
    }
}

// Ends a run that gave this answer, whose refused pieces are written as they come, to what has this name: all of them are on the device
// then, if the run succeeded.
fn finish_stream<'n, T: Drop>(
    stream: &Option<Stream>,
    name: Option<&'n str>,
    answer: Result<T, Failure<'n>>,
) -> Result<T, Failure<'n>>
    ensures failed { IfErr answer.entry (λ failure. result ≡ Err failure) }
    ensures value { IfOk answer.entry (λ value. IfOk result (λ other. other ≡ value)) }
{
    if let (Ok(_), Some(Stream::Opened(file)), Some(name)) = (&answer, stream, name) {
        if let Err(error) = sync_known(file) {
            return Err(failure_of(name, error));
        }
    }
    answer
}

// Ends the batches of a run that gave this answer, if there are any.
fn finish_batches<'n, T: Drop>(
    batches: &mut Option<Batches<'_, 'n>>,
    answer: Result<T, Failure<'n>>,
) -> Result<T, Failure<'n>>
    ensures placed { OnOk result (AreDone batches.old batches.new) }
    ensures settled { IfSome batches.new (Current IsSettled) }
    ensures failed { IfErr answer.entry (λ failure. result ≡ Err failure) }
    ensures value { IfOk answer.entry (λ value. IfOk result (λ other. other ≡ value)) }
{
    match batches {
        Some(batches) => batches.finish(answer),
        None => answer,
    }
}

// Ends a run that gave this answer: the last batch and each file come to their places. After a failure what is not in its place is removed,
// but for a batch that is kept.
fn finish_outputs<'n, T: Drop>(
    files: &mut Files<FileBeside<'_, 'n>>,
    batches: &mut Option<Batches<'_, 'n>>,
    answer: Result<T, Failure<'n>>,
) -> Result<T, Failure<'n>>
    requires { Each (λ file. file.state) IsBeside files.old }
    ensures placed { OnOk result (Each (λ file. file.state) IsInPlace files.new) }
    ensures whole { ArePutWhole (λ file. file.state) files.new }
    ensures batches { OnOk result (AreDone batches.old batches.new) }
    ensures settled { Each (λ file. file.state) IsSettled files.new }
    ensures left { IfSome batches.new (Current IsSettled) }
    ensures failed { IfErr answer.entry (λ failure. (result ≡ Err failure) × Each (λ file. file.state) IsRemoved files.new) }
    ensures value { IfOk answer.entry (λ value. IfOk result (λ other. other ≡ value)) }
{
    let answer = finish_batches(batches, answer);
    files.finish(answer)
}

/// Relays the inputs of these names, by a program of this name, to the files that a request names, and puts these in their places. A
/// watcher takes all bytes that are read, and is given back. What is told of an input that is relayed all the same, the program tells.
///
/// # Errors
///
/// Why the relay failed, or why a file could not be put in its place.
pub fn relay_to_files<'n, W: Watcher + Drop>(
    rt: &HostRuntime,
    program: Speaker<'_>,
    request: Request<'n>,
    names: &'n [&'n str],
    watcher: W,
) -> (Result<Totals, Failure<'n>>, W) {
    let stream = match open_stream(rt, request, names) {
        Ok(stream) => stream,
        Err(failure) => return (Err(failure), watcher),
    };
    let mut batches = match open_batches(rt, request, names) {
        Ok(batches) => batches,
        Err(failure) => return (Err(failure), watcher),
    };
    let (answer, watcher) = match open_files(System { rt, program }, request, &batches, &stream) {
        Ok(mut files) => {
            let destinations = files.destinations(rt, request.check, &stream);
            let (answer, watcher) = relay_into(
                rt,
                program,
                request,
                names,
                watcher,
                destinations,
                &mut batches,
            );
            let answer = finish_stream(&stream, request.refused, answer);
            let answer = finish_outputs(&mut files, &mut batches, answer);
            files.let_go();
            (answer, watcher)
        }
        Err(failure) => (finish_batches(&mut batches, Err(failure)), watcher),
    };
    if let Some(batches) = batches {
        batches.let_go();
    }
    (answer, watcher)
}

// Writes all of a text.
fn write_text(mut destinations: Destinations<'_>, text: &str) -> io::Result<()> {
    destinations.lines.write_all(text.as_bytes())?;
    destinations.lines.flush()
}

/// Writes a text to a file, by a program of this name. The file is put in its place once all of it is on the device.
///
/// # Errors
///
/// `Write` if it cannot be; then what was in its place stays there.
pub fn put_text<'n>(
    rt: &HostRuntime,
    program: Speaker<'_>,
    name: &'n str,
    text: &str,
) -> Result<(), Failure<'n>> {
    let mut files = Files::open(&System { rt, program }, Some(name), None)?;
    let written = write_text(files.destinations(rt, false, &None), text);
    let answer = files.finish(written.map_err(|error| failure_of(name, error)));
    files.let_go();
    answer
}

// The name of the batch that a device is, if it is one and there is memory for its name.
fn batch_name(rt: &HostRuntime, device: Device<'_>) -> Option<String> {
    let names = batch_names_of(device.name?)?;
    names.name_of(rt.alloc(), device.batch?).ok()?
}

// Says why a run failed, and names the file of a batch, if the device that failed is one.
fn say_failure(rt: &HostRuntime, program: Speaker<'_>, failure: Failure<'_>) {
    let batch = batch_name(rt, failure.device);
    let name = match &batch {
        Some(batch) => Some(batch.as_str()),
        None => failure.device.name,
    };
    let device = Device {
        name,
        ..failure.device
    };
    let failure = Failure { device, ..failure };
    program.say(rt, fault_name(failure.fault), name, &failure);
}

// Tells the counts of a run, if it has any to tell.
fn tell_counts(rt: &HostRuntime, program: Speaker<'_>, ending: Ending<'_>) -> io::Result<()>
    ensures { ending.entry.not_told ≡ 0 → ending.entry.summary ≡ None → IsOk result }
{
    let not_told = ending.not_told;
    if not_told > 0 {
        if program.as_objects {
            eprintln!(rt; "{{\"faults_not_told\":{not_told}}}")?;
        } else {
            eprintln!(rt; "{not_told} faults were not told")?;
        }
    }
    match ending.summary {
        Some(summary) if program.as_objects => eprintln!(rt; "{}", AsObject(summary)),
        Some(summary) => eprintln!(rt; "{summary}"),
        None => Ok(()),
    }
}

/// Says how a run of a program ends, and answers with its exit status: that of a run that failed, if its counts cannot be written.
pub fn end(rt: &HostRuntime, program: Speaker<'_>, ending: Ending<'_>) -> u8
    ensures status { IsLastStatus ending.entry result }
    ensures quiet { ending.entry.not_told ≡ 0 → ending.entry.summary ≡ None → result ≡ ending.entry.status }
{
    let ending = ending_once_told(ending, tell_counts(rt, program, ending));
    if let Some(failure) = ending.failure {
        say_failure(rt, program, failure);
    }
    ending.status
}

// Removes what runs that were ended have left beside the place of this name. What cannot be removed stays.
fn remove_beside(rt: &HostRuntime, program: Speaker<'_>, name: &str) -> io::Result<()> {
    let place = place_of(rt, name)?;
    for left in &names_beside(rt, place.as_str())? {
        if remove_left(rt, place.as_str(), left.as_str()) {
            program.notify(rt, Notice::Removed(left.as_str()));
        }
    }
    Ok(())
}

/// Removes what runs that were ended have left beside the place of this name, if there is one, and says so.
pub fn remove_all_left(rt: &HostRuntime, program: Speaker<'_>, name: Option<&str>) {
    if let Some(name) = name {
        let _ = remove_beside(rt, program, name);
    }
}

/// Relays what a request names, by a program of this name, and answers with the exit status.
pub fn relay<'n>(rt: &HostRuntime, program: &str, request: Request<'n>, names: &'n [&'n str]) -> u8
    ensures { result ≢ 2 → (answer : Result Totals Failure) × IsLastStatus (relay_ending request.entry.relay answer) result }
{
    let program = Speaker::as_faults(program, request.relay.faults);
    if let Some(status) = refuse_request(rt, program, request, names) {
        return status;
    }
    if request.batches.is_none() {
        remove_all_left(rt, program, request.output);
    }
    remove_all_left(rt, program, request.refused);
    let (answer, _unwatched) = relay_to_files(rt, program, request, names, Unwatched);
    end(rt, program, ending_of_relay(request.relay, answer))
}

/// Says why a run of a program is refused, and answers with the exit status, if it is.
pub fn refuse(rt: &HostRuntime, program: Speaker<'_>, refusal: Option<Refusal<'_>>) -> Option<u8>
    ensures { IfSome result (λ status. status ≡ 2) }
{
    let refusal = refusal?;
    program.say(rt, "refused", None, &refusal);
    Some(2)
}

/// Says why a run over the inputs of these names is refused for the files that they and its outputs are, if it is.
pub fn refuse_files(
    rt: &HostRuntime,
    program: Speaker<'_>,
    names: &[&str],
    output: Option<&str>,
    refused: Option<&str>,
) -> Option<u8>
    ensures { IfSome result (λ status. status ≡ 2) }
{
    match refusal_at(rt, names, output, refused) {
        Ok(refusal) => refuse(rt, program, refusal),
        Err(_) => {
            let fault = RunFault::OutOfMemory;
            program.say(rt, fault_name(fault), None, &fault);
            Some(2)
        }
    }
}

// Says why lines cannot go to batches that this word names, if they cannot.
fn refuse_batches(
    rt: &HostRuntime,
    program: Speaker<'_>,
    output: Option<&str>,
    refused: Option<&str>,
) -> Option<u8>
    ensures { IfSome result (λ status. status ≡ 2) }
{
    if let Some(status) = refuse(rt, program, refusal_of_batches(output, refused)) {
        return Some(status);
    }
    let word = output?;
    match batch_at(rt, batch_names_of(word)?) {
        Ok(Some(name)) => refuse(rt, program, Some(Refusal::BatchIsThere(name.as_str()))),
        Ok(None) => None,
        Err(error) => {
            say_failure(rt, program, failure_of_batch(word, 1, error));
            Some(2)
        }
    }
}

// Why the refused pieces of a request cannot go to what holds others, if they cannot.
fn refusal_of_request<'a>(rt: &HostRuntime, request: Request<'a>) -> Option<Refusal<'a>> {
    old_refusal_at(rt, request.old_pieces, request.refused?)
}

/// Says why the relay of a request is refused, if it is: for its range, or for its files.
pub fn refuse_request(
    rt: &HostRuntime,
    program: Speaker<'_>,
    request: Request<'_>,
    names: &[&str],
) -> Option<u8>
    ensures { IfSome result (λ status. status ≡ 2) }
{
    let refusal = match (request.range, names) {
        _ if request.now && SystemClock::new(rt).is_none() => Some(Refusal::NoClock),
        (Some(range), [name]) => range_refusal_at(rt, range, name),
        _ => None,
    };
    if let Some(status) = refuse(rt, program, refusal) {
        return Some(status);
    }
    if let Some(status) = refuse_files(rt, program, names, request.output, request.refused) {
        return Some(status);
    }
    if let Some(status) = refuse(rt, program, refusal_of_request(rt, request)) {
        return Some(status);
    }
    match request.batches {
        Some(_) => refuse_batches(rt, program, request.output, request.refused),
        None => None,
    }
}
