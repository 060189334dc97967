//! The library's calls over byte slices, for the drivers in `checks/`, where no call of `lp_c` tells what they ask for.
//!
//! What a call gives is a report: entries of text, one after another in `out`, and where each of them ends in `ends`. Each
//! call answers the number of entries; those that have no room are counted, and not kept. No report takes memory, and no call keeps any.
//! `dialect` is the number of a dialect: 0 for that of the crate, 1 for the strict one, and 2 for the newline-delimited one.
#![tactic(auto)]

mod calls;
mod devices;
mod events;
mod influx;
mod items;
mod render;
mod report;
mod series;
mod settings;
mod streams;

ghost use Rattle.std.specs.Prelude.{IsUtf8};

use calls::{Lines, Parts};
use devices::{Stepped, SteppedRoom, Ticks};
use events::Items;
use influxdb_line_protocol::builder::Unwritten;
use influxdb_line_protocol::{
    BoundedLineStream, Dialect, EscapedStr, FieldSet, LineProtocolBuilder, LineStream, ParsedLine,
    Series, TagSet, is_admitted, parse_events_in, parse_lines_in, read_events_in,
    write_admitted_line, write_admitted_line_in, write_line,
};
use items::{EVENTS, PULLED, REUSED};
use lp_influx::influx_line;
use lp_rebuild::{Reading, RunFault, Sink, Source, Writing, run_in, status};
use lp_relay::{
    Inputs, KINDS, Outputs, Relayed, Settings, part_ends, relay, relay_inputs, relay_now,
};
use lp_series::SeriesCounter;
use report::Report;
use std::alloc::Global;
use std::fmt::Write;
use std::hash::RandomState;
use streams::AnyStream;

// The dialects, at their numbers.
const DIALECTS: [Dialect; 3] = [Dialect::Crate, Dialect::Strict, Dialect::NewlineDelimited];

/// The items of a text, read and told in the way of this number, as `items` says.
#[unsafe(no_mangle)]
pub extern "C" fn lp_checks_items(
    alloc: Global,
    way: u32,
    dialect: u32,
    text: &[u8],
    out: &mut [u8],
    ends: &mut [u64],
) -> u64
    requires { IsUtf8 text.now }
{
    let text = unsafe { str::from_utf8_unchecked(text) };
    let dialect = DIALECTS[(dialect % 3) as usize];
    let mut items = Items {
        report: Report::new(out, ends),
    };
    match way {
        EVENTS => read_events_in(dialect, text, &mut items),
        PULLED => {
            for event in parse_events_in(dialect, text) {
                event.tell(&mut items);
            }
        }
        REUSED => items::report_reused(alloc, dialect, text, &mut items.report),
        _ => {
            for item in parse_lines_in(alloc, dialect, text) {
                items::report_item(alloc, way, &mut items.report, item);
            }
        }
    }
    items.report.count
}

/// The calls of one stream that `steps` spell over a text, as `streams` says, with `limit` as the greatest length of a piece if
/// `is_bounded` is set. No entry if memory was refused twice, or if the text has fewer bytes than are pushed.
#[unsafe(no_mangle)]
pub extern "C" fn lp_checks_calls(
    alloc: Global,
    dialect: u32,
    is_bounded: bool,
    limit: usize,
    text: &[u8],
    steps: &[usize],
    out: &mut [u8],
    ends: &mut [u64],
) -> u64 {
    let mut report = Report::new(out, ends);
    let dialect = DIALECTS[(dialect % 3) as usize];
    let mut stream = if is_bounded {
        AnyStream::Bounded(BoundedLineStream::new_in(alloc, dialect, limit))
    } else {
        AnyStream::Whole(LineStream::new_in(alloc, dialect))
    };
    let mut left = text;
    for step in steps {
        match streams::make_call(&mut report, &mut stream, left, *step) {
            Some(rest) => left = rest,
            None => return 0,
        }
    }
    report.count
}

/// Makes the calls of a builder that `program` spells, as `calls` says, over a `Vec` with `reserved` bytes of memory, and
/// reports the bytes, the open line ended. `refused_at` gets the place of the call that was refused, counted from 0. That
/// call is made again if `again` is set; if it is not, no further call is made. No entry if a second call or the
/// reservation was refused, or if a call is none of the builder's state.
#[unsafe(no_mangle)]
pub extern "C" fn lp_checks_build(
    alloc: Global,
    program: &[u8],
    reserved: u64,
    again: bool,
    refused_at: &mut u64,
    out: &mut [u8],
    ends: &mut [u64],
) -> u64 {
    let mut report = Report::new(out, ends);
    let Ok(bytes) = Vec::with_capacity(alloc, reserved as usize) else {
        return 0;
    };
    let lines = Lines::Closed(LineProtocolBuilder::new_with(bytes));
    let Some(lines) = calls::make_calls(alloc, lines, program, again, refused_at) else {
        return 0;
    };
    let Some(bytes) = calls::finish(lines) else {
        return 0;
    };
    report.push(bytes.as_slice());
    report.end();
    report.count
}

// What a builder holds after this line, by `write_admitted_line_in` in a dialect, or else by `write_admitted_line`, and then the line `m a=1i`.
fn report_next_line(
    alloc: Global,
    report: &mut Report<'_>,
    dialect: Option<Dialect>,
    line: &ParsedLine<'_>,
) {
    let builder = LineProtocolBuilder::new(alloc);
    let answer = match dialect {
        Some(dialect) => write_admitted_line_in(builder, dialect, line),
        None => write_admitted_line(builder, line),
    };
    let builder = match answer {
        Ok(builder) => builder,
        Err(Unwritten::NotAdmitted(builder)) => builder,
        Err(Unwritten::Refused(_)) => {
            report.end();
            return;
        }
    };
    if let Ok(builder) = calls::write_lines(alloc, builder, "m a=1i") {
        report.push(builder.build().as_slice());
    }
    report.end();
}

/// Of a line that `program` spells, as if it was read from `raw` and then changed, an entry each: what `write_line` writes, or nothing if it
/// has no field; whether it is admitted and has a field; what a builder holds after `write_admitted_line` and the line `m a=1i`, and the same
/// after `write_admitted_line_in` in the strict dialect; what is shown of the line, of its series and of each of its values; and the base of
/// the series, or its fault. It has a tag set if it has a tag or `has_tag_set` is set. No entry if memory for it was refused, or if
/// `program` spells no calls.
#[unsafe(no_mangle)]
pub extern "C" fn lp_checks_point<'t>(
    alloc: Global,
    raw: &'t [u8],
    has_tag_set: bool,
    program: &'t [u8],
    out: &mut [u8],
    ends: &mut [u64],
) -> u64
    requires { IsUtf8 raw.now }
{
    let mut report = Report::new(out, ends);
    let mut parts = Parts {
        measurement: "",
        tags: TagSet::new(alloc),
        field_set: FieldSet::new(alloc),
        timestamp: None,
    };
    if !calls::set_parts(program, &mut parts) {
        return 0;
    }
    let Parts {
        measurement,
        tags,
        field_set,
        timestamp,
    } = parts;
    let line = ParsedLine {
        series: Series {
            raw_input: unsafe { str::from_utf8_unchecked(raw) },
            measurement: EscapedStr::from(measurement),
            tag_set: if has_tag_set || tags.len() > 0 {
                Some(tags)
            } else {
                None
            },
        },
        field_set,
        timestamp,
    };
    let has_field = line.field_set.len() > 0;
    if has_field && let Ok(builder) = write_line(LineProtocolBuilder::new(alloc), &line) {
        report.push(builder.build().as_slice());
    }
    report.end();
    let is_admitted = has_field && is_admitted(&line);
    let _ = write!(report, "{is_admitted}");
    report.end();
    report_next_line(alloc, &mut report, None, &line);
    report_next_line(alloc, &mut report, Some(Dialect::Strict), &line);
    items::report_shown(&mut report, &line);
    items::report_base(alloc, &mut report, line);
    report.count
}

// The ways of `lp_checks_relay`.
const RUN: u32 = 1;

const NOW: u32 = 2;

const INPUTS: u32 = 3;

// Tells how many items a relay carried and refused, and for which kinds of faults. The answer of `lp_checks_relay`.
fn tell(
    relayed: Result<Relayed, RunFault>,
    counts: &mut [u64; 3],
    kinds: &mut [u64; KINDS.len()],
) -> u8 {
    let relayed = match relayed {
        Ok(relayed) => relayed,
        Err(RunFault::Read) => return 1,
        Err(RunFault::NotUtf8) => return 2,
        Err(RunFault::OutOfMemory) => return 3,
        Err(RunFault::Write) => return 4,
    };
    counts[0] = relayed.carried as u64;
    counts[1] = relayed.refused as u64;
    if let Some(all) = relayed.kinds {
        for (count, kind) in kinds.iter_mut().zip(KINDS.iter()) {
            *count = all.of(*kind) as u64;
        }
    }
    0
}

// Relays what a reader gives, or these inputs, in the way of this number, as `lp_checks_relay` says. `exit` gets the status of a run.
fn relay_by<R: Source, L: Sink, F: Sink, P: Sink>(
    alloc: Global,
    way: u32,
    number: i64,
    settings: Settings<'_>,
    inputs: &[u8],
    reader: &mut R,
    outputs: &mut Outputs<L, F, P>,
    exit: &mut u64,
) -> Result<Relayed, RunFault> {
    match way {
        RUN => {
            let (lines, faults) = (&mut outputs.lines, &mut outputs.faults);
            let run = run_in(alloc, settings.dialect, reader, lines, faults);
            *exit = status(&run) as u64;
            let rebuilt = run?;
            Ok(Relayed {
                carried: rebuilt.carried,
                refused: rebuilt.refused,
                kinds: None,
            })
        }
        NOW => relay_now(
            alloc,
            settings,
            reader,
            &mut Ticks { next: number },
            outputs,
        ),
        INPUTS => {
            let first = inputs.len().min(number.cast_unsigned() as usize);
            let (first, second) = inputs.split_at(first);
            let texts: &[&[u8]] = &[first, second];
            let none: &[u8] = b"";
            let mut inputs = Inputs {
                reader: none,
                next: texts,
            };
            relay_inputs(alloc, settings, &["a", "b"], &mut inputs, outputs)
        }
        _ => relay(alloc, settings, reader, outputs),
    }
}

/// Relays `input` by the settings that `letters` spell, as `settings` says, over devices, as `devices` says: in the way 0 by `relay`; in the
/// way `RUN` by `run_in`, by their dialect; and in the way `NOW` by `relay_now`, where the clock tells `number`, and one more at each read. In
/// the way `INPUTS` it relays two inputs by `relay_inputs`: the first `number` bytes of `inputs`, and the rest of them.
///
/// Each device tells of itself, and goes on from what is told there. `counts` gets, if it came to its end, how many items were carried and
/// how many refused, and after them the status of the program of a run. `kinds` gets, if kinds are counted, how many items were refused for
/// each kind of fault, in their order. The answer is 0 if it came to its end, 1 if the reader failed, 2 if the bytes are not UTF-8, 3 if
/// memory was refused, and 4 if a writer failed.
#[unsafe(no_mangle)]
pub extern "C" fn lp_checks_relay(
    alloc: Global,
    way: u32,
    letters: &[u8],
    number: i64,
    input: &[u8],
    inputs: &[u8],
    steps: &[usize],
    told: &mut [u64; 3],
    out: &mut [u8],
    out_steps: &[usize],
    out_told: &mut [u64; 3],
    err: &mut [u8],
    err_steps: &[usize],
    err_told: &mut [u64; 3],
    refused: &mut [u8],
    refused_told: &mut [u64; 3],
    counts: &mut [u64; 3],
    kinds: &mut [u64; KINDS.len()],
) -> u8 {
    let settings = settings::spelled(letters);
    let mut reader = Reading::new(Stepped::new(input, steps, told));
    let mut outputs = Outputs {
        lines: Writing::new(SteppedRoom::new(out, out_steps, out_told)),
        faults: Writing::new(SteppedRoom::new(err, err_steps, err_told)),
        refused: Writing::new(SteppedRoom::new(refused, &[], refused_told)),
    };
    let exit = &mut counts[2];
    let relayed = relay_by(
        alloc,
        way,
        number,
        settings,
        inputs,
        &mut reader,
        &mut outputs,
        exit,
    );
    tell(relayed, counts, kinds)
}

/// Where a text is cut into `count` parts: `places` gets the end of each. How many there are; none if memory was refused.
#[unsafe(no_mangle)]
pub extern "C" fn lp_checks_part_ends(
    alloc: Global,
    dialect: u32,
    text: &[u8],
    count: usize,
    places: &mut [u64],
) -> u64 {
    let Ok(ends) = part_ends(alloc, DIALECTS[(dialect % 3) as usize], text, count) else {
        return 0;
    };
    for (place, end) in places.iter_mut().zip(ends.iter()) {
        *place = *end as u64;
    }
    ends.len() as u64
}

/// What a counter of series holds, as `series` says it, after each part of a text that comes in parts of these lengths, and after its end.
/// A line may have `limit` bytes, and `max_series` series are kept. No entry if the text has fewer bytes than its parts.
#[unsafe(no_mangle)]
pub extern "C" fn lp_checks_series(
    alloc: Global,
    dialect: u32,
    limit: usize,
    max_series: usize,
    text: &[u8],
    lens: &[usize],
    out: &mut [u8],
    ends: &mut [u64],
) -> u64 {
    let mut report = Report::new(out, ends);
    let Ok(hashes) = RandomState::new(&series::NoSource) else {
        return 0;
    };
    let mut counter = SeriesCounter::new(
        alloc,
        hashes,
        DIALECTS[(dialect % 3) as usize],
        limit,
        max_series,
    );
    let mut left = text;
    for len in lens {
        let Some((part, rest)) = left.split_at_checked(*len) else {
            return 0;
        };
        left = rest;
        let answer = counter.push(part);
        series::report_counter(&mut report, answer, &counter);
    }
    let answer = counter.finish();
    series::report_counter(&mut report, answer, &counter);
    report.count
}

/// What InfluxDB 1.x reads of a line, as `influx` says it: one entry, or none. Where memory was refused, the entry is empty.
#[unsafe(no_mangle)]
pub extern "C" fn lp_checks_influx(
    alloc: Global,
    text: &[u8],
    out: &mut [u8],
    ends: &mut [u64],
) -> u64 {
    let mut report = Report::new(out, ends);
    match &influx_line(alloc, text) {
        Ok(Some(line)) => {
            influx::render_influx(&mut report, line);
            report.end();
        }
        Ok(None) => {}
        Err(_) => report.end(),
    }
    report.count
}
