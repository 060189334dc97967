//! Prints the results of the callers that read a text and write it again.

use crate::admitted::append;
use crate::again::{Tally, tally_of};
use crate::bases::lines_by_series;
use crate::grouped::{group, sums};
use crate::keys::{host, is_of_host};
use crate::numbers::whole_number;
use crate::pulled::first_fault;
use crate::rebuilt::cleaned;
use crate::strict::faults_in;
use crate::tagged::count_tagged;
use crate::values::{number, text};
use crate::written::write_again;
use influxdb_line_protocol::builder::NoRoom;
use influxdb_line_protocol::{Dialect, LineProtocolBuilder, ParsedLine, parse_lines};
use std::alloc::{AllocFailed, Global};
use std::io;

// What is asked of a line: the numbers and the text of its field `a`, and its host.
fn print_line(rt: &impl Print, line: &ParsedLine<'_>) -> io::Result<()> {
    let whole = whole_number(line, "a");
    let value = line.field_value("a");
    let number = value.and_then(number);
    let text = value.and_then(text);
    let (host, is_of_a) = (host(line), is_of_host(line, "A"));
    println!(rt;
        "{}: {whole:?}, {number:?}, {text:?}, {host:?}, {is_of_a}",
        line.series
    )
}

// What is asked of each line.
fn print_each(rt: &impl Print, lines: &[ParsedLine<'_>]) -> io::Result<()> {
    for line in lines {
        print_line(rt, line)?;
    }
    Ok(())
}

// How many lines each series has.
fn print_series(rt: &impl Print, alloc: Global, text: &str) -> io::Result<()> {
    match lines_by_series(alloc, text) {
        Ok(counts) => {
            for (base, count) in counts.iter() {
                println!(rt; "{base}: {count}")?;
            }
            Ok(())
        }
        Err(fault) => println!(rt; "no series: {fault}"),
    }
}

// The lines of a text.
fn lines_of(alloc: Global, text: &str) -> Result<Vec<ParsedLine<'_>>, AllocFailed<ParsedLine<'_>>> {
    let mut lines = Vec::new(alloc);
    for item in parse_lines(alloc, text) {
        if let Ok(line) = item {
            lines.push(line)?;
        }
    }
    Ok(lines)
}

// How many series a text has, and the sum of the field `f` of each.
fn print_groups(rt: &impl Print, alloc: Global, lines: &[ParsedLine<'_>]) -> io::Result<()> {
    let (Ok(groups), Ok(sums)) = (group(alloc, lines), sums(alloc, lines, "f")) else {
        return println!(rt; "no groups");
    };
    println!(rt; "groups: {}", groups.len())?;
    for (key, sum) in sums.iter() {
        println!(rt; "{key}: {sum}")?;
    }
    Ok(())
}

// The lines that read back, written again.
fn written(alloc: Global, lines: &[ParsedLine<'_>]) -> Result<Vec<u8>, NoRoom> {
    let mut written = LineProtocolBuilder::new(alloc);
    for line in lines {
        if line.field_set.len() > 0 {
            written = write_again(written, line)?;
        }
    }
    Ok(written.build())
}

// Returns the lines that read back, written again, and how many lines were left out.
fn appended(alloc: Global, lines: &[ParsedLine<'_>]) -> Result<(Vec<u8>, u64), NoRoom> {
    let mut appended = LineProtocolBuilder::new(alloc);
    let mut left_out = 0;
    for line in lines {
        appended = append(appended, line, &mut left_out)?;
    }
    Ok((appended.build(), left_out))
}

// What is written of lines.
fn print_written(rt: &impl Print, alloc: Global, lines: &[ParsedLine<'_>]) -> io::Result<()> {
    if let Ok(written) = written(alloc, lines) {
        println!(rt; "written <{}>", written.as_slice().escape_ascii())?;
    }
    if let Ok((appended, left_out)) = appended(alloc, lines) {
        println!(rt;
            "appended <{}>, {left_out} left out",
            appended.as_slice().escape_ascii()
        )?;
    }
    Ok(())
}

// What is carried and refused of a text.
fn print_cleaned(rt: &impl Print, alloc: Global, text: &str) -> io::Result<()> {
    let cleaned = cleaned(alloc, text)?;
    let (batch, faults) = (cleaned.batch.as_slice(), cleaned.faults.as_slice());
    println!(rt; "carried {} <{}>", cleaned.carried, batch.escape_ascii())?;
    println!(rt; "refused {} <{}>", cleaned.refused, faults.escape_ascii())
}

// The first fault of a text.
fn print_fault(rt: &impl Print, text: &str) -> io::Result<()> {
    match first_fault(text) {
        Some(fault) => println!(rt; "first fault: {fault}"),
        None => println!(rt; "no fault"),
    }
}

// How many fields, faults and tagged lines a text has.
fn print_counts(rt: &impl Print, alloc: Global, text: &str) -> io::Result<()> {
    let Tally { fields, faults } = tally_of(alloc, text);
    let by_crate = faults_in(alloc, Dialect::Crate, text);
    let by_strict = faults_in(alloc, Dialect::Strict, text);
    let spaced = count_tagged(text, "t", "a b");
    let plain = count_tagged(text, "t", "a");
    println!(rt; "{fields} fields, {faults} faults: {by_crate} by the crate, {by_strict} strict")?;
    println!(rt; "{spaced} lines with t=a b, {plain} with t=a")
}

/// Prints the results of the callers for a text.
pub fn print_answers(rt: &impl Print, alloc: Global, text: &str) -> io::Result<()> {
    println!(rt; "\ntext <{}>", text.as_bytes().escape_ascii())?;
    let lines = lines_of(alloc, text)?;
    print_each(rt, lines.as_slice())?;
    print_counts(rt, alloc, text)?;
    print_fault(rt, text)?;
    print_series(rt, alloc, text)?;
    print_groups(rt, alloc, lines.as_slice())?;
    print_written(rt, alloc, lines.as_slice())?;
    print_cleaned(rt, alloc, text)
}
