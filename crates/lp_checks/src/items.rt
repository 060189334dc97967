//! The items of a text, read in several ways, and what is told of each of them.
//!
//! | way | read | each item |
//! |---|---|---|
//! | `ITEMS` | by `parse_lines_in` | as `render` has it |
//! | `REUSED` | by `next_into`, into one line that is used again | the same |
//! | `EVENTS` | by the events that a sink is told; it takes no memory | the same |
//! | `PULLED` | by the events that come one after another; it takes no memory | the same |
//! | `BASES` | as `ITEMS` | of a line `borrowed` or `owned`, and the base of its series, or its fault |
//! | `KEYS` | as `ITEMS` | of a line an entry for its key, the hash of that, whether its series is itself, the key that its text begins with or `None`, and how many columns it has, if its sets are small |
//! | `SHOWN` | as `ITEMS` | what `{}` writes: of a line an entry of it, one of its series, and one of each of its values |
//! | `COPIES` | as `ITEMS` | of a line an entry for copies of its measurement by `clone`, by `to_string` and by `into_string` of a slice of the same text, and for the measurement; then for a copy of each of its values by `clone`, and for the value |

use crate::render::{self, render_copy, render_fault, render_line, render_name, render_value};
use crate::report::Report;
use influxdb_line_protocol::{
    Dialect, Error, EscapedStr, ParsedLine, hash_series, key_of_text, parse_lines_in, same_series,
};
use std::alloc::Global;
use std::borrow::CowStr;
use std::fmt::Write;

pub const REUSED: u32 = 1;

pub const EVENTS: u32 = 2;

pub const PULLED: u32 = 3;

const BASES: u32 = 4;

const KEYS: u32 = 5;

const SHOWN: u32 = 6;

const COPIES: u32 = 7;

/// The base of a line's series, or its fault.
pub fn report_base(alloc: Global, report: &mut Report<'_>, line: ParsedLine<'_>) {
    match &line.series.generate_base(alloc) {
        Ok(CowStr::Borrowed(text)) => report.push_sized("borrowed ", text.as_bytes()),
        Ok(CowStr::Owned(text)) => report.push_sized("owned ", text.as_bytes()),
        Err(fault) => render_fault(report, fault),
    }
    report.end();
}

// Of a line's series the key, the hash of the key, whether the series is itself, the key that its text begins with, and its columns.
fn report_key(alloc: Global, report: &mut Report<'_>, line: &ParsedLine<'_>) {
    let series = &line.series;
    render_copy(report, &series.key(alloc));
    report.end();
    match hash_series(alloc, series) {
        Ok(hash) => {
            let _ = write!(report, "{hash}");
        }
        Err(_) => report.push(b"out of memory"),
    }
    report.end();
    match same_series(alloc, &line.series, &line.series) {
        Ok(same) => {
            let _ = write!(report, "{same}");
        }
        Err(_) => report.push(b"out of memory"),
    }
    report.end();
    report.push(key_of_text(series.raw_input).unwrap_or("None").as_bytes());
    report.end();
    let tags = match &series.tag_set {
        Some(tags) => tags.len(),
        None => 0,
    };
    if tags < 100 && line.field_set.len() < 100 {
        let columns = line.column_count();
        let _ = write!(report, "{columns}");
    }
    report.end();
}

/// What is shown of a line, of its series, and of each of its values.
pub fn report_shown(report: &mut Report<'_>, line: &ParsedLine<'_>) {
    let series = &line.series;
    let _ = write!(report, "{line}");
    report.end();
    let _ = write!(report, "{series}");
    report.end();
    for (_, value) in line.field_set.as_slice() {
        let _ = write!(report, "{value}");
        report.end();
    }
}

// The copies of a line's measurement and of its values.
fn report_copies(alloc: Global, report: &mut Report<'_>, line: &ParsedLine<'_>) {
    let name = &line.series.measurement;
    match &name.clone(alloc) {
        Ok(copy) => render_name(report, copy),
        Err(_) => report.push(b"out of memory"),
    }
    report.end();
    render_copy(report, &name.to_string(alloc));
    report.end();
    render_copy(report, &EscapedStr::from(name.as_str()).into_string(alloc));
    report.end();
    render_name(report, name);
    report.end();
    for (_, value) in line.field_set.as_slice() {
        match &value.clone(alloc) {
            Ok(copy) => render_value(report, copy),
            Err(_) => report.push(b"out of memory"),
        }
        report.end();
        render_value(report, value);
        report.end();
    }
}

/// An item, by its way.
pub fn report_item(
    alloc: Global,
    way: u32,
    report: &mut Report<'_>,
    item: Result<ParsedLine<'_>, Error>,
) {
    match item {
        Ok(line) => match way {
            BASES => report_base(alloc, report, line),
            KEYS => report_key(alloc, report, &line),
            SHOWN => report_shown(report, &line),
            COPIES => report_copies(alloc, report, &line),
            _ => {
                render_line(report, &line);
                report.end();
            }
        },
        Err(fault) => {
            if way == SHOWN {
                let _ = write!(report, "{fault}");
            } else {
                render_fault(report, &fault);
            }
            report.end();
        }
    }
}

/// Each item of a text, read into one line.
pub fn report_reused(alloc: Global, dialect: Dialect, text: &str, report: &mut Report<'_>) {
    let mut lines = parse_lines_in(alloc, dialect, text);
    let mut line = ParsedLine::new(alloc);
    for _ in 0..=text.len() {
        match &lines.next_into(&mut line) {
            Some(Ok(())) => render_line(report, &line),
            Some(Err(fault)) => render_fault(report, fault),
            None => break,
        }
        report.end();
    }
}
