//! What is timed: the library's calls over byte slices, for a driver in C.
//!
//! Each call over a text tests first whether it is UTF-8, and gives 0 if it is not. `lp_bench_is_utf8`
//! is that test alone, so that a driver can take its time off. No call keeps anything.
#![tactic(auto)]

mod told;

ghost use Rattle.std.specs.Prelude.{◌↔◌, IsTrue, IsUtf8};

use influxdb_line_protocol::builder::BeforeMeasurement;
use influxdb_line_protocol::{
    Dialect, EscapedStr, FieldValue, LineProtocolBuilder, ParsedLine, parse_events, parse_lines,
    read_events_in, split_lines,
};
use lp_rebuild::rebuild_in;
use std::alloc::Global;
use std::num::f64_to_bits_with_nan;
use told::Sum;

/// Whether a text is UTF-8.
#[unsafe(no_mangle)]
pub extern "C" fn lp_bench_is_utf8(text: &[u8]) -> bool
    ensures { IsTrue result ↔ IsUtf8 text.now }
{
    str::from_utf8(text).is_ok()
}

// The length of a name or a string.
fn of_text(text: &EscapedStr<'_>) -> u64 {
    text.as_str().len() as u64
}

// What a value adds to a sum.
fn of_value(value: &FieldValue<'_>) -> u64 {
    match value {
        FieldValue::I64(value) => value.cast_unsigned(),
        FieldValue::U64(value) => *value,
        FieldValue::F64(value) => value.as_str().len() as u64,
        FieldValue::String(value) => of_text(value),
        FieldValue::Boolean(value) => u64::from(*value),
    }
}

// What a value adds to a sum, with a float made a number.
fn of_number(value: &FieldValue<'_>) -> u64 {
    let FieldValue::F64(literal) = value else {
        return of_value(value);
    };
    match literal.as_str().parse::<f64>() {
        Ok(number) => f64_to_bits_with_nan(number),
        Err(_) => 0,
    }
}

// The sum of what a line holds beside its fields.
fn of_head(line: &ParsedLine<'_>) -> u64 {
    let mut sum = of_text(&line.series.measurement);
    if let Some(tags) = &line.series.tag_set {
        for (key, value) in tags.as_slice() {
            sum = sum.wrapping_add(of_text(key)).wrapping_add(of_text(value));
        }
    }
    match line.timestamp {
        Some(timestamp) => sum.wrapping_add(timestamp.cast_unsigned()),
        None => sum,
    }
}

// The sum of what a line holds.
fn of_line(line: &ParsedLine<'_>) -> u64 {
    let mut sum = of_head(line);
    for (key, value) in line.field_set.as_slice() {
        sum = sum.wrapping_add(of_text(key)).wrapping_add(of_value(value));
    }
    sum
}

// The sum of what a line holds, with its floats made numbers.
fn of_line_in_numbers(line: &ParsedLine<'_>) -> u64 {
    let mut sum = of_head(line);
    for (key, value) in line.field_set.as_slice() {
        sum = sum
            .wrapping_add(of_text(key))
            .wrapping_add(of_number(value));
    }
    sum
}

// The length of the base of a line's series, or 1 if it has none.
fn of_base(alloc: Global, line: ParsedLine<'_>) -> u64 {
    match line.series.generate_base(alloc) {
        Ok(base) => base.len() as u64,
        Err(_) => 1,
    }
}

/// Reads all items of a text, and sums what they hold: lengths of texts, and numbers. A fault counts 1.
#[unsafe(no_mangle)]
pub extern "C" fn lp_bench_parse(alloc: Global, text: &[u8]) -> u64 {
    let Ok(text) = str::from_utf8(text) else {
        return 0;
    };
    let mut sum = 0u64;
    for item in parse_lines(alloc, text) {
        let one = match &item {
            Ok(line) => of_line(line),
            Err(_) => 1,
        };
        sum = sum.wrapping_add(one);
    }
    sum
}

/// Reads all items of a text, and sums the lengths of the bases of their series. A fault counts 1, and so does a series without a base.
#[unsafe(no_mangle)]
pub extern "C" fn lp_bench_bases(alloc: Global, text: &[u8]) -> u64 {
    let Ok(text) = str::from_utf8(text) else {
        return 0;
    };
    let mut sum = 0u64;
    for item in parse_lines(alloc, text) {
        let one = match item {
            Ok(line) => of_base(alloc, line),
            Err(_) => 1,
        };
        sum = sum.wrapping_add(one);
    }
    sum
}

/// The same as `lp_bench_parse`, read into a line that is used again.
#[unsafe(no_mangle)]
pub extern "C" fn lp_bench_next_into(alloc: Global, text: &[u8]) -> u64 {
    let Ok(text) = str::from_utf8(text) else {
        return 0;
    };
    let mut items = parse_lines(alloc, text);
    let mut line = ParsedLine::new(alloc);
    let mut sum = 0u64;
    while let Some(answer) = items.next_into(&mut line) {
        let one = match answer {
            Ok(()) => of_line(&line),
            Err(_) => 1,
        };
        sum = sum.wrapping_add(one);
    }
    sum
}

/// The same as `lp_bench_parse`, from the events that a sink is told. It takes no memory.
#[unsafe(no_mangle)]
pub extern "C" fn lp_bench_events(text: &[u8]) -> u64 {
    let Ok(text) = str::from_utf8(text) else {
        return 0;
    };
    let mut sum = Sum::new();
    read_events_in(Dialect::Crate, text, &mut sum);
    sum.sum()
}

/// The same as `lp_bench_parse`, from the events that are given one after another. It takes no memory.
#[unsafe(no_mangle)]
pub extern "C" fn lp_bench_pull(text: &[u8]) -> u64 {
    let Ok(text) = str::from_utf8(text) else {
        return 0;
    };
    let mut sum = Sum::new();
    for event in parse_events(text) {
        event.tell(&mut sum);
    }
    sum.sum()
}

/// The same as `lp_bench_parse`, with each float made a number.
#[unsafe(no_mangle)]
pub extern "C" fn lp_bench_numbers(alloc: Global, text: &[u8]) -> u64 {
    let Ok(text) = str::from_utf8(text) else {
        return 0;
    };
    let mut sum = 0u64;
    for item in parse_lines(alloc, text) {
        let one = match &item {
            Ok(line) => of_line_in_numbers(line),
            Err(_) => 1,
        };
        sum = sum.wrapping_add(one);
    }
    sum
}

/// Splits a text, and counts its pieces.
#[unsafe(no_mangle)]
pub extern "C" fn lp_bench_split(text: &[u8]) -> u64 {
    let Ok(text) = str::from_utf8(text) else {
        return 0;
    };
    let mut count = 0u64;
    for _ in split_lines(text) {
        count = count.wrapping_add(1);
    }
    count
}

// Rebuilds a text into a buffer, and gives the number of bytes written; 0 if memory was refused.
fn rebuilt_len(alloc: Global, dialect: Dialect, text: &[u8]) -> u64 {
    let Ok(text) = str::from_utf8(text) else {
        return 0;
    };
    match rebuild_in(alloc, dialect, text) {
        Ok(rebuilt) => rebuilt.batch.len() as u64,
        Err(_) => 0,
    }
}

/// Rebuilds a text into a buffer, and gives the number of bytes written; 0 if memory was refused.
#[unsafe(no_mangle)]
pub extern "C" fn lp_bench_rebuild(alloc: Global, text: &[u8]) -> u64 {
    rebuilt_len(alloc, Dialect::Crate, text)
}

/// The same by the strict rules.
#[unsafe(no_mangle)]
pub extern "C" fn lp_bench_rebuild_strict(alloc: Global, text: &[u8]) -> u64 {
    rebuilt_len(alloc, Dialect::Strict, text)
}

/// The same if each newline ends a line.
#[unsafe(no_mangle)]
pub extern "C" fn lp_bench_rebuild_newline_delimited(alloc: Global, text: &[u8]) -> u64 {
    rebuilt_len(alloc, Dialect::NewlineDelimited, text)
}

// One point of a fixed shape after `lines`: three tags, four fields of different kinds, and a
// timestamp that rises with the number.
fn build_line(
    lines: LineProtocolBuilder<Vec<u8>, BeforeMeasurement>,
    number: u64,
) -> Option<LineProtocolBuilder<Vec<u8>, BeforeMeasurement>> {
    let Ok(line) = lines.measurement("weather") else {
        return None;
    };
    let Ok(line) = line.tag("city", "Bad Ems") else {
        return None;
    };
    let Ok(line) = line.tag("region", "rhineland-palatinate") else {
        return None;
    };
    let Ok(line) = line.tag("station", "ems-017.example.com") else {
        return None;
    };
    let Ok(line) = line.field("degrees", (number % 40).cast_signed()) else {
        return None;
    };
    let Ok(line) = line.field("readings", number) else {
        return None;
    };
    let Ok(line) = line.field("sky", "clear, light wind") else {
        return None;
    };
    let Ok(line) = line.field("valid", true) else {
        return None;
    };
    let timestamp = number.wrapping_add(1_690_000_000_000_000_000);
    let Ok(line) = line.timestamp(timestamp.cast_signed()) else {
        return None;
    };
    line.close_line().ok()
}

/// Builds a batch of points, and gives the number of bytes written; 0 if memory was refused.
#[unsafe(no_mangle)]
pub extern "C" fn lp_bench_build(alloc: Global, count: u64) -> u64 {
    let mut lines = LineProtocolBuilder::new(alloc);
    for number in 0..count {
        let Some(longer) = build_line(lines, number) else {
            return 0;
        };
        lines = longer;
    }
    lines.build().len() as u64
}
