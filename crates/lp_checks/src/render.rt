//! What was read, as text that can be read in one way only: each text of a line follows its length and a colon. A fault is what `{}` writes
//! of it, after the side of its range on which a number lies.

use crate::report::Report;
use influxdb_line_protocol::{
    Error, EscapedStr, FieldValue, ParsedLine, Spelled, SpelledFault, SpelledValue,
};
use std::fmt::Write;

/// A name: `S` and its text if it is a part of the input or a fixed text, and `C` if it is a copy.
pub fn render_name(report: &mut Report<'_>, name: &EscapedStr<'_>) {
    let letter = match name {
        EscapedStr::SingleSlice(_) => "S",
        EscapedStr::CopiedValue(_) => "C",
    };
    report.push_sized(letter, name.as_str().as_bytes());
}

/// A name as it is spelled, in the form of `render_name`: a copy if it is neither plain nor a known escape alone. A `!` follows if
/// `eq_text` denies the text that is put for the name, or says otherwise than that the spelling is the text if no escape makes it shorter.
pub fn render_spelled(report: &mut Report<'_>, name: Spelled<'_>) {
    let spelled = name.spelled();
    let len = name.len();
    let is_escape = spelled.len() == 2 && len == 1;
    let letter = if name.is_plain() || is_escape {
        'S'
    } else {
        'C'
    };
    let _ = write!(report, "{letter}{len}:");
    let at = report.len;
    let mut is_told = false;
    if at <= report.out.len() && len <= report.out.len() - at {
        let place = &mut report.out[at..at + len];
        name.put(place);
        if let Ok(text) = str::from_utf8(place) {
            is_told = name.eq_text(text) && name.eq_text(spelled) == (len == spelled.len());
        }
    }
    report.len = at.saturating_add(len);
    if !is_told {
        report.push(b"!");
    }
}

/// A value: a letter for its variant, and the number, the text or the word.
pub fn render_value(report: &mut Report<'_>, value: &FieldValue<'_>) {
    match value {
        FieldValue::String(text) => {
            report.push(b"s");
            render_name(report, text);
        }
        FieldValue::I64(number) => render_spelled_value(report, SpelledValue::I64(*number)),
        FieldValue::U64(number) => render_spelled_value(report, SpelledValue::U64(*number)),
        FieldValue::F64(literal) => render_spelled_value(report, SpelledValue::F64(*literal)),
        FieldValue::Boolean(value) => render_spelled_value(report, SpelledValue::Boolean(*value)),
    }
}

/// A value as it is spelled, in the form of `render_value`.
pub fn render_spelled_value(report: &mut Report<'_>, value: SpelledValue<'_>) {
    match value {
        SpelledValue::I64(number) => {
            let _ = write!(report, "i{number}");
        }
        SpelledValue::U64(number) => {
            let _ = write!(report, "u{number}");
        }
        SpelledValue::F64(literal) => report.push_sized("f", literal.as_str().as_bytes()),
        SpelledValue::String(text) => {
            report.push(b"s");
            render_spelled(report, text);
        }
        SpelledValue::Boolean(value) => {
            let _ = write!(report, "{value}");
        }
    }
}

/// A line: `line`, the raw text of its series, its measurement, its tags, of an empty set a comma, its fields, and its timestamp after `at`.
pub fn render_line(report: &mut Report<'_>, line: &ParsedLine<'_>) {
    report.push_sized("line ", line.series.raw_input.as_bytes());
    report.push(b" ");
    render_name(report, &line.series.measurement);
    if let Some(tags) = &line.series.tag_set {
        if tags.len() == 0 {
            report.push(b",");
        }
        for (key, value) in tags.as_slice() {
            report.push(b",");
            render_name(report, key);
            report.push(b"=");
            render_name(report, value);
        }
    }
    for (key, value) in line.field_set.as_slice() {
        report.push(b" ");
        render_name(report, key);
        report.push(b"=");
        render_value(report, value);
    }
    if let Some(timestamp) = line.timestamp {
        let _ = write!(report, " at {timestamp}");
    }
}

/// A fault.
pub fn render_fault(report: &mut Report<'_>, fault: &Error) {
    if let Error::IntegerValueInvalid { source, .. }
    | Error::UIntegerValueInvalid { source, .. }
    | Error::TimestampValueInvalid { source, .. } = fault
    {
        let _ = write!(report, "{source:?} ");
    }
    let _ = write!(report, "{fault}");
}

/// A fault as it is spelled, in the form of `render_fault`.
pub fn render_spelled_fault(report: &mut Report<'_>, fault: SpelledFault<'_>) {
    if let SpelledFault::IntegerValueInvalid { source, .. }
    | SpelledFault::UIntegerValueInvalid { source, .. }
    | SpelledFault::TimestampValueInvalid { source, .. } = fault
    {
        let _ = write!(report, "{source:?} ");
    }
    let _ = write!(report, "{fault}");
}

/// A copy that was asked for: its text, or that memory was refused.
pub fn render_copy<E: Drop>(report: &mut Report<'_>, copy: &Result<String, E>) {
    match copy {
        Ok(text) => report.push_sized("", text.as_bytes()),
        Err(_) => report.push(b"out of memory"),
    }
}
