//! Tells what was counted: as lines for people, as an object of JSON, or in Prometheus' text format.
//!
//! Names are escaped in each form as it asks for, so that no name makes a line of its own.

use crate::words::Report;
use lp_endings::endings::{Device, Failure};
use lp_endings::speaking::Speaker;
use lp_inputs::counted::Counts;
use lp_programs::relays::put_text;
use lp_rebuild::RunFault;
use lp_relay::{KINDS, KindCounts, put_json_text, tell_bytes};
use lp_series::{FieldKinds, MeasurementCounts, SeriesCounts};
use std::alloc::{AllocError, Global};
use std::collections::{BTreeMap, HashSet};
use std::hash::RandomState;
use std::io::{self, ErrorKind};

/// What was counted of what was read.
#[derive(Clone, Copy)]
pub(crate) struct Counted<'l> {
    pub(crate) read: Counts,
    pub(crate) counts: &'l SeriesCounts,
    /// How many items are no line.
    pub(crate) items_refused: u64,
    /// How many items were refused for each kind of fault, once all is read.
    pub(crate) refused: Option<KindCounts>,
}

// How many kinds these are.
fn number_of_kinds(kinds: FieldKinds) -> u64 {
    u64::from(kinds.float)
        .saturating_add(u64::from(kinds.integer))
        .saturating_add(u64::from(kinds.unsigned))
        .saturating_add(u64::from(kinds.string))
        .saturating_add(u64::from(kinds.boolean))
}

// How many fields of a measurement have values of more than one kind.
fn mixed_fields(counts: &MeasurementCounts) -> u64 {
    let mut mixed: u64 = 0;
    for (_, kinds) in counts.fields.iter() {
        if number_of_kinds(*kinds) > 1 {
            mixed = mixed.saturating_add(1);
        }
    }
    mixed
}

// How many fields have values of more than one kind.
fn all_mixed_fields(measurements: &BTreeMap<String, MeasurementCounts>) -> u64 {
    let mut mixed: u64 = 0;
    for (_, counts) in measurements.iter() {
        mixed = mixed.saturating_add(mixed_fields(counts));
    }
    mixed
}

// Adds the name of a kind, if it is one of them, with a mark before it if another was added.
fn put_kind(
    text: &mut String,
    start: usize,
    is_one: bool,
    mark: &str,
    name: &str,
) -> Result<(), AllocError> {
    if !is_one {
        return Ok(());
    }
    if text.len() > start {
        text.push_str(mark)?;
    }
    text.push_str(name)
}

// Adds the names of kinds, with a mark between two.
fn put_kinds(text: &mut String, kinds: FieldKinds, mark: &str) -> Result<(), AllocError> {
    let start = text.len();
    put_kind(text, start, kinds.float, mark, "float")?;
    put_kind(text, start, kinds.integer, mark, "integer")?;
    put_kind(text, start, kinds.unsigned, mark, "unsigned")?;
    put_kind(text, start, kinds.string, mark, "string")?;
    put_kind(text, start, kinds.boolean, mark, "boolean")
}

// Adds a line for each field of a measurement that has values of more than one kind.
fn put_mixed_fields(
    text: &mut String,
    name: &str,
    counts: &MeasurementCounts,
) -> Result<(), AllocError> {
    for (key, kinds) in counts.fields.iter() {
        if number_of_kinds(*kinds) > 1 {
            text.push_str("  ")?;
            tell_bytes(text, name.as_bytes())?;
            text.push_str(" ")?;
            tell_bytes(text, key.as_bytes())?;
            text.push_str(": ")?;
            put_kinds(text, *kinds, ", ")?;
            text.push_str("\n")?;
        }
    }
    Ok(())
}

// Adds a line for each measurement.
fn put_measurements(
    text: &mut String,
    measurements: &BTreeMap<String, MeasurementCounts>,
) -> Result<(), AllocError> {
    let number = measurements.len();
    writeln!(text, "{number} measurements")?;
    for (name, counts) in measurements.iter() {
        let points = counts.points;
        let series = counts.series;
        let fields = counts.fields.len();
        text.push_str("  ")?;
        tell_bytes(text, name.as_bytes())?;
        writeln!(text, ": {points} points, {series} series, {fields} fields")?;
    }
    Ok(())
}

// Adds a line for each field with values of more than one kind.
fn put_mixed(
    text: &mut String,
    measurements: &BTreeMap<String, MeasurementCounts>,
) -> Result<(), AllocError> {
    let mixed = all_mixed_fields(measurements);
    writeln!(text, "{mixed} fields with values of more than one type")?;
    for (name, counts) in measurements.iter() {
        put_mixed_fields(text, name.as_str(), counts)?;
    }
    Ok(())
}

// Adds a line for each tag key.
fn put_tags(
    text: &mut String,
    tags: &BTreeMap<String, HashSet<String, RandomState>>,
) -> Result<(), AllocError> {
    let number = tags.len();
    writeln!(text, "{number} tag keys")?;
    for (key, values) in tags.iter() {
        let number = values.len();
        text.push_str("  ")?;
        tell_bytes(text, key.as_bytes())?;
        writeln!(text, ": {number} values")?;
    }
    Ok(())
}

// Adds how many series there are.
fn put_series(text: &mut String, counts: &SeriesCounts) -> Result<(), AllocError> {
    let series = counts.series.len();
    let beyond = counts.beyond;
    if beyond == 0 {
        return writeln!(text, "{series} series");
    }
    writeln!(
        text,
        "more than {series} series: {beyond} points are of others, which --max-series leaves out below"
    )
}

// Adds lines for people.
fn put_lines(text: &mut String, counted: Counted<'_>) -> Result<(), AllocError> {
    let bytes = counted.read.bytes;
    let lines = counted.read.lines;
    let counts = counted.counts;
    let points = counts.points;
    let without_time = counts.without_time;
    writeln!(text, "{bytes} bytes, {lines} lines")?;
    writeln!(
        text,
        "{points} points, {without_time} of them without a time"
    )?;
    if let (Some(least), Some(greatest)) = (counts.least_time, counts.greatest_time) {
        writeln!(text, "times from {least} to {greatest}")?;
    }
    put_series(text, counts)?;
    put_measurements(text, &counts.measurements)?;
    put_mixed(text, &counts.measurements)?;
    put_tags(text, &counts.tags)
}

// Adds a name as a member of an object, with a comma before it if it is not the first.
fn put_member(json: &mut String, start: usize, name: &str) -> Result<(), AllocError> {
    if json.len() > start {
        json.push_str(",")?;
    }
    json.push_str("\"")?;
    put_json_text(json, name)?;
    json.push_str("\":")
}

// Adds a time of an object, or `null`.
fn put_time(json: &mut String, time: Option<i64>) -> Result<(), AllocError> {
    match time {
        Some(time) => write!(json, "{time}"),
        None => json.push_str("null"),
    }
}

// Adds the fields of a measurement, each with the names of its kinds.
fn put_json_fields(
    json: &mut String,
    fields: &BTreeMap<String, FieldKinds>,
) -> Result<(), AllocError> {
    let start = json.len();
    for (key, kinds) in fields.iter() {
        put_member(json, start, key.as_str())?;
        json.push_str("[\"")?;
        put_kinds(json, *kinds, "\",\"")?;
        json.push_str("\"]")?;
    }
    Ok(())
}

// Adds the measurements as members of an object.
fn put_json_measurements(
    json: &mut String,
    measurements: &BTreeMap<String, MeasurementCounts>,
) -> Result<(), AllocError> {
    let start = json.len();
    for (name, counts) in measurements.iter() {
        let points = counts.points;
        let series = counts.series;
        put_member(json, start, name.as_str())?;
        write!(
            json,
            "{{\"points\":{points},\"series\":{series},\"fields\":{{"
        )?;
        put_json_fields(json, &counts.fields)?;
        json.push_str("}}")?;
    }
    Ok(())
}

// Adds the tag keys as members of an object, each with how many values it has.
fn put_json_tags(
    json: &mut String,
    tags: &BTreeMap<String, HashSet<String, RandomState>>,
) -> Result<(), AllocError> {
    let start = json.len();
    for (key, values) in tags.iter() {
        let number = values.len();
        put_member(json, start, key.as_str())?;
        write!(json, "{number}")?;
    }
    Ok(())
}

// Adds how many items were refused for each kind of fault, if any was, as members of an object.
fn put_json_refused(json: &mut String, refused: &KindCounts) -> Result<(), AllocError> {
    let start = json.len();
    for kind in KINDS {
        let count = refused.of(*kind);
        if count > 0 {
            put_member(json, start, kind.name())?;
            write!(json, "{count}")?;
        }
    }
    Ok(())
}

// Adds an object of JSON on a line.
fn put_json(json: &mut String, counted: Counted<'_>) -> Result<(), AllocError> {
    let bytes = counted.read.bytes;
    let lines = counted.read.lines;
    let counts = counted.counts;
    let points = counts.points;
    let without_time = counts.without_time;
    let series = counts.series.len();
    let beyond = counts.beyond;
    write!(
        json,
        "{{\"bytes\":{bytes},\"lines\":{lines},\"points\":{points}"
    )?;
    write!(json, ",\"without_time\":{without_time},\"least_time\":")?;
    put_time(json, counts.least_time)?;
    json.push_str(",\"greatest_time\":")?;
    put_time(json, counts.greatest_time)?;
    write!(
        json,
        ",\"series\":{series},\"points_beyond\":{beyond},\"measurements\":{{"
    )?;
    put_json_measurements(json, &counts.measurements)?;
    json.push_str("},\"tag_values\":{")?;
    put_json_tags(json, &counts.tags)?;
    let items_refused = counted.items_refused;
    write!(json, "}},\"items_refused\":{items_refused},\"refused\":")?;
    let Some(refused) = counted.refused else {
        return json.push_str("null}\n");
    };
    json.push_str("{")?;
    put_json_refused(json, &refused)?;
    json.push_str("}}\n")
}

// Adds a text as the value of a label: with a backslash before a quote and a backslash, and `\n` for a newline.
fn put_label_value(text: &mut String, value: &str) -> Result<(), AllocError> {
    for letter in value.chars() {
        match letter {
            '"' => text.push_str("\\\"")?,
            '\\' => text.push_str("\\\\")?,
            '\n' => text.push_str("\\n")?,
            _ => text.push(letter)?,
        }
    }
    Ok(())
}

// Adds what a metric is, and its type.
fn put_metric(text: &mut String, name: &str, kind: &str, help: &str) -> Result<(), AllocError> {
    writeln!(text, "# HELP lp_series_{name} {help}")?;
    writeln!(text, "# TYPE lp_series_{name} {kind}")
}

// Adds a metric of one value.
fn put_value(
    text: &mut String,
    name: &str,
    kind: &str,
    help: &str,
    value: u64,
) -> Result<(), AllocError> {
    put_metric(text, name, kind, help)?;
    writeln!(text, "lp_series_{name} {value}")
}

// Adds the value of a metric for one label.
fn put_labeled(
    text: &mut String,
    name: &str,
    label: &str,
    of: &str,
    value: u64,
) -> Result<(), AllocError> {
    write!(text, "lp_series_{name}{{{label}=\"")?;
    put_label_value(text, of)?;
    writeln!(text, "\"}} {value}")
}

// What is told of each measurement.
#[derive(Clone, Copy)]
enum Told {
    Points,
    Series,
    Fields,
    MixedFields,
}

impl Told {
    // The name of its metric.
    fn name(self) -> &'static str {
        match self {
            Told::Points => "measurement_points_total",
            Told::Series => "measurement_series",
            Told::Fields => "measurement_fields",
            Told::MixedFields => "measurement_mixed_fields",
        }
    }

    // The type of its metric.
    fn kind(self) -> &'static str {
        match self {
            Told::Points => "counter",
            Told::Series | Told::Fields | Told::MixedFields => "gauge",
        }
    }

    // What its metric is.
    fn help(self) -> &'static str {
        match self {
            Told::Points => "Points of a measurement.",
            Told::Series => "Series of a measurement.",
            Told::Fields => "Fields of a measurement.",
            Told::MixedFields => "Fields of a measurement with values of more than one type.",
        }
    }

    // What it is of one measurement.
    fn of(self, counts: &MeasurementCounts) -> u64 {
        match self {
            Told::Points => counts.points,
            Told::Series => counts.series,
            Told::Fields => counts.fields.len() as u64,
            Told::MixedFields => mixed_fields(counts),
        }
    }
}

// Adds a metric of measurements.
fn put_measurement_metric(
    text: &mut String,
    told: Told,
    measurements: &BTreeMap<String, MeasurementCounts>,
) -> Result<(), AllocError> {
    put_metric(text, told.name(), told.kind(), told.help())?;
    for (name, counts) in measurements.iter() {
        put_labeled(
            text,
            told.name(),
            "measurement",
            name.as_str(),
            told.of(counts),
        )?;
    }
    Ok(())
}

// Adds the metrics of measurements.
fn put_measurement_metrics(
    text: &mut String,
    measurements: &BTreeMap<String, MeasurementCounts>,
) -> Result<(), AllocError> {
    put_measurement_metric(text, Told::Points, measurements)?;
    put_measurement_metric(text, Told::Series, measurements)?;
    put_measurement_metric(text, Told::Fields, measurements)?;
    put_measurement_metric(text, Told::MixedFields, measurements)
}

// Adds the metrics of tags.
fn put_tag_metrics(
    text: &mut String,
    tags: &BTreeMap<String, HashSet<String, RandomState>>,
) -> Result<(), AllocError> {
    put_metric(text, "tag_values", "gauge", "Values of a tag key.")?;
    for (key, values) in tags.iter() {
        put_labeled(text, "tag_values", "tag", key.as_str(), values.len() as u64)?;
    }
    Ok(())
}

// Adds how many items were refused for each kind of fault, once that is known.
fn put_refused_metrics(text: &mut String, refused: Option<KindCounts>) -> Result<(), AllocError> {
    let Some(refused) = refused else {
        return Ok(());
    };
    put_metric(
        text,
        "refused_total",
        "counter",
        "Items refused, by the kind of fault.",
    )?;
    for kind in KINDS {
        let count = refused.of(*kind) as u64;
        put_labeled(text, "refused_total", "kind", kind.name(), count)?;
    }
    Ok(())
}

// Adds a counter of one value.
fn put_counter(text: &mut String, name: &str, help: &str, value: u64) -> Result<(), AllocError> {
    put_value(text, name, "counter", help, value)
}

// Adds metrics in Prometheus' text format.
fn put_metrics(text: &mut String, counted: Counted<'_>) -> Result<(), AllocError> {
    let Counted {
        read,
        counts,
        items_refused,
        refused,
    } = counted;
    let series = counts.series.len() as u64;
    let without_time = counts.without_time;
    let beyond = "Points of series that are not kept.";
    put_counter(text, "bytes_total", "Bytes read.", read.bytes)?;
    put_counter(text, "lines_total", "Lines read.", read.lines)?;
    put_counter(text, "points_total", "Points read.", counts.points)?;
    put_counter(
        text,
        "points_without_time_total",
        "Points without a time.",
        without_time,
    )?;
    put_value(text, "series", "gauge", "Series that are kept.", series)?;
    put_counter(text, "points_beyond_total", beyond, counts.beyond)?;
    put_counter(text, "items_refused_total", "Items refused.", items_refused)?;
    put_refused_metrics(text, refused)?;
    put_measurement_metrics(text, &counts.measurements)?;
    put_tag_metrics(text, &counts.tags)
}

// What is told.
fn text_of(alloc: Global, report: Report<'_>, counted: Counted<'_>) -> Result<String, AllocError> {
    let mut text = String::new(alloc);
    if report.prometheus.is_some() {
        put_metrics(&mut text, counted)?;
    } else if report.json {
        put_json(&mut text, counted)?;
    } else {
        put_lines(&mut text, counted)?;
    }
    Ok(text)
}

// Why standard output could not be written.
fn failure_of_output<'n>(error: io::Error) -> Failure<'n> {
    Failure {
        fault: RunFault::Write,
        device: Device {
            name: None,
            batch: None,
            error: Some(error),
        },
        is_pipe_closed: matches!(error.kind(), ErrorKind::BrokenPipe),
    }
}

/// Tells what was counted, as a report says: to its file, or to standard output. What is said of the file, the program says.
///
/// # Errors
///
/// `Write` if it cannot be written, and `OutOfMemory`.
pub(crate) fn tell<'n>(
    rt: &HostRuntime,
    program: Speaker<'_>,
    report: Report<'n>,
    counted: Counted<'_>,
) -> Result<(), Failure<'n>> {
    let Ok(text) = text_of(rt.alloc(), report, counted) else {
        return Err(Failure {
            fault: RunFault::OutOfMemory,
            device: Device {
                name: None,
                batch: None,
                error: None,
            },
            is_pipe_closed: false,
        });
    };
    match report.prometheus {
        Some(name) => put_text(rt, program, name, text.as_str()),
        None => print!(rt; "{text}").map_err(|error| failure_of_output(error)),
    }
}
