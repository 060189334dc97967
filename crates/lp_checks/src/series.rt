//! What a counter of series holds, as lines of text.
//!
//! The first line is `out of memory` if the call before it was refused. The next one has the counts of all lines:
//! `POINTS WITHOUT_TIME LEAST_TIME GREATEST_TIME BEYOND REFUSED`, where a time that is missing is `none`. Each other line is an entry of a
//! table, with its count last, or with what it holds:
//!
//! | line | of |
//! |---|---|
//! | `series KEY POINTS` | a series |
//! | `points MEASUREMENT POINTS` | a measurement |
//! | `keys MEASUREMENT SERIES` | a measurement |
//! | `field MEASUREMENT KEY FLOAT,INTEGER,UNSIGNED,STRING,BOOLEAN` | a field: `true` for each type that its values have |
//! | `tag KEY VALUE` | a value of a tag |

use crate::report::Report;
use lp_series::{SeriesCounter, SeriesCounts};
use std::alloc::AllocError;
use std::fmt::Write;
use std::io;
use std::random::RandomSource;

/// A source of random numbers that gives none, so that each call hashes alike.
pub struct NoSource;

impl RandomSource for NoSource {
    fn fill_bytes(&self, _bytes: &mut [u8]) -> io::Result<()> {
        Ok(())
    }
}

// The tables.
fn render_tables(report: &mut Report<'_>, counts: &SeriesCounts) {
    for (key, points) in counts.series.iter() {
        let key = key.as_str();
        let _ = writeln!(report, "series {key} {points}");
    }
    for (name, of) in counts.measurements.iter() {
        let name = name.as_str();
        let points = of.points;
        let series = of.series;
        let _ = writeln!(report, "points {name} {points}");
        let _ = writeln!(report, "keys {name} {series}");
        for (key, kinds) in of.fields.iter() {
            let key = key.as_str();
            let float = kinds.float;
            let integer = kinds.integer;
            let unsigned = kinds.unsigned;
            let string = kinds.string;
            let boolean = kinds.boolean;
            let _ = writeln!(
                report,
                "field {name} {key} {float},{integer},{unsigned},{string},{boolean}"
            );
        }
    }
    for (key, values) in counts.tags.iter() {
        let key = key.as_str();
        for value in values.iter() {
            let value = value.as_str();
            let _ = writeln!(report, "tag {key} {value}");
        }
    }
}

/// Reports what a counter holds after this answer, as an entry.
pub fn report_counter(
    report: &mut Report<'_>,
    answer: Result<(), AllocError>,
    counter: &SeriesCounter,
) {
    if answer.is_err() {
        report.push(b"out of memory\n");
    }
    let counts = counter.counts();
    let points = counts.points;
    let without_time = counts.without_time;
    let beyond = counts.beyond;
    let refused = counter.refused();
    let _ = write!(report, "{points} {without_time} ");
    for time in [counts.least_time, counts.greatest_time] {
        match time {
            Some(time) => {
                let _ = write!(report, "{time} ");
            }
            None => report.push(b"none "),
        }
    }
    let _ = writeln!(report, "{beyond} {refused}");
    render_tables(report, counts);
    report.end();
}
