//! The items of a text from the events that a sink is told, in the form that `render` gives them, without memory.

ghost use Rattle.std.specs.Prelude.{⊤};

use crate::render;
use crate::report::Report;
use influxdb_line_protocol::{EventSink, Spelled, SpelledFault, SpelledValue};
use std::fmt::Write;

/// Items, as they are told: an entry each.
#[derive(Drop)]
pub struct Items<'b> {
    pub report: Report<'b>,
}

impl<'a> EventSink<'a> for Items<'_> {
    ghost takes = { λ _ _ _. ⊤ };

    fn measurement(&mut self, name: Spelled<'a>) {
        render::render_spelled(&mut self.report, name);
    }

    fn tag(&mut self, key: Spelled<'a>, value: Spelled<'a>) {
        self.report.push(b",");
        render::render_spelled(&mut self.report, key);
        self.report.push(b"=");
        render::render_spelled(&mut self.report, value);
    }

    fn field(&mut self, key: Spelled<'a>, value: SpelledValue<'a>) {
        self.report.push(b" ");
        render::render_spelled(&mut self.report, key);
        self.report.push(b"=");
        render::render_spelled_value(&mut self.report, value);
    }

    // The head of a line is known at its end alone, and is moved to its front if all of the line has room.
    fn end(&mut self, series: &'a str, timestamp: Option<i64>) {
        let report = &mut self.report;
        if let Some(timestamp) = timestamp {
            let _ = write!(report, " at {timestamp}");
        }
        let told = report.len.saturating_sub(report.start);
        report.push_sized("line ", series.as_bytes());
        report.push(b" ");
        if report.start <= report.len && report.len <= report.out.len() {
            let entry = &mut report.out[report.start..report.len];
            let head = entry.len().saturating_sub(told);
            entry.rotate_right(head);
        }
        report.end();
    }

    // What was told of the line is no line.
    fn fault(&mut self, fault: SpelledFault<'a>) {
        self.report.len = self.report.start;
        render::render_spelled_fault(&mut self.report, fault);
        self.report.end();
    }
}
