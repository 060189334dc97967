//! One line that is reused for all lines of a text.

// [again]
use influxdb_line_protocol::{ParsedLine, parse_lines};
use std::alloc::Global;

/// The number of fields and of faults of a text.
#[derive(Clone, Copy, Debug, PartialEq, Eq)]
pub struct Tally {
    pub fields: usize,
    pub faults: usize,
}

/// Counts the fields and the faults of a text. Reuses one line for all lines, so its sets keep their memory.
pub fn tally_of(alloc: Global, text: &str) -> Tally {
    let mut tally = Tally {
        fields: 0,
        faults: 0,
    };
    let mut lines = parse_lines(alloc, text);
    let mut line = ParsedLine::new(alloc);
    while let Some(answer) = lines.next_into(&mut line) {
        match answer {
            Ok(()) => tally.fields = tally.fields.saturating_add(line.field_set.len()),
            Err(_) => tally.faults = tally.faults.saturating_add(1),
        }
    }
    tally
}
// [end]
