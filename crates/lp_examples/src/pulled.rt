//! The first fault of a text, by its events.

// [pulled]
use influxdb_line_protocol::{Event, SpelledFault, parse_events};

/// Returns the first fault of a text. Reads no line after it, and takes no memory.
pub fn first_fault(text: &str) -> Option<SpelledFault<'_>> {
    for event in parse_events(text) {
        if let Event::Fault(fault) = event {
            return Some(fault);
        }
    }
    None
}
// [end]
