//! The reader of lines, which gives the parts of each line one after another. It takes no memory.
//!
//! This crate joins the splitter of texts and the readers of parts. It tells the parts to a sink, or gives them one after
//! another. A type that keeps whole lines is such a sink, in a crate above.
#![tactic(auto)]

mod bases;
pub mod events;
pub mod lines;
mod place;
pub mod pull;
pub mod stops;

pub use events::{EventSink, PlacedSink, read_events_in, read_line_events, read_placed_events};
pub use pull::{Event, ParseEvents, parse_events, parse_events_in};
pub use stops::{LinePart, Stop, reading_stop};
