//! The parts of a line: names, values, timestamps, and the faults of lines.
//!
//! Each reader of this crate takes the front of a text and returns the rest. The readers know nothing of pieces or of lines. This
//! crate is therefore beside the splitter, and below the crates that read whole lines.
#![tactic(auto)]

pub mod digits;
pub mod error;
mod escaped;
mod fault_texts;
pub mod literals;
pub mod names;
pub mod shown;
pub mod spelled;
pub mod spelled_parts;
mod tokens;
pub mod values;

pub use error::{Error, ErrorKind, OutOfRange, Result};
pub use escaped::{EscapedStr, Measurement};
pub use literals::FloatText;
pub use spelled::{Spelled, SpelledFault, SpelledValue};
pub use values::FieldValue;
