//! Checks whether a text is a line as the builder writes it.
//!
//! Each part of the text is checked by a reader that takes only what the builder writes. The crate uses nothing of the builder,
//! so a change of one needs no new proof of the other.
#![tactic(auto)]

mod keys;
mod numbers;
mod tokens;
mod written;

pub use keys::key_of_text;
pub use written::is_as_written;
