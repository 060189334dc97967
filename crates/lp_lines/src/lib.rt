//! Lines, as [`parse_lines`] gives them, one after another.
//!
//! A sink that the reader tells the parts of a line fills the line. A parsed line, its text and the base of its series are in one
//! crate, because an implementation for a type belongs to the crate of this type.
#![tactic(auto)]

mod base;
mod filling;
pub mod freeing;
mod key;
mod line;
pub mod parsed;
mod ranks;
mod shown;
mod unread;

pub use key::{hash_series, same_series};
pub use line::{
    ParseLines, parse_lines, parse_lines_in, read_into, read_spelled_into, refill_line,
};
pub use parsed::{FieldSet, ParsedLine, Series, TagSet};
pub use unread::Unread;
