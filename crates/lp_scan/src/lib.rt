//! Masks of the bytes of a load: of the bytes that end a name or a string, of the backslashes, and of the escaped bytes. Besides,
//! this crate trims the start of a text and counts newlines.
//!
//! The splitter and the readers of names and strings all search by these masks. The splitter and the readers do not use each
//! other, so the masks are in a crate below them.
#![tactic(auto)]

pub mod lanes;
pub mod marks;
pub mod newlines;
pub mod scan;
pub mod sets;
pub mod trim;
