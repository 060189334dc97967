//! The pieces of a text, which is whole or comes in parts.
//!
//! The end of a piece is found by its quotes, its backslashes and a few other bytes, without reading its lines. A program that
//! only cuts a text, or gathers lines that come in parts, needs no more than this crate.
#![tactic(auto)]

pub mod split;
pub mod stream;

pub use split::{Dialect, SplitLines, split_lines, split_lines_in};
pub use stream::{BoundedLineStream, LineStream, PieceTooLong};
