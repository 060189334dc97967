//! How texts are told: on one line, with Rust's escapes, or in a string of JSON.
//!
//! It is a crate of its own, so that what tells names and words need not stand on what reads lines.
#![tactic(auto)]

pub mod forms;
pub mod json;
pub mod one_line;
pub mod texts;
