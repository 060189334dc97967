//! The files that a run writes, each beside its place until it is whole; and batches of lines, each in a file of its own.
#![tactic(auto)]

pub mod batches;
pub mod beside;
pub mod files;
