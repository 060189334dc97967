//! What a run reads: its inputs one after another, counted, watched and shown as they come.
#![tactic(auto)]

pub mod counted;
pub mod errors;
pub mod inputs;
pub mod marks;
pub mod meter;
mod starts;
pub mod watched;
mod whole_lines;
