//! What a relay can ask of a line, one condition in each module: how it is written, its time, the types of its fields, and where it is portable.
//!
//! `settings` has all that a relay can be asked for, and `kinds` the kinds of faults, of which one is counted for each item that is refused.
#![tactic(auto)]

pub mod differing;
pub mod field_types;
pub mod kinds;
pub mod line_ends;
pub mod portable;
pub mod settings;
pub mod times;
pub mod verdict;
