//! Why a relay refuses an item, and how that is told: by a fault line, an object of JSON, or a line that editors go by.
#![tactic(auto)]

pub mod editors;
pub mod objects;
pub mod pieces;
pub mod refusals;
pub mod telling;
