//! Checks whether a line is portable: whether servers read it as the strict reader does.
//!
//! A server can reject a line that the strict reader reads, store it as another point, or lose other lines of its batch. This
//! crate defines which lines are safe, clause by clause, as the servers were measured, and checks a text against the clauses. It
//! reads the text again, and walks over it to see how its names are spelled.
#![tactic(auto)]

mod broken;
pub mod keys;
mod limits;
mod marks;
mod names;
mod plain;
mod portable;
pub mod sure;
mod values;
mod verdicts;

pub use broken::{Broken, Clause};
pub use limits::{Limits, Servers};
pub use portable::{broken_clauses, is_portable};
pub use verdicts::{Verdict, verdict_of};
