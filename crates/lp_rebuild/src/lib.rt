//! Rebuilds the lines of a text: writes each line that reads back again, and writes a numbered fault line for every other item.
//!
//! [`rebuild`] rebuilds a text in memory. [`run`] reads a whole input, and writes the lines to one output and the faults to
//! another. `lp_relay` does the same while lines come in.
#![tactic(auto)]

// The public modules are shared with `lp_relay`.
pub mod batch;
mod devices;
mod failures;
pub mod program;
mod refusals;
mod tries;

pub use batch::{Rebuilt, rebuild, rebuild_in};
pub use devices::{DeviceFault, Kept, Reading, Sink, Source, Writing};
pub use failures::Failures;
pub use program::{RunFault, USAGE, dialect_of, read_all, run, run_in, status};
pub use refusals::LineRefusal;
