//! The reasons why a line was not read.

ghost use Rattle.std.specs.Prelude.{◌≡◌, ◌≢◌, true, Err, Result};
ghost use Rattle.lp_format.specs.format.{Fault, Line};
ghost use Rattle.lp_values.specs.code.Outcomes.{IsFault};
ghost use Rattle.lp_lines.specs.code.Unreads.{IsUnread, needs_none};

use lp_values::{Error, SpelledFault};
use std::alloc::Global;

/// The reason why a line was not read: its fault, as it is spelled in the text, or a refusal of memory for the line.
#[derive(Clone, Copy, Debug)]
pub enum Unread<'a> {
    /// The fault of the line.
    Fault(SpelledFault<'a>),
    /// A request for memory was refused.
    OutOfMemory,
}

impl<'a> Unread<'a> {
    // Returns the reason as an error, with a copy of the text of the fault.
    #[cold]
    #[inline(never)]
    pub(crate) fn to_error(self, alloc: Global) -> Error
        ensures fault { (answer : Result Line Fault) → IsUnread self.entry answer → IsFault result (λ fault. answer ≡ Err fault) }
        ensures no_memory { needs_none self.entry ≡ true → result ≢ Error.OutOfMemory }
    {
        match self {
            Unread::Fault(fault) => fault.to_error(alloc),
            Unread::OutOfMemory => Error::OutOfMemory,
        }
    }
}
