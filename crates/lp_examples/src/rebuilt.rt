//! The lines of a text, written again.

// [rebuilt]
ghost use Rattle.std.specs.Prelude.{IfOk};
ghost use Rattle.lp_rebuild.specs.Rebuilding.{ReadsBack, Rebuilds};

use lp_rebuild::{Rebuilt, rebuild};
use std::alloc::{AllocError, Global};

/// Cleans a text: the batch has the lines that read back, in one spelling, and the faults number and name the other items.
pub fn cleaned(alloc: Global, text: &str) -> Result<Rebuilt, AllocError>
    ensures rebuilds { IfOk result (λ r. Rebuilds text.now r) }
    ensures reads_back { IfOk result (λ r. ReadsBack text.now r) }
{
    rebuild(alloc, text)
}
// [end]
