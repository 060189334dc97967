//! The verdict on a text: portable, the first clause that it breaks, or no line.

ghost use Rattle.std.specs.Prelude.{◌≡◌, true, IfOk, IsOk};
ghost use Rattle.lp_format.specs.{code.Light.is_light, format.Strict, format.trimmed};
ghost use Rattle.lp_portable.specs.code.Verdicts.{TellsVerdict, verdict_of};

use crate::broken::Clause;
use crate::limits::{Limits, Servers};
use crate::portable::broken_clauses;
use std::alloc::{AllocError, Global};

/// The verdict on a text.
#[derive(Clone, Copy, Debug)]
pub enum Verdict {
    /// The text is a portable line.
    Portable,
    /// The text is a line. This is the first clause that it breaks, of the clauses that concern the servers.
    Breaks(Clause),
    /// The text is not exactly one line, without its newline, that the strict reader reads.
    NoLine,
}

/// Returns the verdict on a text: portable, the first clause that it breaks, or no line. [`broken_clauses`] returns all clauses
/// that a text breaks, and says when memory is taken.
///
/// # Errors
///
/// Returns `AllocError` if memory was refused.
///
/// ```text
/// m,t=x f=1i 1    is Verdict::Portable
/// m,t=x f=1u 1    is Verdict::Breaks(Clause::Unsigned) for Servers::Influx1
/// m,t=x f= 1      is Verdict::NoLine
/// ```
pub fn verdict_of(
    alloc: Global,
    to: Servers,
    limits: &Limits,
    text: &str,
) -> Result<Verdict, AllocError>
    ensures value { IfOk result (λ told. told ≡ verdict_of to limits.now text.now) }
    ensures tells { IfOk result (TellsVerdict to limits.now text.now) }
    ensures no_memory { is_light Strict (trimmed text.now) ≡ true → IsOk result }
{
    let Some(broken) = broken_clauses(alloc, limits, text)? else {
        return Ok(Verdict::NoLine);
    };
    match broken.first(to) {
        Some(clause) => Ok(Verdict::Breaks(clause)),
        None => Ok(Verdict::Portable),
    }
}
