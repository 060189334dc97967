//! Counts with one more.

ghost use Rattle.std.specs.Prelude.{◌≡◌, ◌+◌, IfOk};
ghost use Rattle.lp_series.specs.CountSteps.{one_if};

use std::alloc::AllocError;

// A count with one more if this is so. It is refused if no `u64` holds it.
pub(crate) fn count_if(count: u64, is_so: bool) -> Result<u64, AllocError>
    ensures { IfOk result (λ sum. sum ≡ count + one_if is_so) }
{
    if !is_so {
        return Ok(count);
    }
    count.checked_add(1).ok_or(AllocError)
}

// A count, or the next one if this is so.
pub(crate) fn one_of(is_so: bool, count: u64, next: u64) -> u64
    ensures { next ≡ count + 1 → result ≡ count + one_if is_so }
{
    if is_so { next } else { count }
}
