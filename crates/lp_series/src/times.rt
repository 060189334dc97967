//! The least and the greatest of times.

ghost use Rattle.std.specs.Prelude.{List, ℤ};
ghost use Rattle.lp_series.specs.Counting.{IsGreatest, IsLeast};
ghost use Rattle.lp_series.specs.CountSteps.{with_time};

// The least time, with one more.
pub(crate) fn least(so_far: Option<i64>, time: Option<i64>) -> Option<i64>
    ensures { (times : List ℤ) → IsLeast so_far times → IsLeast result (with_time times time) }
{
    let Some(new) = time else {
        return so_far;
    };
    let Some(least) = so_far else {
        return time;
    };
    if least <= new { so_far } else { time }
}

// The greatest time, with one more.
pub(crate) fn greatest(so_far: Option<i64>, time: Option<i64>) -> Option<i64>
    ensures { (times : List ℤ) → IsGreatest so_far times → IsGreatest result (with_time times time) }
{
    let Some(new) = time else {
        return so_far;
    };
    let Some(greatest) = so_far else {
        return time;
    };
    if new <= greatest { so_far } else { time }
}
