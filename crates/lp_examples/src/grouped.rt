//! Lines by their series.

// [grouped]
ghost use Rattle.std.specs.Prelude.{◌≡◌, ℕ, List, IfOk};
ghost use Rattle.std.specs.List.{filter};
ghost use Rattle.lp_examples.specs.Grouped.{has_key, lines_at};

use crate::numbers::whole_number;
use influxdb_line_protocol::{ParsedLine, Result};
use std::alloc::Global;
use std::collections::BTreeMap;

/// Returns the lines of each series, in order, by the key of the series.
pub fn group<'l, 'a>(
    alloc: Global,
    lines: &'l [ParsedLine<'a>],
) -> Result<BTreeMap<String, Vec<&'l ParsedLine<'a>>>>
    ensures { IfOk result (λ groups. (key : List ℕ) → lines_at groups key ≡ filter (has_key key) lines.now) }
{
    let mut groups = BTreeMap::new(alloc);
    for line in lines {
        let key = line.series.key(alloc)?;
        let mut group = match groups.remove(key.as_str()) {
            Some(group) => group,
            None => Vec::new(alloc),
        };
        group.push(line)?;
        groups.insert(key, group)?;
    }
    Ok(groups)
}

/// Returns the sum of a field over the lines of each series, by the key of the series. A line without a whole number there adds 0.
pub fn sums(alloc: Global, lines: &[ParsedLine<'_>], field: &str) -> Result<BTreeMap<String, i64>> {
    let mut sums: BTreeMap<String, i64> = BTreeMap::new(alloc);
    for line in lines {
        let key = line.series.key(alloc)?;
        let sum = match sums.get(key.as_str()) {
            Some(sum) => *sum,
            None => 0,
        };
        sums.insert(
            key,
            sum.saturating_add(whole_number(line, field).unwrap_or(0)),
        )?;
    }
    Ok(sums)
}
// [end]
