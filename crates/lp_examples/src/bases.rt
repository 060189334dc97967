//! Lines by their series.

// [bases]
use influxdb_line_protocol::{Result, parse_lines};
use std::alloc::Global;
use std::collections::BTreeMap;

/// Returns how many lines of a text each series has, by the base of the series.
pub fn lines_by_series(alloc: Global, text: &str) -> Result<BTreeMap<String, u64>> {
    let mut counts: BTreeMap<String, u64> = BTreeMap::new(alloc);
    for item in parse_lines(alloc, text) {
        let base = item?.series.generate_base(alloc)?.into_owned(alloc)?;
        match counts.get_mut(&base) {
            Some(count) => *count = count.saturating_add(1),
            None => {
                counts.insert(base, 1)?;
            }
        }
    }
    Ok(counts)
}
// [end]
