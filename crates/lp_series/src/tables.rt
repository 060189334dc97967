//! The tables of series and of tags.

ghost use Rattle.std.specs.Prelude.{◌≡◌, ◌++◌, List, IfOk, OnErr, OnOk, map};
ghost use Rattle.influxdb_line_protocol.specs.code.{Parsed.parsed_point, Parsed.tag_of};
ghost use Rattle.influxdb_line_protocol.specs.format.{Lines.logical_tag, Points.Tag};
ghost use Rattle.lp_series.specs.Counting.{HasTags};
ghost use Rattle.lp_series.specs.CountSteps.{CountsKey, KeepsSeries, PutsTag, PutsText, TakesBack};

use influxdb_line_protocol::{EscapedStr, ParsedLine};
use std::alloc::{AllocError, Global};
use std::collections::{BTreeMap, HashMap, HashSet};
use std::hash::RandomState;

/// How a series was found in a table.
#[derive(Clone, Copy)]
pub(crate) enum Found {
    /// It is in it.
    Known,
    /// It was put into it.
    New,
    /// It is not in it, since the table is full.
    Beyond,
}

// Counts a line more of the series with this key, if that is in the table, or there is room for one more of so many.
pub(crate) fn count_key(
    alloc: Global,
    series: &mut HashMap<String, u64, RandomState>,
    max_series: usize,
    key: &str,
) -> Result<Found, AllocError>
    ensures counts { IfOk result (λ found. CountsKey max_series found key.now series.old series.new) }
    ensures kept { OnErr result (KeepsSeries series.old series.new) }
{
    if let Some(points) = series.get_mut(key) {
        *points = points.checked_add(1).ok_or(AllocError)?;
        return Ok(Found::Known);
    }
    if series.len() >= max_series {
        return Ok(Found::Beyond);
    }
    series.insert(String::from_str(alloc, key)?, 1)?;
    Ok(Found::New)
}

// Takes back that a line more of the series with this key was counted, which was found so.
pub(crate) fn uncount_key(series: &mut HashMap<String, u64, RandomState>, found: Found, key: &str)
    ensures { TakesBack found key.now series.old series.new }
{
    match found {
        Found::Known => {
            if let Some(points) = series.get_mut(key) {
                *points = points.saturating_sub(1);
            }
        }
        Found::New => {
            series.remove(key);
        }
        Found::Beyond => {}
    }
}

// The tags of a line.
pub(crate) fn tags_in<'l, 'a>(line: &'l ParsedLine<'a>) -> &'l [(EscapedStr<'a>, EscapedStr<'a>)]
    ensures { map logical_tag (map tag_of result.now) ≡ (parsed_point line.now).tags }
{
    match &line.series.tag_set {
        Some(tags) => tags.as_slice(),
        None => &[],
    }
}

// Puts a value among those of a tag.
fn put_value(
    alloc: Global,
    values: &mut HashSet<String, RandomState>,
    value: &str,
) -> Result<(), AllocError>
    ensures { OnOk result (PutsText values.old values.new value.now) }
{
    if values.contains(value) {
        return Ok(());
    }
    values.insert(String::from_str(alloc, value)?)?;
    Ok(())
}

// Puts a tag among those that series have. A table of its values hashes them by `hashes`.
fn count_tag(
    alloc: Global,
    hashes: RandomState,
    tags: &mut BTreeMap<String, HashSet<String, RandomState>>,
    key: &str,
    value: &str,
) -> Result<(), AllocError>
    ensures { OnOk result (PutsTag tags.old tags.new (record { key = key.now; value = value.now })) }
{
    if let Some(values) = tags.get_mut(key) {
        put_value(alloc, values, value)?;
        return Ok(());
    }
    let mut values = HashSet::with_hasher(alloc, hashes);
    put_value(alloc, &mut values, value)?;
    tags.insert(String::from_str(alloc, key)?, values)?;
    Ok(())
}

// Puts the tags of a series among those that series have.
pub(crate) fn count_tags(
    alloc: Global,
    hashes: RandomState,
    tags: &mut BTreeMap<String, HashSet<String, RandomState>>,
    of: &[(EscapedStr<'_>, EscapedStr<'_>)],
) -> Result<(), AllocError>
    ensures { OnOk result ((before : List Tag) → HasTags tags.old before
        → HasTags tags.new (before ++ map logical_tag (map tag_of of.now))) }
{
    for (key, value) in of {
        count_tag(alloc, hashes, tags, key.as_str(), value.as_str())?;
    }
    Ok(())
}
