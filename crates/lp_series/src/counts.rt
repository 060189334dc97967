//! What lines have by their series.

ghost use Rattle.std.specs.Prelude.{◌≡◌, ◌++◌, ◌∷◌, [], List, IfSome, OnOk, OnErr};
ghost use Rattle.std.specs.HashMap.{hasher_of};
ghost use Rattle.influxdb_line_protocol.specs.code.Parsed.{IsReadLine, parsed_point};
ghost use Rattle.influxdb_line_protocol.specs.format.Points.{Point};
ghost use Rattle.lp_series.specs.Counting.{Counts, CountsKept, key_of};
ghost use Rattle.lp_series.specs.CountSteps.{CountsFound, KeepsCounts, KeepsMeasurements, KeepsTotals};

use crate::measurements::{MeasurementCounts, count_line};
use crate::sums::count_if;
use crate::tables::{Found, count_key, count_tags, tags_in, uncount_key};
use crate::times::{greatest, least};
use influxdb_line_protocol::{ParsedLine, key_of_text, laws};
use std::alloc::{AllocError, Global};
use std::collections::{BTreeMap, HashMap, HashSet};
use std::hash::RandomState;

/// What was counted of lines.
///
/// The first lines are counted by their series, as long as no more series come than `max_series`. A line of another series counts in
/// `points`, `without_time`, the times and `beyond` alone. So what is held is bounded by the kept series and by the fields of their
/// lines. While `beyond` is 0, all is counted of all lines.
///
/// Names are those that the lines mean, without escapes; also lines with names that the builder would not write are counted.
#[derive(Drop)]
pub struct SeriesCounts {
    /// How many series are kept at most.
    pub max_series: usize,
    /// How many lines there were.
    pub points: u64,
    /// How many of them have no time.
    pub without_time: u64,
    /// The least time of those that have one.
    pub least_time: Option<i64>,
    /// The greatest time of those that have one.
    pub greatest_time: Option<i64>,
    /// How many lines are of series that are not kept, since as many as `max_series` came before them. While it is above 0, `series` has
    /// as many keys as that.
    pub beyond: u64,
    /// How many lines each series that is kept has, by its key, which [`Series::key`](influxdb_line_protocol::Series::key) gives.
    pub series: HashMap<String, u64, RandomState>,
    /// What was counted of the lines of kept series, by their measurement.
    pub measurements: BTreeMap<String, MeasurementCounts>,
    /// The values of each tag of kept series, by the tag key.
    pub tags: BTreeMap<String, HashSet<String, RandomState>>,
}

// The key of the series of a line that was read, lent, if its text is that key.
fn lent_key<'a>(line: &ParsedLine<'a>) -> Option<&'a str>
    requires { IsReadLine line.now }
    ensures { IfSome result (λ key. key.now ≡ key_of (parsed_point line.now)) }
{
    laws::keys_tell_series();
    laws::bases_tell_series();
    let text = line.series.raw_input;
    let Some(key) = key_of_text(text) else {
        return None;
    };
    if key.len() < text.len() {
        return None;
    }
    Some(key)
}

impl SeriesCounts {
    /// Before the first line. At most so many series are kept; `usize::MAX` is no limit. It takes no memory.
    ///
    /// The tables of series and of tag values hash their keys by `hashes`. Make `hashes` by `RandomState::new` for each count. Who writes
    /// the lines must not know it, and so cannot choose keys that fall into one place of a table.
    pub fn new(alloc: Global, hashes: RandomState, max_series: usize) -> Self
        ensures counts { Counts result [] }
        ensures most { result.max_series ≡ max_series }
        ensures hashes { hasher_of result.series ≡ hashes }
    {
        SeriesCounts {
            max_series,
            points: 0,
            without_time: 0,
            least_time: None,
            greatest_time: None,
            beyond: 0,
            series: HashMap::with_hasher(alloc, hashes),
            measurements: BTreeMap::new(alloc),
            tags: BTreeMap::new(alloc),
        }
    }

    // Counts a line whose series was found so, and was counted in its table, in the other tables.
    #[tactic(auto, using(crate::proofs::KeptCounts::same_numbers))]
    fn add_found(
        &mut self,
        alloc: Global,
        found: Found,
        line: &ParsedLine<'_>,
    ) -> Result<(), AllocError>
        ensures counts { OnOk result (CountsFound found (parsed_point line.now) self.old self.new) }
        ensures series { self.new.series ≡ self.old.series }
        ensures totals { KeepsTotals self.old self.new }
        ensures beyond { OnErr result (self.new.beyond ≡ self.old.beyond) }
        ensures measurements { OnErr result (KeepsMeasurements self.old.measurements self.new.measurements) }
    {
        laws::keys_tell_series();
        match found {
            Found::Known => count_line(alloc, &mut self.measurements, line, false),
            // Its tags come first: they are no counts, which an error must not change.
            Found::New => {
                count_tags(alloc, *self.series.hasher(), &mut self.tags, tags_in(line))?;
                count_line(alloc, &mut self.measurements, line, true)
            }
            Found::Beyond => {
                self.beyond = self.beyond.checked_add(1).ok_or(AllocError)?;
                Ok(())
            }
        }
    }

    // Counts a line by its key in the tables.
    fn add_by_key(
        &mut self,
        alloc: Global,
        key: &str,
        line: &ParsedLine<'_>,
    ) -> Result<(), AllocError>
        requires { key.now ≡ key_of (parsed_point line.now) }
        ensures counts { OnOk result
            ((before : List Point) → CountsKept self.old before → CountsKept self.new (before ++ parsed_point line.now ∷ [])) }
        ensures totals { KeepsTotals self.old self.new }
        ensures kept { OnErr result (KeepsCounts self.old self.new) }
    {
        let found = count_key(alloc, &mut self.series, self.max_series, key)?;
        match self.add_found(alloc, found, line) {
            Ok(()) => Ok(()),
            Err(error) => {
                uncount_key(&mut self.series, found, key);
                Err(error)
            }
        }
    }

    // Counts a line by its key.
    #[tactic(auto, using(crate::proofs::KeptCounts::same_counts))]
    pub(crate) fn add_keyed(
        &mut self,
        alloc: Global,
        key: &str,
        line: &ParsedLine<'_>,
    ) -> Result<(), AllocError>
        requires { key.now ≡ key_of (parsed_point line.now) }
        ensures counts { OnOk result
            ((before : List Point) → Counts self.old before → Counts self.new (before ++ parsed_point line.now ∷ [])) }
        ensures most { self.new.max_series ≡ self.old.max_series }
        ensures kept { OnErr result (KeepsCounts self.old self.new) }
    {
        let points = self.points.checked_add(1).ok_or(AllocError)?;
        let without_time = count_if(self.without_time, line.timestamp.is_none())?;
        self.add_by_key(alloc, key, line)?;
        self.points = points;
        self.without_time = without_time;
        self.least_time = least(self.least_time, line.timestamp);
        self.greatest_time = greatest(self.greatest_time, line.timestamp);
        Ok(())
    }

    // Counts a line that was read, by its key, which is lent if it stands in the text.
    pub(crate) fn add_read(
        &mut self,
        alloc: Global,
        line: &ParsedLine<'_>,
    ) -> Result<(), AllocError>
        requires { IsReadLine line.now }
        ensures counts { OnOk result
            ((before : List Point) → Counts self.old before → Counts self.new (before ++ parsed_point line.now ∷ [])) }
        ensures most { self.new.max_series ≡ self.old.max_series }
        ensures kept { OnErr result (KeepsCounts self.old self.new) }
    {
        match lent_key(line) {
            Some(key) => self.add_keyed(alloc, key, line),
            None => self.add(alloc, line),
        }
    }

    /// Counts a line, by the key of its series.
    ///
    /// It asks for memory for the key, which is given back; once for each series, measurement, tag key, tag value and field that is
    /// new, and for the places of the tables. A known series takes one look-up of its key, one of its measurement and one for each field;
    /// a new one also one for each tag.
    ///
    /// # Errors
    ///
    /// A request for memory was refused, or no `u64` holds a count. Then no count has changed, and no series and no measurement is new:
    /// you can add the line again. Only `tags`, and the `fields` of a measurement that was there, may have those of the line.
    ///
    /// ```text
    /// cpu,host=a usage=1 5   ->  points 1, least and greatest time 5; series {cpu,host=a: 1}; tags {host: {a}};
    ///                            measurements {cpu: points 1, series 1, fields {usage: float}}
    /// cpu,host=a usage=2i 3  ->  points 2, least time 3; series {cpu,host=a: 2}; fields {usage: float, integer}
    /// cpu,host=b idle=1      ->  with max_series 1: points 3, without_time 1, beyond 1, and nothing else
    /// ```
    #[tactic(auto, using(crate::proofs::KeptCounts::same_counts))]
    pub fn add(&mut self, alloc: Global, line: &ParsedLine<'_>) -> Result<(), AllocError>
        ensures counts { OnOk result
            ((before : List Point) → Counts self.old before → Counts self.new (before ++ parsed_point line.now ∷ [])) }
        ensures most { self.new.max_series ≡ self.old.max_series }
        ensures kept { OnErr result (KeepsCounts self.old self.new) }
    {
        let key = line.series.key(alloc)?;
        self.add_keyed(alloc, key.as_str(), line)
    }
}
