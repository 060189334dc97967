//! What the lines of measurements have.

ghost use Rattle.std.specs.Prelude.{◌≡◌, OnErr, OnOk};
ghost use Rattle.influxdb_line_protocol.specs.code.Parsed.{parsed_point};
ghost use Rattle.lp_series.specs.CountSteps.{CountsIn, CountsNothing, CountsPoint, KeepsMeasurements};

use crate::kinds::{FieldKinds, count_fields};
use crate::sums::count_if;
use influxdb_line_protocol::ParsedLine;
use std::alloc::{AllocError, Global};
use std::collections::BTreeMap;

/// What was counted of the lines of one measurement.
///
/// It is of the lines of kept series alone, of which there is at least one.
#[derive(Drop)]
pub struct MeasurementCounts {
    /// How many lines it has.
    pub points: u64,
    /// How many series they are of.
    pub series: u64,
    /// The kinds of values of each field, by its key.
    pub fields: BTreeMap<String, FieldKinds>,
}

impl MeasurementCounts {
    // Before the first line.
    fn none(alloc: Global) -> Self
        ensures { CountsNothing result }
    {
        MeasurementCounts {
            points: 0,
            series: 0,
            fields: BTreeMap::new(alloc),
        }
    }

    // Counts a line, of a new series or of a known one.
    fn add(&mut self, alloc: Global, line: &ParsedLine<'_>, is_new: bool) -> Result<(), AllocError>
        ensures counts { OnOk result (CountsPoint is_new (parsed_point line.now) self.old self.new) }
        ensures kept { OnErr result ((self.new.points ≡ self.old.points) × (self.new.series ≡ self.old.series)) }
    {
        let points = self.points.checked_add(1).ok_or(AllocError)?;
        let series = count_if(self.series, is_new)?;
        count_fields(alloc, &mut self.fields, line.field_set.as_slice())?;
        self.points = points;
        self.series = series;
        Ok(())
    }
}

// Counts a line of its measurement, of a new series or of a known one.
pub(crate) fn count_line(
    alloc: Global,
    measurements: &mut BTreeMap<String, MeasurementCounts>,
    line: &ParsedLine<'_>,
    is_new: bool,
) -> Result<(), AllocError>
    ensures counts { OnOk result (CountsIn is_new (parsed_point line.now) measurements.old measurements.new) }
    ensures kept { OnErr result (KeepsMeasurements measurements.old measurements.new) }
{
    let name = line.series.measurement.as_str();
    if let Some(counts) = measurements.get_mut(name) {
        counts.add(alloc, line, is_new)?;
        return Ok(());
    }
    let mut counts = MeasurementCounts::none(alloc);
    counts.add(alloc, line, is_new)?;
    measurements.insert(String::from_str(alloc, name)?, counts)?;
    Ok(())
}
