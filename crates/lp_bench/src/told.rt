//! The sum of the items of a text, from the events that a sink is told.

ghost use Rattle.std.specs.Prelude.{⊤};

use influxdb_line_protocol::{EventSink, Spelled, SpelledFault, SpelledValue};

/// The sum of the items that were told.
#[derive(Drop)]
pub struct Sum {
    // Of the items that have ended.
    sum: u64,
    // Of the line that is told.
    line: u64,
}

impl Sum {
    /// The sum of no items.
    pub fn new() -> Self {
        Sum { sum: 0, line: 0 }
    }

    /// The sum so far.
    pub fn sum(&self) -> u64 {
        self.sum
    }
}

// The length of a name or a string.
#[inline(always)]
fn of_text(text: &Spelled<'_>) -> u64 {
    text.len() as u64
}

// What a value adds to a sum.
#[inline(always)]
fn of_value(value: &SpelledValue<'_>) -> u64 {
    match value {
        SpelledValue::I64(value) => value.cast_unsigned(),
        SpelledValue::U64(value) => *value,
        SpelledValue::F64(value) => value.as_str().len() as u64,
        SpelledValue::String(value) => of_text(value),
        SpelledValue::Boolean(value) => u64::from(*value),
    }
}

impl<'a> EventSink<'a> for Sum {
    ghost takes = { λ _ _ _. ⊤ };

    #[inline(always)]
    fn measurement(&mut self, name: Spelled<'a>) {
        self.line = of_text(&name);
    }

    #[inline(always)]
    fn tag(&mut self, key: Spelled<'a>, value: Spelled<'a>) {
        self.line = self
            .line
            .wrapping_add(of_text(&key))
            .wrapping_add(of_text(&value));
    }

    #[inline(always)]
    fn field(&mut self, key: Spelled<'a>, value: SpelledValue<'a>) {
        self.line = self
            .line
            .wrapping_add(of_text(&key))
            .wrapping_add(of_value(&value));
    }

    #[inline(always)]
    fn end(&mut self, _series: &'a str, timestamp: Option<i64>) {
        let timestamp = timestamp.unwrap_or(0).cast_unsigned();
        self.sum = self.sum.wrapping_add(self.line).wrapping_add(timestamp);
    }

    // A fault counts 1, and what was told of its line nothing.
    #[inline(always)]
    fn fault(&mut self, _fault: SpelledFault<'a>) {
        self.sum = self.sum.wrapping_add(1);
    }
}
