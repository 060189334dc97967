//! Lines with a certain tag, of which none is kept.

// [tagged]
ghost use Rattle.std.specs.Prelude.{⊤};

use influxdb_line_protocol::{
    Dialect, EventSink, Spelled, SpelledFault, SpelledValue, read_events_in,
};

/// Counts the lines that have a tag.
#[derive(Drop)]
struct Tagged<'k> {
    key: &'k str,
    value: &'k str,
    // Whether the line whose events come has the tag.
    has_tag: bool,
    count: u64,
}

impl<'a, 'k> EventSink<'a> for Tagged<'k> {
    ghost takes = { λ _ _ _. ⊤ };

    fn measurement(&mut self, _name: Spelled<'a>) {
        self.has_tag = false;
    }

    fn tag(&mut self, key: Spelled<'a>, value: Spelled<'a>) {
        if key.eq_text(self.key) && value.eq_text(self.value) {
            self.has_tag = true;
        }
    }

    fn field(&mut self, _key: Spelled<'a>, _value: SpelledValue<'a>) {}

    fn end(&mut self, _series: &'a str, _timestamp: Option<i64>) {
        if self.has_tag {
            self.count = self.count.wrapping_add(1);
        }
    }

    fn fault(&mut self, _fault: SpelledFault<'a>) {}
}

/// Returns how many lines have the tag `key` with this value. Does not count lines with a fault, and takes no memory.
pub fn count_tagged(text: &str, key: &str, value: &str) -> u64 {
    let mut tagged = Tagged {
        key,
        value,
        has_tag: false,
        count: 0,
    };
    read_events_in(Dialect::Crate, text, &mut tagged);
    tagged.count
}
// [end]
