//! Tells what is wrong with a text that is no line, with no memory.
ghost use Rattle.std.specs.Prelude.{◌≡◌, option_map};
ghost use Rattle.influxdb_line_protocol.specs.code.Rules.{rules_of};
ghost use Rattle.influxdb_line_protocol.specs.format.Lines.{answer};
ghost use Rattle.lp_conditions.specs.Verdicts.{fault_in};
ghost use Rattle.lp_values.specs.code.SpelledParts.{spelled_fault};

use influxdb_line_protocol::{
    Dialect, EventSink, Spelled, SpelledFault, SpelledValue, read_line_events,
};

// The fault of the text that is told, if that is no line.
#[derive(Drop)]
struct Verdict<'a> {
    fault: Option<SpelledFault<'a>>,
}

impl<'a> EventSink<'a> for Verdict<'a> {
    ghost use Rattle.lp_conditions.specs.Verdicts.{Judges};

    ghost takes = { Judges };

    #[inline(always)]
    fn measurement(&mut self, _name: Spelled<'a>) {}

    #[inline(always)]
    fn tag(&mut self, _key: Spelled<'a>, _value: Spelled<'a>) {}

    #[inline(always)]
    fn field(&mut self, _key: Spelled<'a>, _value: SpelledValue<'a>) {}

    #[inline(always)]
    fn end(&mut self, _series: &'a str, _timestamp: Option<i64>) {}

    #[inline(always)]
    fn fault(&mut self, fault: SpelledFault<'a>) {
        self.fault = Some(fault);
    }
}

/// The fault of a trimmed text, if that is no line. It takes no memory.
pub fn fault_of<'a>(dialect: Dialect, text: &'a str) -> Option<SpelledFault<'a>>
    ensures { option_map spelled_fault result ≡ fault_in (answer (rules_of dialect) text.now) }
{
    let mut verdict = Verdict { fault: None };
    read_line_events(dialect, text, &mut verdict);
    verdict.fault
}
