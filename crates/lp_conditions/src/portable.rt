//! Whether a line may go out: each may, or those that are portable.
ghost use Rattle.std.specs.Prelude.{◌≡◌, ◌-◌, IfOk, length, take};
ghost use Rattle.lp_conditions.specs.Portables.{clause_text, is_shown_portable, servers_text, told_of_bytes, told_text};

use influxdb_line_protocol::portable::{Clause, Limits, Servers, Verdict, verdict_of};
use lp_escapes::texts::text_of;
use std::alloc::{AllocError, Global};

/// To which servers the lines that go out are portable.
#[derive(Clone, Copy, Debug, PartialEq, Eq)]
pub struct Portable {
    /// The servers.
    pub to: Servers,
    /// What their options change.
    pub limits: Limits,
}

/// What is told of bytes: what is not UTF-8 is no line.
pub fn told_of_bytes(
    alloc: Global,
    portable: &Portable,
    bytes: &[u8],
) -> Result<Verdict, AllocError>
    ensures { IfOk result (λ told. told ≡ told_of_bytes portable.now bytes.now) }
{
    match text_of(bytes) {
        Ok(text) => verdict_of(alloc, portable.to, &portable.limits, text),
        Err(_) => Ok(Verdict::NoLine),
    }
}

/// The servers, as faults name them.
pub fn servers_text(to: Servers) -> &'static str
    ensures { result.now ≡ servers_text to }
{
    match to {
        Servers::Influx1 => "InfluxDB 1.x",
        Servers::Victoria => "VictoriaMetrics",
        Servers::All => "all servers",
    }
}

/// Whether that is that a line is portable.
pub fn is_shown_portable(told: Verdict) -> bool
    ensures { result ≡ is_shown_portable told }
{
    matches!(told, Verdict::Portable)
}

// What breaks a clause, as faults name it.
fn clause_text(clause: Clause) -> &'static str
    ensures { result.now ≡ clause_text clause }
{
    match clause {
        Clause::LeadingBlank => "a blank before the line",
        Clause::TrailingSpace => "a space at its end",
        Clause::Newline => "a newline in the line",
        Clause::MeasurementEquals => "an escaped equals sign in the measurement",
        Clause::MeasurementEscape => "an escaped backslash or quote in the measurement",
        Clause::TagEscape => "an escaped backslash in a tag",
        Clause::TagKeyComma => "a bare comma in a tag key",
        Clause::TagValueEquals => "a bare equals sign in a tag value",
        Clause::RepeatedTag => "two tags of one key",
        Clause::FieldKeyEscape => "an escaped backslash or quote in a field key",
        Clause::FieldKeyComma => "a bare comma in a field key",
        Clause::FieldKeyQuote => "a quote in a field key",
        Clause::LongSeries => "a series and a field key of more than 65,531 bytes",
        Clause::Unsigned => "an unsigned integer",
        Clause::InfiniteFloat => "a float out of range",
        Clause::RoundedFloat => "a float with an exponent, or of more than 310 bytes",
        Clause::LeadingNul => "a byte 0 before the first field key",
        Clause::TimeOutOfRange => "a timestamp out of range",
        Clause::TagCount => "100 tags, or that times a power of two",
        Clause::TimeName => "a key 'time'",
        Clause::SystemName => "a name of the server's own",
        Clause::RepeatedField => "two fields of one key",
        Clause::KeySeparator => "'#!~' in the series",
        Clause::ControlByte => "a byte 0 or a carriage return in a name",
        Clause::NameLabel => "a tag key '__name__'",
        Clause::LongTagKey => "a tag key of more than 256 bytes",
        Clause::LongTagValue => "a tag value of more than 16,384 bytes",
        Clause::LongMetricName => "a measurement and a field key of more than 16,383 bytes",
        Clause::LongLabels => "a series and a field key of more than 31,999 bytes",
        Clause::TooManyTags => "too many tags",
        Clause::LongLine => "too long a line",
        Clause::TimeNotKept => "a timestamp that is not kept",
    }
}

/// What is not portable of a line of which this is told.
pub fn told_text(told: Verdict) -> &'static str
    ensures { result.now ≡ told_text told }
{
    match told {
        Verdict::Portable => "",
        Verdict::Breaks(clause) => clause_text(clause),
        Verdict::NoLine => "it is not one line",
    }
}
