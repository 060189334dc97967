//! The reason why a line is refused.
ghost use Rattle.std.specs.Prelude.{Some};
ghost use Rattle.lp_rebuild.specs.RebuildSteps.{line_refusal_text};

use influxdb_line_protocol::SpelledFault;
use std::fmt;

/// The reason why a line is refused. It takes no memory: its text is a part of the line.
#[derive(Clone, Copy, Debug)]
pub enum LineRefusal<'a> {
    /// The line cannot be read, and has this fault.
    Fault(SpelledFault<'a>),
    /// A name of the line is not admitted.
    NotAdmitted,
}

/// Writes the reason as it stands in a fault line.
impl<'a> fmt::Display for LineRefusal<'a> {
    ghost output = { λ refusal. Some (line_refusal_text refusal) };

    fn fmt<W: fmt::Write>(&self, f: &mut fmt::Formatter<W>) -> fmt::Result {
        match self {
            LineRefusal::Fault(fault) => write!(f, "{fault}"),
            LineRefusal::NotAdmitted => f.write_str("a name cannot be written again"),
        }
    }
}
