//! Display of values, and the texts of tokens with their backslashes.

ghost use Rattle.std.specs.{Prelude.Some, Fmt.DisplaysOnOk};
ghost use Rattle.lp_format.specs.{format.Escapes.escaped, code.Shown.shown_escapes, code.Shown.shown_value};
ghost use Rattle.lp_scan.specs.code.Tokens.{known_of};
ghost use Rattle.lp_values.specs.code.ReadValues.{value_of};

use crate::FieldValue;
use lp_scan::marks::before_first;
use lp_scan::sets::TokenKind;
use std::fmt;

/// Writes `text` with its backslashes to a formatter. The bytes between two backslashes are written as one run, and the first
/// byte that gets a backslash is searched for many bytes at a time. It takes no memory.
pub fn show_escaped<W: fmt::Write>(
    kind: TokenKind,
    text: &str,
    f: &mut fmt::Formatter<W>,
) -> fmt::Result
    ensures { DisplaysOnOk W.write_str_gives f.old result (Some (escaped (shown_escapes (known_of kind)) text.now)) f.new }
{
    let bytes = text.as_bytes();
    let mut start = 0;
    for at in before_first(kind.known(), bytes)..bytes.len() {
        // A byte that a backslash escapes is written with one, except the backslash itself.
        if bytes[at] != b'\\' && kind.is_known(bytes[at]) {
            f.write_str(&text[start..at])?;
            f.write_str("\\")?;
            start = at;
        }
    }
    f.write_str(&text[start..])
}

impl<'a> fmt::Display for FieldValue<'a> {
    ghost output = { λ v. Some (shown_value (value_of v)) };

    fn fmt<W: fmt::Write>(&self, f: &mut fmt::Formatter<W>) -> fmt::Result {
        match self {
            FieldValue::I64(number) => write!(f, "{number}i"),
            FieldValue::U64(number) => write!(f, "{number}u"),
            FieldValue::F64(literal) => f.write_str(literal.as_str()),
            FieldValue::String(text) => show_escaped(TokenKind::String, text.as_str(), f),
            FieldValue::Boolean(value) => write!(f, "{value}"),
        }
    }
}
