//! The kinds of names: measurements, keys and tag values.

ghost use Rattle.std.specs.Prelude.{◌≡◌};
ghost use Rattle.lp_scan.specs.code.Tokens.{stops_of, known_of};
ghost use Rattle.lp_format.specs.format.Names.{escapable, is_stop};
ghost use Rattle.lp_values.specs.code.Outcomes.{kind_of};

use lp_scan::sets::TokenKind;

#[derive(Clone, Copy)]
pub enum NameKind {
    Measurement,
    TagKey,
    TagValue,
    FieldKey,
}

impl NameKind {
    /// Returns the kind of token that a name of this kind is.
    #[inline(always)]
    pub fn token(self) -> TokenKind
        ensures stops { stops_of result ≡ is_stop (kind_of self) }
        ensures known { known_of result ≡ escapable (kind_of self) }
    {
        match self {
            NameKind::Measurement => TokenKind::Measurement,
            NameKind::TagKey => TokenKind::TagKey,
            NameKind::TagValue => TokenKind::TagValue,
            NameKind::FieldKey => TokenKind::FieldKey,
        }
    }
}
