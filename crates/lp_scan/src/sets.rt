//! The bytes that end a name or a string, and the bytes that a backslash escapes in it, by kind: as arrays and as tests.
//!
//! The writers, and the searches from the first backslash on, use the arrays. Each array has as many places as a kind has bytes
//! at most, so a kind with fewer bytes has a byte twice. The tests are separate functions, because each reader of names contains
//! them, and the compiler inlines a reader only if it is small before its kind is known.

ghost use Rattle.std.specs.Prelude.{◌≡◌, ℕ, length};
ghost use Rattle.lp_format.specs.format.Bytes.{is_one_of};
ghost use Rattle.lp_scan.specs.code.Tokens.{stops_of, known_of};

/// A kind of token: a kind of name, or the text between quotes.
#[derive(Clone, Copy)]
pub enum TokenKind {
    Measurement,
    TagKey,
    TagValue,
    FieldKey,
    String,
}

impl TokenKind {
    /// Returns the bytes that end a token of this kind if they are bare. A byte can stand twice.
    #[inline(always)]
    pub fn stops(self) -> [u8; 5]
        ensures bytes { (b : ℕ) → is_one_of result b ≡ stops_of self b }
        ensures len { length result ≡ 5 }
    {
        match self {
            TokenKind::Measurement => *b" \t\n,\0",
            TokenKind::TagKey | TokenKind::FieldKey => *b" \t\n==",
            TokenKind::TagValue => *b" \t\n,,",
            TokenKind::String => *b"\"\"\"\"\"",
        }
    }

    /// Returns the bytes that a backslash escapes in a token of this kind. A byte can stand twice.
    #[inline(always)]
    pub fn known(self) -> [u8; 4]
        ensures bytes { (b : ℕ) → is_one_of result b ≡ is_one_of (known_of self) b }
        ensures len { length result ≡ 4 }
    {
        match self {
            TokenKind::Measurement => *b", \\\\",
            TokenKind::TagKey | TokenKind::TagValue | TokenKind::FieldKey => *b",= \\",
            TokenKind::String => *b"\"\\\\\\",
        }
    }

    /// Returns whether a bare byte ends a token of this kind.
    #[inline(always)]
    pub fn is_stop(self, byte: u8) -> bool
        ensures { result ≡ stops_of self byte }
    {
        match self {
            TokenKind::Measurement => matches!(byte, b' ' | b'\t' | b'\n' | 0 | b','),
            TokenKind::TagKey | TokenKind::FieldKey => {
                matches!(byte, b' ' | b'\t' | b'\n' | b'=')
            }
            TokenKind::TagValue => matches!(byte, b' ' | b'\t' | b'\n' | b','),
            TokenKind::String => byte == b'"',
        }
    }

    /// Returns whether a backslash before the byte is a known escape in a token of this kind.
    #[inline(always)]
    pub fn is_known(self, byte: u8) -> bool
        ensures { result ≡ is_one_of (known_of self) byte }
    {
        match self {
            TokenKind::Measurement => matches!(byte, b',' | b' ' | b'\\'),
            TokenKind::TagKey | TokenKind::TagValue | TokenKind::FieldKey => matches!(
                byte,
                b',' | b'=' | b' ' | b'\\'
            ),
            TokenKind::String => matches!(byte, b'"' | b'\\'),
        }
    }
}
