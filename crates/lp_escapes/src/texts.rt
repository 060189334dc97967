//! Which bytes are text.
ghost use Rattle.std.specs.Prelude.{◌≡◌, IsUtf8, MatchResult};
ghost use Rattle.lp_escapes.specs.JsonTexts.{utf8_front};

use simdutf8::basic::{self, Utf8Error};
use std::str;

// From this length on `simdutf8` tests bytes. It is several times as fast as std if they are not ASCII; if they are, it
// takes longer below this length.
const LONG: usize = 128;

/// The text of bytes, if they are UTF-8.
pub fn text_of(bytes: &[u8]) -> Result<&str, Utf8Error>
    ensures cases { MatchResult result (λ text. (text.now ≡ bytes.now) × IsUtf8 bytes.now) (λ _. ¬ (IsUtf8 bytes.now)) }
{
    if bytes.len() < LONG {
        return str::from_utf8(bytes).map_err(|_| Utf8Error);
    }
    basic::from_utf8(bytes)
}

/// The longest front of bytes that is UTF-8.
pub fn utf8_front(bytes: &[u8]) -> &str
    ensures { result.now ≡ utf8_front bytes.now }
{
    match str::from_utf8(bytes) {
        Ok(text) => text,
        Err(fault) => str::from_utf8(&bytes[..fault.valid_up_to()]).unwrap_or(""),
    }
}
