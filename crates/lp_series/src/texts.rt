//! Which bytes are text.

ghost use Rattle.std.specs.Prelude.{◌≡◌, IsUtf8, MatchOption};

use simdutf8::basic;
use std::str;

// From this length on `simdutf8` tests bytes. It is several times as fast as std if they are not ASCII; if they are, it takes longer
// below this length.
const LONG: usize = 128;

// The text of bytes, if they are UTF-8.
pub(crate) fn text_of(bytes: &[u8]) -> Option<&str>
    ensures { MatchOption result (¬ (IsUtf8 bytes.now)) (λ text. (text.now ≡ bytes.now) × IsUtf8 bytes.now) }
{
    if bytes.len() < LONG {
        return str::from_utf8(bytes).ok();
    }
    basic::from_utf8(bytes).ok()
}
