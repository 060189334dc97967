//! Trimming: blanks and comments, spaces, or one byte are dropped at the start of a text.

ghost use Rattle.std.specs.Prelude.{◌≡◌, ◌<◌, drop, length, true, None, Some, IfSome, MatchOption};
ghost use Rattle.lp_format.specs.format.{Lines.byte, Lines.spaces, Trimming.trimmed, Readings.miss, Readings.reads};

/// Returns `text` without the blanks and comments at its start. It takes no memory, and looks at each byte that it drops once.
///
/// ```text
/// trimmed("\n # c\nm a=1i ")  gives  "m a=1i "
/// trimmed("# c")              gives  ""
/// ```
#[inline(always)]
pub fn trimmed(text: &str) -> &str
    ensures { result.now ≡ trimmed text.now }
{
    let bytes = text.as_bytes();
    let mut in_comment = false;
    for (place, byte) in bytes.iter().enumerate() {
        match byte {
            b'\n' => in_comment = false,
            b'#' => in_comment = true,
            b' ' | b'\t' => {}
            _ if in_comment => {}
            _ => return &text[place..],
        }
    }
    &text[text.len()..]
}

/// Returns the text after `mark`, if `mark` is the first byte of `text`, and else `None`.
#[inline(always)]
pub fn strip_byte(mark: u8, text: &str) -> Option<&str>
    requires { mark < 128 }
    ensures value { MatchOption result (byte mark text.now ≡ miss) (λ rest. byte mark text.now ≡ reads mark rest.now) }
    ensures less { IfSome result (λ rest. length rest.now < length text.now) }
{
    match text.as_bytes() {
        [first, ..] if *first == mark => Some(&text[1..]),
        _ => None,
    }
}

// How many spaces are at the start of `bytes`.
#[inline(always)]
fn spaces_len(bytes: &[u8]) -> usize
    ensures { result ≡ spaces bytes.now }
{
    bytes.iter().take_while(|byte| **byte == b' ').count()
}

/// Returns `text` without the spaces at its start.
#[inline(always)]
pub fn trim_start_spaces(text: &str) -> &str
    ensures { result.now ≡ drop (spaces text.now) text.now }
{
    &text[spaces_len(text.as_bytes())..]
}
