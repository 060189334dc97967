//! Names and words as messages tell them.
//!
//! Whoever chose a name may have put anything into it. So it is told on one line, by the escapes of fault lines: it can neither look
//! like another message nor steer a terminal. It takes no memory, since messages also tell that memory ran out.
ghost use Rattle.std.specs.Prelude.{◌≡◌, ◌<◌, Some};
ghost use Rattle.std.specs.Fmt.{DisplaysOnOk};
ghost use Rattle.lp_escapes.specs.Told.{hex_digit, told_byte};
ghost use Rattle.lp_words.specs.Refusals.{told_name};

use std::fmt;

/// A name or a word, shown on one line: `\n`, `\t`, `\r`, `\\`, and `\x..` for each other byte that ASCII does not print.
#[derive(Clone, Copy)]
pub struct ToldName<'a> {
    pub bytes: &'a [u8],
}

impl<'a> ToldName<'a> {
    /// This name or word.
    pub fn of(text: &'a str) -> Self
        ensures { result.bytes.now ≡ text.now }
    {
        ToldName {
            bytes: text.as_bytes(),
        }
    }
}

// The hexadecimal digit of a number below 16.
fn hex_digit(n: u8) -> char
    requires { n < 16 }
    ensures value { result ≡ hex_digit n }
    ensures ascii { result < 128 }
{
    if n < 10 {
        (b'0' + n) as char
    } else {
        (b'a' - 10 + n) as char
    }
}

// Writes a byte as it is told on one line.
fn show_byte<W: fmt::Write>(byte: u8, f: &mut fmt::Formatter<W>) -> fmt::Result
    ensures { DisplaysOnOk W.write_str_gives f.old result (Some (told_byte byte)) f.new }
{
    match byte {
        b'\n' => f.write_str("\\n"),
        b'\t' => f.write_str("\\t"),
        b'\r' => f.write_str("\\r"),
        b'\\' => f.write_str("\\\\"),
        b' '..=b'~' => f.write_char(byte as char),
        _ => {
            f.write_str("\\x")?;
            f.write_char(hex_digit(byte / 16))?;
            f.write_char(hex_digit(byte % 16))
        }
    }
}

// Writes bytes as they are told on one line.
fn show_bytes<W: fmt::Write>(bytes: &[u8], f: &mut fmt::Formatter<W>) -> fmt::Result
    ensures { DisplaysOnOk W.write_str_gives f.old result (Some (told_name bytes.now)) f.new }
{
    for at in 0..bytes.len() {
        show_byte(bytes[at], f)?;
    }
    Ok(())
}

impl<'a> fmt::Display for ToldName<'a> {
    ghost use Rattle.std.specs.Prelude.{Some};
    ghost use Rattle.lp_words.specs.Refusals.{told_name};

    ghost output = { λ told. Some (told_name told.bytes.now) };

    fn fmt<W: fmt::Write>(&self, f: &mut fmt::Formatter<W>) -> fmt::Result {
        show_bytes(self.bytes, f)
    }
}
