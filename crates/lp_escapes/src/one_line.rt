//! How a text is told on one line.
ghost use Rattle.std.specs.Prelude.{◌≡◌, ◌<◌, ◌≤◌, ◌++◌, ◌∷◌, [], decimal, drop, length, string_bytes, take, true, IsUtf8, OnOk};
ghost use Rattle.std.specs.List.{flat_map};
ghost use Rattle.lp_escapes.specs.Told.{hex_digit, on_one_line, told_byte};

use std::alloc::AllocError;

/// Of a fault line that is told on one line, or of the text of an object, so many bytes are told at most.
pub(crate) const MOST_TOLD: usize = 200;

/// The hexadecimal digit of a number below 16.
pub fn hex_digit(n: u8) -> char
    requires { n < 16 }
    ensures value { result ≡ hex_digit n }
    ensures ascii { result < 128 }
{
    if n < 10 {
        (b'0' + n) as char
    } else {
        (b'a' - 10 + n) as char
    }
}

// Adds a byte as it is told on one line.
fn tell_byte(faults: &mut String, byte: u8) -> Result<(), AllocError>
    ensures { OnOk result (string_bytes faults.new ≡ string_bytes faults.old ++ told_byte byte) }
{
    match byte {
        b'\n' => faults.push_str("\\n"),
        b'\t' => faults.push_str("\\t"),
        b'\r' => faults.push_str("\\r"),
        b'\\' => faults.push_str("\\\\"),
        b' '..=b'~' => faults.push(byte as char),
        _ => {
            faults.push_str("\\x")?;
            faults.push(hex_digit(byte / 16))?;
            faults.push(hex_digit(byte % 16))
        }
    }
}

/// Adds bytes as they are told on one line, with Rust's escapes for what ASCII does not print.
///
/// # Errors
///
/// If memory was refused; then a front of them was added.
pub fn tell_bytes(line: &mut String, bytes: &[u8]) -> Result<(), AllocError>
    ensures { OnOk result (string_bytes line.new ≡ string_bytes line.old ++ flat_map told_byte bytes.now) }
{
    for at in 0..bytes.len() {
        tell_byte(line, bytes[at])?;
    }
    Ok(())
}

/// Adds a text as it is told on one line.
#[tactic(auto, using(crate::proofs::OneLine::told_whole, crate::proofs::OneLine::told_front))]
pub fn tell_text(faults: &mut String, text: &[u8]) -> Result<(), AllocError>
    ensures { OnOk result (string_bytes faults.new ≡ string_bytes faults.old ++ on_one_line text.now) }
{
    if text.len() <= MOST_TOLD {
        return tell_bytes(faults, text);
    }
    let front = &text[..MOST_TOLD];
    tell_bytes(faults, front)?;
    write!(faults, ".. [{} bytes]", text.len())?;
    Ok(())
}

// Whether a byte is told as it is.
fn is_plain(byte: u8) -> bool
    ensures { result ≡ true → told_byte byte ≡ byte ∷ [] }
{
    (b' ' <= byte) & (byte <= b'~') & (byte != b'\\')
}

// Whether bytes are told as they are. No byte ends the loop, so that the compiler tests 16 at a time.
#[tactic(auto, using(crate::proofs::OneLine::one_more_plain))]
fn are_plain(bytes: &[u8]) -> bool
    ensures { result ≡ true → flat_map told_byte bytes.now ≡ bytes.now }
{
    let mut are = true;
    for at in 0..bytes.len() {
        are = are & is_plain(bytes[at]);
    }
    are
}

/// Tells on one line what follows these first bytes. Most texts stay as they are.
pub fn tell_from(faults: &mut String, from: usize) -> Result<(), AllocError>
    requires front { IsUtf8 (take from (string_bytes faults.old)) }
    requires within { from ≤ length (string_bytes faults.old) }
    ensures { OnOk result (string_bytes faults.new
        ≡ take from (string_bytes faults.old) ++ on_one_line (drop from (string_bytes faults.old))) }
{
    let line = &faults.as_bytes()[from..];
    if line.len() <= MOST_TOLD && are_plain(line) {
        return Ok(());
    }
    let text = faults.split_off(from)?;
    tell_text(faults, text.as_bytes())
}

/// Adds a number.
#[inline(always)]
pub fn put_number(faults: &mut String, number: usize) -> Result<(), AllocError>
    ensures { OnOk result (string_bytes faults.new ≡ string_bytes faults.old ++ decimal number) }
{
    let mut digits = itoa::Buffer::new();
    faults.push_str(digits.format(number))
}
