//! A text in a string of JSON.
ghost use Rattle.std.specs.Prelude.{◌≡◌, ◌<◌, ◌≤◌, ◌++◌, ◌∷◌, [], codes, drop, false, length, string_bytes, take, true, IsUtf8, OnOk};
ghost use Rattle.base64.specs.Engines.{standard};
ghost use Rattle.base64.specs.GeneralPurpose.{encode_of};
ghost use Rattle.lp_escapes.specs.JsonTexts.{bytes_string, cut_json_text, escape_of, is_control};
ghost use Rattle.lp_escapes.specs.JsonTexts.{is_escaped, is_layout_mark, json_character, json_text};
ghost use Rattle.lp_escapes.specs.Told.{hex_digit};

use crate::one_line::{MOST_TOLD, hex_digit};
use crate::texts::{text_of, utf8_front};
use base64::engine::general_purpose::STANDARD;
use std::alloc::AllocError;

// Whether a character is a control character.
fn is_control(c: char) -> bool
    ensures { result ≡ is_control c }
{
    c < ' ' || ('~' < c && c < '\u{a0}')
}

// Whether a character separates lines or sets the direction of text.
fn is_layout_mark(c: char) -> bool
    ensures { result ≡ is_layout_mark c }
{
    c == '\u{61c}'
        || ('\u{200d}' < c && c < '\u{2010}')
        || ('\u{2027}' < c && c < '\u{202f}')
        || ('\u{2065}' < c && c < '\u{206a}')
}

// Whether a character has an escape in a string of JSON.
fn is_escaped(c: char) -> bool
    ensures { result ≡ is_escaped c }
{
    is_control(c) || c == '"' || c == '\\' || is_layout_mark(c)
}

// Adds the hexadecimal digit of a number below 16.
fn put_digit(json: &mut String, digit: u32) -> Result<(), AllocError>
    requires { digit < 16 }
    ensures { OnOk result (string_bytes json.new ≡ string_bytes json.old ++ hex_digit digit ∷ []) }
{
    json.push(hex_digit(digit as u8))
}

// Adds the escape of a character.
fn put_escape(json: &mut String, c: char) -> Result<(), AllocError>
    ensures { OnOk result (string_bytes json.new ≡ string_bytes json.old ++ escape_of c) }
{
    match c {
        '"' => json.push_str("\\\""),
        '\\' => json.push_str("\\\\"),
        _ => {
            let number = c as u32;
            json.push_str("\\u")?;
            put_digit(json, number / 4096 % 16)?;
            put_digit(json, number / 256 % 16)?;
            put_digit(json, number / 16 % 16)?;
            put_digit(json, number % 16)
        }
    }
}

// Adds a character as it stands in a string of JSON.
fn put_character(json: &mut String, c: char) -> Result<(), AllocError>
    ensures { OnOk result (string_bytes json.new ≡ string_bytes json.old ++ json_character c) }
{
    if is_escaped(c) {
        put_escape(json, c)
    } else {
        json.push(c)
    }
}

// Whether a byte is a character of ASCII that stands in a string of JSON as it is.
fn is_plain(byte: u8) -> bool
    ensures { result ≡ true → (byte < 128) × (is_escaped byte ≡ false) }
{
    (b' ' <= byte) & (byte <= b'~') & (byte != b'"') & (byte != b'\\')
}

// Whether bytes are text of ASCII that stands in a string of JSON as it is. No byte ends the loop, so that the compiler tests 16 at a time.
#[tactic(auto, using(crate::proofs::JsonTexts::one_more_plain))]
fn are_plain(bytes: &[u8]) -> bool
    ensures { result ≡ true → json_text bytes.now ≡ bytes.now }
{
    let mut are = true;
    for at in 0..bytes.len() {
        are = are & is_plain(bytes[at]);
    }
    are
}

/// Adds a text as it stands in a string of JSON, without the quotes around it.
///
/// A quote and a backslash get a backslash. `\u` and four hexadecimal digits stand for each character that could move a terminal's cursor or
/// break or turn a line: the control characters up to U+001F and from U+007F to U+009F, U+061C, U+200E, U+200F, U+2028 to U+202E, and
/// U+2066 to U+2069. Each other character is added as it is, so a reader of JSON gets the text back.
///
/// # Errors
///
/// If memory was refused; then a front of it was added.
pub fn put_json_text(json: &mut String, text: &str) -> Result<(), AllocError>
    ensures { OnOk result (string_bytes json.new ≡ string_bytes json.old ++ json_text text.now) }
{
    if are_plain(text.as_bytes()) {
        return json.push_str(text);
    }
    for c in text.chars() {
        put_character(json, c)?;
    }
    Ok(())
}

// Adds a text as it stands in a string of JSON, or the characters of its start, and how many bytes it has.
#[tactic(auto, using(crate::proofs::JsonTexts::json_whole, crate::proofs::JsonTexts::json_front))]
fn put_cut_text(faults: &mut String, text: &str) -> Result<(), AllocError>
    ensures { OnOk result (string_bytes faults.new ≡ string_bytes faults.old ++ cut_json_text text.now) }
{
    if text.len() <= MOST_TOLD {
        return put_json_text(faults, text);
    }
    put_json_text(faults, utf8_front(&text.as_bytes()[..MOST_TOLD]))?;
    write!(faults, ".. [{} bytes]", text.len())?;
    Ok(())
}

/// Escapes what follows these first bytes, for a string of JSON, and cuts it. Most texts are short, and have nothing to escape.
pub fn escape_from(faults: &mut String, from: usize) -> Result<(), AllocError>
    requires front { IsUtf8 (take from (string_bytes faults.old)) }
    requires within { from ≤ length (string_bytes faults.old) }
    ensures { OnOk result (string_bytes faults.new
        ≡ take from (string_bytes faults.old) ++ cut_json_text (drop from (string_bytes faults.old))) }
{
    let text = &faults.as_bytes()[from..];
    if text.len() <= MOST_TOLD && are_plain(text) {
        return Ok(());
    }
    let text = faults.split_off(from)?;
    put_cut_text(faults, text.as_str())
}

// Adds the end of a name, and a text as a string of JSON.
fn put_text(faults: &mut String, text: &str) -> Result<(), AllocError>
    ensures { OnOk result (string_bytes faults.new
        ≡ string_bytes faults.old ++ (codes "\":\"" ++ json_text text.now ++ codes "\"")) }
{
    faults.push_str("\":\"")?;
    put_json_text(faults, text)?;
    faults.push_str("\"")
}

// Adds the end of a name, and bytes in base64.
fn put_base64(faults: &mut String, bytes: &[u8]) -> Result<(), AllocError>
    ensures { OnOk result (string_bytes faults.new
        ≡ string_bytes faults.old ++ (codes "_base64\":\"" ++ encode_of standard bytes.now ++ codes "\"")) }
{
    faults.push_str("_base64\":\"")?;
    STANDARD.encode_string(bytes, faults)?;
    faults.push_str("\"")
}

/// Adds the end of a name, and bytes as a string of JSON: their text, or in base64 if they are not UTF-8.
pub fn put_bytes(faults: &mut String, bytes: &[u8]) -> Result<(), AllocError>
    ensures { OnOk result (string_bytes faults.new ≡ string_bytes faults.old ++ bytes_string bytes.now) }
{
    match text_of(bytes) {
        Ok(text) => put_text(faults, text),
        Err(_) => put_base64(faults, bytes),
    }
}
