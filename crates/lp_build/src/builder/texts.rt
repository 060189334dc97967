//! Writes texts with their backslashes, and counts their bytes.

ghost use Rattle.std.specs.Prelude.{◌≡◌, ◌+◌, ◌<◌, ◌≤◌, ◌∷◌, ◌++◌, ℕ, length, not, IfNone, IfSome};
ghost use Rattle.std.specs.List.{list_all};
ghost use Rattle.lp_format.specs.format.{backslash, is_one_of, escaped};
ghost use Rattle.lp_scan.specs.code.{known_of};

use super::buffer::BufMut;
use lp_scan::marks::before_first;
use lp_scan::sets::TokenKind;

// Returns true if the text holds none of these bytes.
#[tactic(auto, using(crate::proofs::lemmas::builder::BuilderLemmas::first_decides))]
#[inline(always)]
pub(super) fn is_free_of(marks: [u8; 4], text: &[u8]) -> bool
    ensures { result ≡ list_all (λ b. not (is_one_of marks b)) text.now }
{
    before_first(marks, text) == text.len()
}

// Finds the first byte of `text` that gets a backslash. Returns the text before it, the byte, and the text after it.
#[tactic(auto, using(crate::proofs::lemmas::builder::BuilderLemmas::escaped_first))]
#[inline(always)]
fn next_escape(kind: TokenKind, text: &[u8]) -> Option<(&[u8], u8, &[u8])>
    ensures some { IfSome result (λ p. escaped (known_of kind) text.now
        ≡ p.0.now ++ backslash ∷ p.1 ∷ escaped (known_of kind) p.2.now) }
    ensures parts { IfSome result (λ p. length p.0.now + length p.2.now + 1 ≡ length text.now) }
    ensures none { IfNone result (escaped (known_of kind) text.now ≡ text.now) }
{
    let at = before_first(kind.known(), text);
    if at == text.len() {
        return None;
    }
    Some((&text[..at], text[at], &text[at + 1..]))
}

// Returns the length of `text` with its backslashes. The sum cannot overflow, because a text has at most half as many bytes as a
// `usize` can count.
#[inline(always)]
pub(super) fn escaped_len(kind: TokenKind, text: &[u8]) -> usize
    ensures value { result ≡ length (escaped (known_of kind) text.now) }
    ensures few { result ≤ length text.now + length text.now }
{
    let mut len = text.len();
    let mut rest = text;
    while let Some((_, _, after)) = next_escape(kind, rest) {
        len += 1;
        rest = after;
    }
    len
}

// Appends `text` with its backslashes. The bytes between two backslashes are copied as one run.
#[inline(always)]
pub(super) fn put_escaped<B: BufMut>(buf: &mut B, kind: TokenKind, text: &[u8])
    requires { length (escaped (known_of kind) text.now) ≤ B.room buf.old }
    ensures bytes { B.bytes buf.new ≡ B.bytes buf.old ++ escaped (known_of kind) text.now }
    ensures room { B.room buf.old ≤ B.room buf.new + length (escaped (known_of kind) text.now) }
{
    let mut rest = text;
    while let Some((plain, byte, after)) = next_escape(kind, rest) {
        buf.put(plain);
        buf.put(&[b'\\', byte]);
        rest = after;
    }
    buf.put(rest);
}
