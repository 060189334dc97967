//! Checks whether the name or the string at the start of a text is spelled as the builder spells it.

ghost use Rattle.std.specs.Prelude.{◌≡◌, ◌<◌, ◌≤◌, ℕ, length, not, slice_index, true};
ghost use Rattle.lp_scan.specs.code.{IsRunAt, is_mark, known_of, stops_of};
ghost use Rattle.lp_written.specs.code.AsWritten.{written_len, EndsName, IsOnlyRest, IsWrittenName, IsWrittenString, is_admitted_spelling};
ghost use Rattle.lp_format.specs.format.{reads};
ghost use Rattle.lp_values.specs.code.Outcomes.{kind_of};

use lp_scan::lanes::{LANES, unmarked_run};
use lp_scan::sets::TokenKind;
use lp_scan::trim::strip_byte;
use lp_values::names::NameKind;

// Returns the end of the run of bytes, from `at` on, that neither end a token nor get a backslash in it. Looks at one byte at a
// time.
#[inline(always)]
fn unmarked_tail(kind: TokenKind, bytes: &[u8], at: usize) -> usize
    requires { at ≤ length bytes.now }
    ensures { IsRunAt (λ b. not (is_mark kind b)) bytes.now at result }
{
    let mut end = at;
    while end < bytes.len() && !kind.is_stop(bytes[end]) && !kind.is_known(bytes[end]) {
        end += 1;
    }
    end
}

// Returns the end of the run of bytes, from `at` on, that neither end a token nor get a backslash in it. Looks at 16 bytes at a
// time.
#[inline(always)]
fn unmarked_end(kind: TokenKind, bytes: &[u8], at: usize) -> usize
    requires { at ≤ length bytes.now }
    ensures { IsRunAt (λ b. not (is_mark kind b)) bytes.now at result }
{
    let mut end = at;
    while bytes.len() - end >= LANES {
        let run = unmarked_run(kind, bytes, end);
        if run < LANES {
            return end + run;
        }
        end += LANES;
    }
    unmarked_tail(kind, bytes, end)
}

// Returns the number of bytes at the start that the builder spells for a token.
#[tactic(auto, using(crate::proofs::lemmas::parts::WrittenNames::token_steps))]
#[inline(always)]
fn written_len(kind: TokenKind, bytes: &[u8]) -> usize
    ensures value { result ≡ written_len (known_of kind) (stops_of kind) bytes.now }
    ensures within { result ≤ length bytes.now }
    ensures mark { result < length bytes.now → is_mark kind (slice_index bytes.now result) ≡ true }
{
    let mut end = unmarked_end(kind, bytes, 0);
    while end + 1 < bytes.len() && bytes[end] == b'\\' && kind.is_known(bytes[end + 1]) {
        end = unmarked_end(kind, bytes, end + 2);
    }
    end
}

// Returns true if a name of this kind with this spelling is admitted, as far as its first and last bytes tell.
#[inline(always)]
fn is_admitted_spelling(kind: NameKind, spelled: &[u8]) -> bool
    ensures { result ≡ is_admitted_spelling (kind_of kind) spelled.now }
{
    if spelled.is_empty() || spelled[spelled.len() - 1] == b'\\' {
        return false;
    }
    !(matches!(kind, NameKind::Measurement) && spelled[0] == b'#')
}

/// Returns the rest after the name at the start of `text`, or `None` if the builder does not spell the name in this way or the
/// name is not admitted.
#[inline(always)]
pub(crate) fn after_written_name(kind: NameKind, text: &str) -> Option<&str>
    ensures { IsOnlyRest (IsWrittenName (kind_of kind) text.now) (EndsName (kind_of kind)) result }
{
    let bytes = text.as_bytes();
    let len = written_len(kind.token(), bytes);
    if is_admitted_spelling(kind, &bytes[..len]) {
        Some(&text[len..])
    } else {
        None
    }
}

/// Returns the rest after the string at the start of `text`, or `None` if the builder does not spell the string in this way.
#[inline(always)]
pub(crate) fn after_written_string(text: &str) -> Option<&str>
    ensures { IsOnlyRest (IsWrittenString text.now) (λ rest. Unit) result }
{
    let opened = strip_byte(b'"', text)?;
    let len = written_len(TokenKind::String, opened.as_bytes());
    strip_byte(b'"', &opened[len..])
}
