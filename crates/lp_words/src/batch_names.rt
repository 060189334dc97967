//! How batches are named: by a word that has a place for the number of each.
ghost use Rattle.std.specs.Prelude.{◌≡◌, ◌<◌, ◌+◌, IfOk, IfSome, length, option_map, slice_index, string_bytes};
ghost use Rattle.std.specs.List.{list_all};
ghost use Rattle.lp_words.specs.BatchNames.{batch_name, batch_names, is_batch, is_plain, seen_names, width_at};
ghost use Rattle.lp_words.specs.Paths.{folder_of};

use crate::options::{are_digits, place_of};
use crate::paths::folder_and_file;
use std::alloc::{AllocError, Global};

// As many zeros as a number may have digits.
const ZEROS: &str = "000000000";

// Whether a byte can come after the number.
fn is_plain(byte: u8) -> bool
    ensures { result ≡ is_plain byte }
{
    byte != b'%' && byte != b'/'
}

/// The names of batches, as a word says them: `a/b-%06d.lp` names `a/b-000001.lp` and so on.
#[derive(Clone, Copy)]
pub struct BatchNames<'n> {
    /// What comes before the number.
    pub before: &'n str,
    /// How many digits the number has.
    pub width: usize,
    /// What comes after it.
    pub after: &'n str,
}

// Whether each of these bytes can.
fn are_plain(bytes: &[u8]) -> bool
    ensures { result ≡ list_all is_plain bytes.now }
{
    bytes.iter().all(|byte| is_plain(*byte))
}

// How many digits the number has for which a word has a place here: `%0`, a digit from 1 to 9, and `d`.
fn width_at(word: &[u8], at: usize) -> Option<usize>
    requires { at < length word.now }
    ensures width { result ≡ width_at word.now at }
    ensures end { IfSome result (λ _. (at + 3 < length word.now) × (slice_index word.now (at + 3) ≡ 100)) }
{
    if word.len() - at < 4 || word[at + 1] != b'0' || word[at + 3] != b'd' {
        return None;
    }
    let digit = word[at + 2];
    if digit < b'1' || digit > b'9' {
        return None;
    }
    Some((digit - b'0') as usize)
}

/// The names that a word says: it has one `%`, with `0`, a digit from 1 to 9 and `d` after it, and no `/` after that.
pub fn batch_names_of(word: &str) -> Option<BatchNames<'_>>
    ensures { option_map seen_names result ≡ batch_names word.now }
{
    let bytes = word.as_bytes();
    let at = place_of(b'%', bytes)?;
    let width = width_at(bytes, at)?;
    let last = at + 3;
    if !are_plain(&bytes[last + 1..]) {
        return None;
    }
    Some(BatchNames {
        before: &word[..at],
        width,
        after: &word[last + 1..],
    })
}

impl<'n> BatchNames<'n> {
    /// The name of the batch of this number: `None` if the number has more digits than there are places.
    ///
    /// # Errors
    ///
    /// If memory was refused.
    pub fn name_of(self, alloc: Global, number: u64) -> Result<Option<String>, AllocError>
        ensures { IfOk result (λ found. IfSome found (λ name. string_bytes name ≡ batch_name (seen_names self.entry) number)) }
    {
        let digits = number.to_string(alloc)?;
        let missing = self.width.saturating_sub(digits.len());
        if digits.len() > self.width || missing > ZEROS.len() {
            return Ok(None);
        }
        let mut name = String::from_str(alloc, self.before)?;
        name.push_str(&ZEROS[..missing])?;
        name.push_str(digits.as_str())?;
        name.push_str(self.after)?;
        Ok(Some(name))
    }

    /// The folder of the batches.
    pub fn folder(self) -> &'n str
        ensures { result.now ≡ folder_of self.entry.before.now }
    {
        folder_and_file(self.before).0
    }

    /// Whether a file of this name, in whichever folder, is named as a batch.
    pub fn is_one(self, file: &str) -> bool
        ensures { result ≡ is_batch (seen_names self.entry) file.now }
    {
        let (_, start) = folder_and_file(self.before);
        let Some(rest) = file.as_bytes().strip_prefix(start.as_bytes()) else {
            return false;
        };
        match rest.strip_suffix(self.after.as_bytes()) {
            Some(digits) => digits.len() == self.width && are_digits(digits),
            None => false,
        }
    }
}
