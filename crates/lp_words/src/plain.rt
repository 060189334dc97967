//! Words in one order: the options with their values, a mark, and the names of inputs.
//!
//! Users write options and files in any order, a value after its option or as `--option=value`, and `--` before names that begin
//! with `-`. Whatever they wrote, what reads the words then sees them in one order, so it need not know of that. It takes memory for two
//! lists of the words.
ghost use Rattle.std.specs.Prelude.{◌≡◌, ◌++◌, IfOk, OnOk, map, string_bytes};
ghost use Rattle.lp_words.specs.Plain.{has_value, in_order, no_order, order_of, parted, plain_words, texts, with_any, with_word};

use crate::options::{is_input, place_of};
use std::alloc::{AllocError, Global};

/// What the next word is.
#[derive(Clone, Copy, PartialEq, Eq)]
pub enum Next {
    /// An option, a name, or the mark that only names come after.
    Any,
    /// The value of the option before it.
    Value,
    /// A name.
    Named,
}

/// The words that came so far.
#[derive(Drop)]
pub struct Sorting<'a> {
    options: Vec<&'a str>,
    names: Vec<&'a str>,
    next: Next,
}

// Whether a word is one of these options.
fn has_value(valued: &[&str], word: &str) -> bool
    ensures { result ≡ has_value valued.now word.now }
{
    valued.iter().any(|option| *option == word)
}

impl<'a> Sorting<'a> {
    // Adds an option, or an option and its value, if `=` stands between them.
    fn add_option(&mut self, valued: &[&str], word: &'a str) -> Result<(), AllocError>
        ensures { OnOk result (order_of self.new
            ≡ record (order_of self.old) { options = (order_of self.old).options ++ parted valued.now word.now }) }
    {
        match place_of(b'=', word.as_bytes()) {
            Some(at) if has_value(valued, &word[..at]) => {
                self.options.push(&word[..at])?;
                self.options.push(&word[at + 1..])?;
            }
            _ => self.options.push(word)?,
        }
        Ok(())
    }

    // Adds a word that may be anything.
    fn add_any(&mut self, valued: &[&str], word: &'a str) -> Result<(), AllocError>
        ensures { OnOk result (order_of self.new ≡ with_any valued.now (order_of self.old) word.now) }
    {
        if word == "--" {
            self.next = Next::Named;
            return Ok(());
        }
        if word.is_empty() || is_input(word) {
            self.names.push(word)?;
            return Ok(());
        }
        if has_value(valued, word) {
            self.next = Next::Value;
            self.options.push(word)?;
            return Ok(());
        }
        self.add_option(valued, word)
    }

    // Adds a word.
    fn add(&mut self, valued: &[&str], word: &'a str) -> Result<(), AllocError>
        ensures { OnOk result (order_of self.new ≡ with_word valued.now (order_of self.old) word.now) }
    {
        match self.next {
            Next::Any => self.add_any(valued, word)?,
            Next::Value => {
                self.next = Next::Any;
                self.options.push(word)?;
            }
            Next::Named => self.names.push(word)?,
        }
        Ok(())
    }

    // All words in order.
    fn in_order(self) -> Result<Vec<&'a str>, AllocError>
        ensures { IfOk result (λ words. texts words.items ≡ in_order (order_of self.entry)) }
    {
        let mut words = self.options;
        words.push("--")?;
        words.extend_from_slice(self.names.as_slice())?;
        Ok(words)
    }
}

/// Words in one order: options with their values, the mark `--`, and the names of inputs. A value is the word after one of these
/// options, or what follows `=` in the same word. What comes after a word `--` are names, whatever they begin with.
///
/// # Errors
///
/// If memory was refused.
///
/// ```text
/// plain_words(&["--max-line"], &["a", "--max-line=7", "--lines"])  gives  --max-line 7 --lines -- a
/// plain_words(&["--max-line"], &["--", "-x"])                      gives  -- -x
/// ```
pub fn plain_words<'a>(
    alloc: Global,
    valued: &[&str],
    words: &[&'a str],
) -> Result<Vec<&'a str>, AllocError>
    ensures { IfOk result (λ plain. texts plain.items ≡ plain_words valued.now (texts words.now)) }
{
    let mut sorting = Sorting {
        options: Vec::new(alloc),
        names: Vec::new(alloc),
        next: Next::Any,
    };
    for at in 0..words.len() {
        sorting.add(valued, words[at])?;
    }
    sorting.in_order()
}

/// The words of a program in one order, of which these options have a value.
///
/// # Errors
///
/// If memory was refused.
pub fn words_in_order<'a>(
    alloc: Global,
    valued: &[&str],
    words: &'a [String],
) -> Result<Vec<&'a str>, AllocError>
    ensures { IfOk result (λ plain. texts plain.items ≡ plain_words valued.now (map string_bytes words.now)) }
{
    let mut list = Vec::with_capacity(alloc, words.len())?;
    for at in 0..words.len() {
        list.push(words[at].as_str())?;
    }
    plain_words(alloc, valued, list.as_slice())
}
