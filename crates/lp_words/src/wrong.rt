//! What is wrong with words that ask for nothing.
//!
//! What words ask for is proved, and tells no more of wrong ones than that they ask for nothing. For a message they are looked at once
//! more. Which options there are, and what each takes, is read from the usage and the help, so no further list has to be kept.
//! That takes time only if the words are wrong.

ghost use Rattle.std.specs.Prelude.{◌≡◌, ◌==◌, Some};
ghost use Rattle.std.specs.Fmt.{DisplaysOnOk};
ghost use Rattle.std.specs.List.{before_first};
ghost use Rattle.lp_words.specs.Wrong.{are_times, is_time, is_times, value_text, word_text, wrong_text};

use crate::options::{is_number, place_of};
use crate::told::ToldName;
use std::alloc::Global;
use std::fmt;
use strsim::osa_distance;

/// What a program tells of its options.
#[derive(Clone, Copy)]
pub struct Manual<'a> {
    /// The usage: each option, and after it what it takes.
    pub usage: &'a str,
    /// The help: each option begins a line, and another word for it comes after a comma.
    pub help: &'a str,
    /// Options that exclude each other, and the words with which they do not, if there are such.
    pub odds: &'a [(&'a str, &'a str, &'a str)],
    /// Options, each with one that it needs.
    pub needs: &'a [(&'a str, &'a str)],
}

/// What is wrong with words.
#[derive(Clone, Copy)]
pub enum Wrong<'a> {
    /// No option is spelled so. The nearest one that is.
    Unknown(&'a str, Option<&'a str>),
    /// An option is given twice.
    Twice(&'a str),
    /// An option takes a value, and there is none.
    LacksValue(&'a str),
    /// An option takes no value, and has one.
    TakesNoValue(&'a str),
    /// An option takes one of these, and not this word.
    NoneOf(&'a str, &'a str, &'a str),
    /// An option takes a number, and not this word.
    NoNumber(&'a str, &'a str),
    /// An option does not take this number.
    OutOfRange(&'a str, &'a str),
    /// An option takes the name of a file, and not this word.
    NoFile(&'a str, &'a str),
    /// An option takes what is spelled so, and not this word.
    NoForm(&'a str, &'a str, &'a str),
    /// Two options exclude each other.
    AtOdds(&'a str, &'a str),
    /// An option needs another one.
    Needs(&'a str, &'a str),
    /// An option comes alone.
    Alone(&'a str),
    /// With `--cut` another option is given.
    AroundCut,
    /// A word has no byte.
    Empty,
    /// An option takes one file, and not so many.
    OneFile(&'a str, usize),
    /// A word is not UTF-8.
    NotUtf8(&'a [u8]),
    /// Anything else.
    Other,
}

// The first of the words of a text.
fn first_word<'t>(text: &'t str) -> &'t str
    ensures { result.now ≡ before_first (λ b. b == 32) text.now }
{
    match text.split_once(' ') {
        Some((word, _)) => word,
        None => text,
    }
}

// The option with which a line of a help begins, and another word for it, or a text without a byte.
fn option_of_line<'t>(line: &'t str) -> Option<(&'t str, &'t str)> {
    let line = line.strip_prefix("  ")?;
    if !line.starts_with("--") {
        return None;
    }
    let (head, _) = line.split_once("  ").unwrap_or((line, ""));
    match head.split_once(", ") {
        Some((long, short)) => Some((first_word(long), short)),
        None => Some((first_word(head), "")),
    }
}

// The name in a word that should be an option: without its dashes, and without what comes after `=`.
fn name_of_word<'a>(word: &'a str) -> &'a str {
    let word = word.trim_start_matches('-');
    match word.split_once('=') {
        Some((name, _)) => name,
        None => word,
    }
}

// Whether words have an option and its value, as a text has them.
fn have_both(words: &[&str], both: &str) -> bool {
    let Some((option, value)) = both.split_once(' ') else {
        return false;
    };
    let mut last = "";
    for word in words {
        if last == option && *word == value {
            return true;
        }
        last = word;
    }
    false
}

// Whether a word is a number, or one after a minus sign.
fn is_time(word: &[u8]) -> bool
    ensures { result ≡ is_time word.now }
{
    match word {
        [b'-', digits @ ..] => is_number(digits),
        _ => is_number(word),
    }
}

// Whether two words write a range of such numbers, of which one may be missing.
fn are_times(from: &[u8], to: &[u8]) -> bool
    ensures { result ≡ are_times from.now to.now }
{
    match (from.is_empty(), to.is_empty()) {
        (true, true) => false,
        (true, false) => is_time(to),
        (false, true) => is_time(from),
        (false, false) => is_time(from) && is_time(to),
    }
}

// Whether a word is two such words, with two dots between them.
fn is_times(word: &[u8]) -> bool
    ensures { result ≡ is_times word.now }
{
    match place_of(b'.', word) {
        Some(at) if word.len() - at > 1 && word[at + 1] == b'.' => {
            are_times(&word[..at], &word[at + 2..])
        }
        _ => false,
    }
}

impl<'a> Manual<'a> {
    // The option that a word names.
    fn option_of(self, word: &str) -> Option<&'a str> {
        if word.is_empty() {
            return None;
        }
        for line in self.help.lines() {
            if let Some((option, short)) = option_of_line(line) {
                if word == option || word == short {
                    return Some(option);
                }
            }
        }
        None
    }

    // What an option takes, as the usage has it: no byte, if it takes nothing.
    fn value_of(self, option: &str) -> &'a str {
        let mut is_next = false;
        for part in self.usage.split_whitespace() {
            if is_next && (part == "|" || part.starts_with('[')) {
                return "";
            }
            if is_next {
                return part.trim_end_matches(']');
            }
            is_next = part.trim_start_matches('[') == option;
        }
        ""
    }

    // The option that is spelled nearest to a word, if at most a third of the letters differ.
    fn nearest(self, alloc: Global, word: &str) -> Option<&'a str> {
        let name = name_of_word(word);
        let mut found = None;
        let mut below = name.len().max(3) / 3 + 1;
        for line in self.help.lines() {
            if let Some((option, _)) = option_of_line(line) {
                let distance = osa_distance(alloc, name, name_of_word(option)).ok()?;
                if distance < below {
                    below = distance;
                    found = Some(option);
                }
            }
        }
        found
    }

    // Whether words give an option.
    fn is_given(self, words: &[&str], option: &str) -> bool {
        for word in words {
            if self.option_of(word).is_some_and(|given| given == option) {
                return true;
            }
        }
        false
    }

    // What is wrong with a word that begins with `-`, and that no option is spelled as.
    fn wrong_word(self, alloc: Global, word: &'a str) -> Wrong<'a> {
        match word.split_once('=') {
            Some((option, _)) if self.option_of(option).is_some() => Wrong::TakesNoValue(option),
            _ if word.len() > 64 => Wrong::Unknown(word, None),
            _ => Wrong::Unknown(word, self.nearest(alloc, word)),
        }
    }

    // What is wrong with a word that comes after an option.
    fn wrong_value(self, option: &'a str, word: &'a str) -> Wrong<'a> {
        match self.value_of(option) {
            "FILE" => Wrong::NoFile(option, word),
            "N" | "BYTES" | "PARTS" | "SECONDS" if is_number(word.as_bytes()) => {
                Wrong::OutOfRange(option, word)
            }
            "N" | "BYTES" | "PARTS" | "SECONDS" => Wrong::NoNumber(option, word),
            "NS" if is_time(word.as_bytes()) => Wrong::OutOfRange(option, word),
            "FROM..TO" if option == "--times" && is_times(word.as_bytes()) => Wrong::OutOfRange(
                option, word,
            ),
            form if form.contains('|') || form.starts_with(|c: char| c.is_ascii_lowercase()) => {
                Wrong::NoneOf(option, form, word)
            }
            form => Wrong::NoForm(option, form, word),
        }
    }

    // What is wrong with an option, which these words come before, and those after.
    fn wrong_option(self, option: &'a str, before: &[&'a str], after: &[&'a str]) -> Wrong<'a> {
        if option == "--help" || option == "--version" {
            return Wrong::Alone(option);
        }
        if self.is_given(before, option) {
            return Wrong::Twice(option);
        }
        match after.first() {
            _ if self.value_of(option).is_empty() => Wrong::Other,
            None => Wrong::LacksValue(option),
            Some(word) if *word == "--" => Wrong::LacksValue(option),
            Some(word) if option == "--cut" && is_number(word.as_bytes()) => Wrong::AroundCut,
            Some(word) => self.wrong_value(option, word),
        }
    }

    // What is wrong with options together, and with names of inputs.
    fn wrong_together(self, options: &[&'a str], names: &[&str]) -> Wrong<'a> {
        if names.iter().any(|name| name.is_empty()) {
            return Wrong::Empty;
        }
        for (one, other, unless) in self.odds {
            if self.is_given(options, one)
                && self.is_given(options, other)
                && !have_both(options, unless)
            {
                return Wrong::AtOdds(one, other);
            }
        }
        for (option, needed) in self.needs {
            if self.is_given(options, option) && !self.is_given(options, needed) {
                return Wrong::Needs(option, needed);
            }
        }
        if self.is_given(options, "--range") && names.len() != 1 {
            return Wrong::OneFile("--range", names.len());
        }
        if self.is_given(options, "--now") && names.len() > 1 {
            return Wrong::OneFile("--now", names.len());
        }
        if options.iter().any(|word| *word == "-") {
            return Wrong::Needs("--refused -", "--check or --output");
        }
        Wrong::Other
    }

    /// What is wrong with words in order that ask for nothing, of which so many are options that can be read, with their values.
    pub fn wrong_words(self, alloc: Global, words: &[&'a str], count: usize) -> Wrong<'a> {
        let (options, rest) = words.split_at(count.min(words.len()));
        match rest {
            [] => Wrong::Other,
            [mark, names @ ..] if *mark == "--" => self.wrong_together(options, names),
            [word, after @ ..] => match self.option_of(word) {
                Some(option) => self.wrong_option(option, options, after),
                None => self.wrong_word(alloc, word),
            },
        }
    }
}

// A word in a message.
#[derive(Clone, Copy)]
struct Word<'a>(&'a str);

impl<'a> fmt::Display for Word<'a> {
    ghost use Rattle.std.specs.Prelude.{Some};
    ghost use Rattle.lp_words.specs.Wrong.{word_text};

    ghost output = { λ word. Some (word_text word.0.now) };

    fn fmt<W: fmt::Write>(&self, f: &mut fmt::Formatter<W>) -> fmt::Result {
        if self.0.is_empty() {
            return f.write_str("an empty word");
        }
        let word = ToldName::of(self.0);
        write!(f, "{word}")
    }
}

// Writes the words of which an option takes one, as `line, raw or json`.
fn show_values<W: fmt::Write>(values: &str, f: &mut fmt::Formatter<W>) -> fmt::Result {
    let (rest, last) = values.rsplit_once('|').unwrap_or(("", values));
    for (place, value) in rest.split('|').enumerate() {
        f.write_str(if place == 0 { "" } else { ", " })?;
        f.write_str(value)?;
    }
    f.write_str(if rest.is_empty() { "" } else { " or " })?;
    f.write_str(last)
}

// Writes what is wrong with one option or one word.
fn show_one<W: fmt::Write>(wrong: Wrong<'_>, f: &mut fmt::Formatter<W>) -> fmt::Result
    ensures { DisplaysOnOk W.write_str_gives f.old result (Some (wrong_text wrong.entry)) f.new }
{
    match wrong {
        Wrong::Twice(option) => write!(f, "{option} is given twice"),
        Wrong::LacksValue(option) => write!(f, "{option} needs a value"),
        Wrong::TakesNoValue(option) => write!(f, "{option} takes no value"),
        Wrong::Alone(option) => write!(f, "{option} comes alone"),
        Wrong::AtOdds(option, other) => write!(f, "{option} cannot be given with {other}"),
        Wrong::Needs(option, other) => write!(f, "{option} needs {other}"),
        Wrong::AroundCut => f.write_str(
            "--cut comes first, or after --strict or --newline-delimited alone",
        ),
        Wrong::Empty => f.write_str("an empty word is no name of a file"),
        Wrong::OneFile(option, count) => write!(f, "{option} takes one FILE, not {count}"),
        _ => f.write_str("these words ask for nothing"),
    }
}

// Writes what is wrong with the value of an option.
fn show_value<W: fmt::Write>(
    option: &str,
    word: &str,
    what: &str,
    f: &mut fmt::Formatter<W>,
) -> fmt::Result
    ensures { DisplaysOnOk W.write_str_gives f.old result (Some (value_text option.now word.now what.now)) f.new }
{
    let word = Word(word);
    write!(f, "{option}: {word} is {what}")
}

impl<'a> fmt::Display for Wrong<'a> {
    fn fmt<W: fmt::Write>(&self, f: &mut fmt::Formatter<W>) -> fmt::Result {
        match *self {
            Wrong::Unknown(word, near) => {
                let word = ToldName::of(word);
                write!(f, "unknown option {word}")?;
                match near {
                    Some(option) => write!(f, "; did you mean {option}?"),
                    None => Ok(()),
                }
            }
            Wrong::NoneOf(option, values, word) => {
                write!(f, "{option} takes ")?;
                show_values(values, f)?;
                let word = Word(word);
                write!(f, ", not {word}")
            }
            Wrong::NoNumber(option, word) => show_value(option, word, "no number", f),
            Wrong::OutOfRange(option, word) => show_value(option, word, "out of range", f),
            Wrong::NoFile(option, word) => show_value(option, word, "no name of a file", f),
            Wrong::NoForm(option, form, word) => {
                show_value(option, word, "no ", f)?;
                f.write_str(form)
            }
            Wrong::NotUtf8(word) => {
                let word = ToldName { bytes: word };
                write!(f, "{word} is not UTF-8")
            }
            wrong => show_one(wrong, f),
        }
    }
}
