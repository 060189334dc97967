//! What words say that take one form in all programs: numbers, names of files, ranges, and how faults are told.
ghost use Rattle.std.specs.Prelude.{◌≡◌, ◌<◌, ◌==◌, IfSome, length, nat_lt, option_map, slice_index};
ghost use Rattle.std.specs.Char.{is_ascii_digit};
ghost use Rattle.std.specs.List.{list_all, position};
ghost use Rattle.lp_words.specs.Options.{are_objects, asked_range, decimal, faults_form, first_number, is_number, is_one_if, named_inputs, names_file, names_input, range_between, range_end, name_one_file, told_file};

use lp_escapes::forms::Faults;

/// The greatest length of a line, in bytes, if the words give none: 16 MiB.
pub const DEFAULT_MAX_LINE: usize = 16_777_216;

/// The greatest number of parts that an input is cut into, since the ends of all are held: those of so many take 8 MB. No
/// machine runs as many processes at once.
pub const MOST_PARTS: usize = 1_000_000;

/// A part of a file: its bytes from a place on, and before another, or to the end.
#[derive(Clone, Copy)]
pub struct Range {
    pub from: usize,
    pub to: Option<usize>,
}

/// The number that a word writes in decimal digits, and nothing else; `None` if there is none, or no usize holds it.
pub fn decimal_of(word: &str) -> Option<usize>
    ensures { result ≡ decimal word.now }
{
    if word.as_bytes().starts_with(b"+") {
        return None;
    }
    word.parse::<usize>().ok()
}

/// The number that a word writes, if it is at least 1.
pub fn first_number_of(word: &str) -> Option<usize>
    ensures { result ≡ first_number word.now }
{
    decimal_of(word).filter(|first| *first > 0)
}

/// Whether each of these bytes is a digit.
pub fn are_digits(bytes: &[u8]) -> bool
    ensures { result ≡ list_all is_ascii_digit bytes.now }
{
    bytes.iter().all(|byte| byte.is_ascii_digit())
}

/// Whether a word has a digit, and nothing else: it is a number in decimal digits, of whatever size.
pub fn is_number(word: &[u8]) -> bool
    ensures { result ≡ is_number word.now }
{
    !word.is_empty() && are_digits(word)
}

// The place that a range ends before, as a word writes it: none if it has no byte.
fn range_end_of(word: &str) -> Option<Option<usize>>
    ensures { result ≡ range_end word.now }
{
    if word.is_empty() {
        return Some(None);
    }
    Some(Some(decimal_of(word)?))
}

// The range from the place that a word writes, and before the one that another writes.
fn range_between(from: &str, to: &str) -> Option<Range>
    ensures { result ≡ range_between from.now to.now }
{
    let from = decimal_of(from)?;
    let to = range_end_of(to)?;
    Some(Range { from, to })
}

/// The place of the first byte of a word that is this one.
pub fn place_of(sought: u8, word: &[u8]) -> Option<usize>
    ensures place { result ≡ position (λ b. b == sought) word.now }
    ensures byte { IfSome result (λ at. (at < length word.now) × (slice_index word.now at ≡ sought)) }
{
    word.iter().position(|byte| *byte == sought)
}

/// The range that a word writes: two places, with two dots between them.
pub fn range_of(word: &str) -> Option<Range>
    ensures { result ≡ asked_range word.now }
{
    let at = place_of(b'.', word.as_bytes())?;
    let next = at + 1;
    if next >= word.len() || word.as_bytes()[next] != b'.' {
        return None;
    }
    range_between(&word[..at], &word[next + 1..])
}

/// Whether there is one word, if that is asked for.
pub fn is_one_if(is_asked: bool, words: &[&str]) -> bool
    ensures { result ≡ is_one_if is_asked words.now }
{
    !is_asked || words.len() == 1
}

/// How faults are told, as a word says.
pub fn faults_form_of(word: &str) -> Option<Faults>
    ensures { result ≡ faults_form word.now }
{
    match word {
        "line" => Some(Faults::OneLine),
        "raw" => Some(Faults::Raw),
        "json" => Some(Faults::Json {
            first_line: 1,
            has_piece: false,
        }),
        "json+text" => Some(Faults::Json {
            first_line: 1,
            has_piece: true,
        }),
        "editor" => Some(Faults::Editor { first_line: 1 }),
        _ => None,
    }
}

/// Whether faults are told as objects.
pub fn are_objects(faults: Faults) -> bool
    ensures { result ≡ are_objects faults }
{
    matches!(faults, Faults::Json { .. })
}

// Whether faults name their file if there is one alone: objects and lines for editors do.
fn name_one_file(faults: Faults) -> bool
    ensures { result ≡ name_one_file faults }
{
    matches!(faults, Faults::Json { .. } | Faults::Editor { .. })
}

/// The name that objects and lines for editors tell of their file, if words name one input, and that is a file. If they name several, each
/// tells its own.
pub fn told_file<'a>(faults: Faults, words: &[&'a str]) -> Option<&'a str>
    ensures { result ≡ told_file faults words.now }
{
    match words {
        [word] if name_one_file(faults) && *word != "-" => Some(*word),
        _ => None,
    }
}

/// Whether a word can be the name of a file: it has a byte, and the first is no `-`.
pub fn is_file(word: &str) -> bool
    ensures { result ≡ names_file word.now }
{
    match word.as_bytes() {
        [] => false,
        [first, ..] => *first != b'-',
    }
}

/// Whether a word names a file, or a standard stream, which is `-`.
pub fn is_input(word: &str) -> bool
    ensures { result ≡ names_input word.now }
{
    word == "-" || is_file(word)
}

// Whether a word has a byte.
fn has_byte(word: &str) -> bool
    ensures { result ≡ nat_lt 0 (length word.now) }
{
    0 < word.len()
}

// Whether each word has a byte.
fn have_bytes(words: &[&str]) -> bool
    ensures { result ≡ list_all (λ word. nat_lt 0 (length word.now)) words.now }
{
    words.iter().all(|word| has_byte(word))
}

/// The names of inputs that words are, if they are the mark `--` and names, each of a byte or more.
pub fn inputs_of<'w, 'a>(words: &'w [&'a str]) -> Option<&'w [&'a str]>
    ensures { option_map (λ names. names.now) result ≡ named_inputs words.now }
{
    let [mark, names @ ..] = words else {
        return None;
    };
    if *mark != "--" {
        return None;
    }
    if !have_bytes(names) {
        return None;
    }
    Some(names)
}
