//! What the words after the program's name ask for.
ghost use Rattle.std.specs.Prelude.{◌≡◌};
ghost use Rattle.lp_relay_program.specs.Words.{are_at_odds, are_opposed, asked_alone, asked_cut, asked_dialect, asked_help, asked_request, asked_task, cut_task};
ghost use Rattle.lp_relay_program.specs.Words.{first_given, first_named, first_offset, given_batches, given_old_pieces, given_settings, is_json, lacks_newlines, lacks_option, lacks_refused, lacks_types, names_lines, told_form};
ghost use Rattle.lp_relay_program.specs.Words.{nothing_given, portable_form, request_of, servers_named, start_number, times_form, types_form, with_file, with_flag, with_form, with_number, with_old_pieces, with_switch, with_times, with_value, with_word};

use crate::time_words::{TimeRange, time_of, times_of, unit_of};
use influxdb_line_protocol::Dialect;
use influxdb_line_protocol::portable::{Limits as Most, Servers};
use lp_files::batches::Limits;
use lp_programs::relays::Request;
use lp_relay::{Faults, LineForm, Numbering, Portable, Settings, StrictTypes, TimeUnit, Times};
use lp_words::options::{
    DEFAULT_MAX_LINE, Range, decimal_of, faults_form_of, first_number_of, inputs_of, is_file,
    is_input, is_one_if, range_of, told_file,
};
use lp_words::refusals::OldPieces;
use lp_words::wrong::Manual;

/// How the program is called: the lines that it prints if its words ask for nothing, without the last newline.
pub const USAGE: &str = "usage: lp_relay [--strict | --newline-delimited] [--whole-lines] [--crlf]
                [--verbatim | --canonical] [--portable influx1|victoria|all] [--types strict]
                [--max-fields N] [--time-unit s|ms|us|ns] [--default-time NS | --now]
                [--times FROM..TO] [--faults line|raw|json|json+text|editor] [--max-faults N]
                [--max-line BYTES] [--first-item N | [--lines] [--first-line N]] [--progress]
                [--summary] [--check | [--output FILE] [--batch-lines N] [--batch-bytes N]]
                [--refused FILE] [--append | --replace] [--range FROM..TO] [FILE..]
       lp_relay [--strict | --newline-delimited] --cut PARTS [FILE..]
       lp_relay --help | --version";

/// Of how many fields the types are kept at most, if the words do not say it.
pub const DEFAULT_MAX_FIELDS: usize = 1_000_000;

/// What `--help` prints, without the last newline: the options that people use most.
pub const SHORT_HELP: &str = "usage: lp_relay [OPTION].. [FILE..]
Reads InfluxDB line protocol from each FILE, or from standard input. Writes
good lines to standard output, and an error for each bad line to standard error.

  --strict           Read lines by the rules of the strict dialect.
  --newline-delimited
                     End each line at its newline, also inside a string.
  --verbatim         Write each valid line exactly as it came, byte for byte.
  --portable TO      Reject each line that these servers read otherwise:
                     influx1, victoria or all.
  --lines            Name the line of the input in each fault, instead of the
                     number of the item.
  --faults FORM      Report faults in this form: line, raw, json, json+text or
                     editor.
  --summary          Report at the end how many items were rejected for each
                     kind of fault.
  --check            Check the input, and write no line.
  --output FILE, -o  Write the lines to FILE.
  --refused FILE     Write each rejected line to FILE, byte for byte as it
                     came.

Exit status: 0 if each line was good, 1 if a line was rejected, 2 if the run
failed. `lp_relay --help all` prints all options, `man lp_relay` explains them.";

/// What `--help all` prints after the usage, without the last newline.
pub const HELP: &str = "Reads lines of InfluxDB line protocol from each FILE, one after another, or
from standard input. Writes good lines to standard output, and an error for each
bad line to standard error. An error begins with `item N:`; an item is one line
of the format, whose strings can hold newlines. If you name several files, an
error begins with the name of its file, except with --faults raw. The file name
- means standard input; use ./-x for a file -x.

  --strict           Read lines by the rules of the strict dialect. By default
                     lines are read by the rules of the Rust crate
                     influxdb-line-protocol. Cannot be combined with
                     --newline-delimited.
  --newline-delimited
                     Read lines by the rules of the newline-delimited dialect:
                     each newline ends a line. By default a newline inside a
                     string, or after a backslash, is part of the line. Cannot
                     be combined with --strict.
  --whole-lines      Leave the bytes after the last newline of each input
                     unread. By default these bytes are a last line. Needs
                     --newline-delimited.
  --crlf             Treat \\r\\n as a line terminator as well as \\n. By default
                     a carriage return is part of the line, and most lines that
                     end with a carriage return are rejected.
  --verbatim         Write each valid line exactly as it came, byte for byte.
                     By default lp_relay writes each line again in one
                     spelling, for example with one space between its parts.
                     Cannot be combined with --canonical.
  --canonical        Pass a line on only if it is already in canonical form,
                     that is, if lp_relay without this option would write
                     exactly the same bytes. By default each valid line is
                     written in canonical form. Cannot be combined with
                     --verbatim.
  --portable TO      Reject each line that these servers read otherwise than
                     the strict dialect does, and each line that harms other
                     lines on these servers: influx1, victoria or all. By
                     default no line is rejected for what a server makes of it.
  --types strict     Reject each line that gives a field another type than it
                     had before. By default a field can have another type in
                     each line.
  --max-fields N     Keep the types of at most N fields. The default is
                     1000000. Needs --types.
  --time-unit UNIT   Read each timestamp in this unit, and write it in
                     nanoseconds: s, ms, us or ns. The default is ns:
                     timestamps do not change.
  --default-time NS  Add this timestamp, in nanoseconds, to each line that has
                     no timestamp. By default such a line is written without a
                     timestamp, and a server gives it the time at which the
                     line arrives. Cannot be combined with --now.
  --now              Add the current time, in nanoseconds, to each line that
                     has no timestamp. By default such a line is written
                     without a timestamp, and a server gives it the time at
                     which the line arrives. Cannot be combined with
                     --default-time.
  --times FROM..TO   Reject each line whose time is before FROM, or not before
                     TO, or missing. By default a line can have any time, or
                     none.
  --lines            Name the line of the input in each fault, instead of the
                     number of the item. By default faults name items, which
                     are numbered from 1 over all files. Cannot be combined
                     with --first-item, except with --faults json.
  --first-item N     Number the first item N in faults. The default is 1.
                     Cannot be combined with --lines or --first-line, except
                     with --faults json.
  --first-line N     Number the first line N in faults, which name lines then
                     as with --lines. The default is 1. Cannot be combined with
                     --first-item, except with --faults json.
  --faults FORM      Report faults in this form: line, raw, json, json+text or
                     editor. The default is line.
  --max-faults N     Report at most N faults. By default each fault is
                     reported.
  --max-line BYTES   Reject lines longer than BYTES bytes. The default is
                     16777216, which is 16 MiB.
  --progress         Show on standard error how far the run is, if standard
                     error is a terminal. By default nothing is shown.
  --summary          Report at the end how many bytes, lines and items there
                     were, and how many items were rejected for each kind of
                     fault. By default nothing is reported at the end.
  --check            Check the input, and write no line. By default each valid
                     line is written. Cannot be combined with --output,
                     --batch-lines or --batch-bytes.
  --output FILE, -o  Write the lines to FILE. By default lines go to standard
                     output. Cannot be combined with --check.
  --batch-lines N    Write the lines to several files of at most N lines each.
                     By default all lines go to one file. Cannot be combined
                     with --check. Needs --output.
  --batch-bytes N    Write the lines to several files of at most N bytes each.
                     By default all lines go to one file. Cannot be combined
                     with --check. Needs --output.
  --refused FILE     Write each rejected line to FILE, byte for byte as it
                     came. By default rejected lines are not kept.
  --append           Add the rejected lines to the end of the regular file that
                     --refused names. By default that file must be new or
                     empty. Cannot be combined with --replace. Needs --refused.
  --replace          Replace the regular file that --refused names, even if it
                     is not empty. By default that file must be new or empty.
                     Cannot be combined with --append. Needs --refused.
  --range FROM..TO   Relay a part of one regular file: its bytes from offset
                     FROM up to, but not including, offset TO. By default each
                     file is relayed as a whole.
  --cut PARTS        Print where the input can be cut into PARTS parts of about
                     the same length.
  --help, -h         Print the options that people use most. --help all prints
                     the usage and all options.
  --version          Print the version, and the checksum of the logic by which
                     the program is proved.

Options can come in any order, before, between or after the files, each at most
once. A value can also follow an equals sign, as in --max-line=80. Each word
after -- is a file name. --cut PARTS must come first, or after --strict or
--newline-delimited.

Exit status: 0 if each line was good; 1 if a line was rejected; 2 if the input
could not be read, memory ran out, an output could not be written or is also an
input, or the arguments are wrong; 141, without a message, if nothing reads the
output.";

/// Options that have a value after them.
pub(crate) const VALUED: &[&str] = &[
    "--portable",
    "--types",
    "--max-fields",
    "--time-unit",
    "--default-time",
    "--times",
    "--first-item",
    "--first-line",
    "--faults",
    "--max-faults",
    "--max-line",
    "--output",
    "-o",
    "--batch-lines",
    "--batch-bytes",
    "--refused",
    "--range",
    "--cut",
];

/// Options that exclude each other, and the words with which they do not.
pub(crate) const ODDS: &[(&str, &str, &str)] = &[
    ("--newline-delimited", "--strict", ""),
    ("--canonical", "--verbatim", ""),
    ("--now", "--default-time", ""),
    ("--first-item", "--lines", "--faults json"),
    ("--first-item", "--first-line", "--faults json"),
    ("--check", "--output", ""),
    ("--batch-lines", "--check", ""),
    ("--batch-bytes", "--check", ""),
    ("--replace", "--append", ""),
];

/// Options, each with one that it needs.
pub(crate) const NEEDS: &[(&str, &str)] = &[
    ("--whole-lines", "--newline-delimited"),
    ("--max-fields", "--types"),
    ("--batch-lines", "--output"),
    ("--batch-bytes", "--output"),
    ("--append", "--refused"),
    ("--replace", "--refused"),
];

/// What messages know of the options.
pub(crate) const MANUAL: Manual<'static> = Manual {
    usage: USAGE,
    help: HELP,
    odds: ODDS,
    needs: NEEDS,
};

/// What the program is to do.
#[derive(Clone, Copy)]
pub enum Task<'a> {
    /// Relay the inputs.
    Relay(Request<'a>),
    /// Print where the inputs can be cut, by the rules of a dialect, into so many parts. So many of the last words name them.
    Cut(Dialect, usize, usize),
    /// Print the options that people use most, or, if true, all options.
    Help(bool),
    /// Print the version.
    Version,
}

/// The options that words gave so far.
#[derive(Clone, Copy)]
pub(crate) struct Given<'a> {
    strict: bool,
    newline_delimited: bool,
    whole_lines: bool,
    crlf: bool,
    verbatim: bool,
    canonical: bool,
    portable: Option<Portable>,
    types: bool,
    max_fields: Option<usize>,
    time_unit: Option<TimeUnit>,
    default_time: Option<i64>,
    now: bool,
    times: Option<TimeRange>,
    lines: bool,
    first_item: Option<usize>,
    first_line: Option<usize>,
    max_line: Option<usize>,
    progress: bool,
    summary: bool,
    check: bool,
    faults: Option<Faults>,
    max_faults: Option<usize>,
    output: Option<&'a str>,
    refused: Option<&'a str>,
    append: bool,
    replace: bool,
    batch_lines: Option<usize>,
    batch_bytes: Option<usize>,
    range: Option<Range>,
}

impl<'a> Given<'a> {
    fn nothing() -> Self
        ensures { result ≡ nothing_given }
    {
        Given {
            strict: false,
            newline_delimited: false,
            whole_lines: false,
            crlf: false,
            verbatim: false,
            canonical: false,
            portable: None,
            types: false,
            max_fields: None,
            time_unit: None,
            default_time: None,
            now: false,
            times: None,
            lines: false,
            first_item: None,
            first_line: None,
            max_line: None,
            progress: false,
            summary: false,
            check: false,
            faults: None,
            max_faults: None,
            output: None,
            refused: None,
            append: false,
            replace: false,
            batch_lines: None,
            batch_bytes: None,
            range: None,
        }
    }

    // Whether fault lines name lines of the input, and no items: objects name both.
    fn names_lines(self) -> bool
        ensures { result ≡ names_lines self.entry }
    {
        (self.lines || self.first_line.is_some()) && !is_json(self.faults)
    }

    // How faults are told, with the number of the first line that objects and lines for editors name.
    fn told_form(self) -> Faults
        ensures { result ≡ told_form self.entry }
    {
        match self.faults.unwrap_or(Faults::OneLine) {
            Faults::Json { has_piece, .. } => Faults::Json {
                first_line: self.first_line.unwrap_or(1),
                has_piece,
            },
            Faults::Editor { .. } => Faults::Editor {
                first_line: self.first_line.unwrap_or(1),
            },
            form => form,
        }
    }

    // The number of what fault lines name first.
    fn first_named(self) -> usize
        ensures { result ≡ first_named self.entry }
    {
        if self.names_lines() {
            self.first_line.unwrap_or(1)
        } else {
            self.first_item.unwrap_or(1)
        }
    }

    // Whose rules hold.
    fn dialect(self) -> Dialect
        ensures { result ≡ asked_dialect self.entry }
    {
        if self.strict {
            Dialect::Strict
        } else if self.newline_delimited {
            Dialect::NewlineDelimited
        } else {
            Dialect::Crate
        }
    }

    // Where the input begins in its file.
    fn first_offset(self) -> usize
        ensures { result ≡ first_offset self.entry }
    {
        match self.range {
            Some(range) => range.from,
            None => 0,
        }
    }

    // What becomes of the pieces that the file of refused pieces holds.
    fn old_pieces(self) -> OldPieces
        ensures { result ≡ given_old_pieces self.entry }
    {
        if self.append {
            OldPieces::Append
        } else if self.replace {
            OldPieces::Replace
        } else {
            OldPieces::Refuse
        }
    }

    // How large batches are, if the lines go to batches.
    fn batches(self) -> Option<Limits>
        ensures { result ≡ given_batches self.entry }
    {
        if self.batch_lines.is_none() && self.batch_bytes.is_none() {
            return None;
        }
        Some(Limits {
            lines: self.batch_lines,
            bytes: self.batch_bytes,
        })
    }

    // Whether the types of fields stay, and of how many.
    fn types(self) -> Option<StrictTypes>
        ensures { result ≡ types_form self.entry }
    {
        if !self.types {
            return None;
        }
        Some(StrictTypes {
            max_fields: self.max_fields.unwrap_or(DEFAULT_MAX_FIELDS),
        })
    }

    // With which times lines go out, if an option says so.
    fn times(self) -> Option<Times>
        ensures { result ≡ times_form self.entry }
    {
        if self.time_unit.is_none() && self.default_time.is_none() && self.times.is_none() {
            return None;
        }
        Some(Times {
            unit: self.time_unit.unwrap_or(TimeUnit::Nanos),
            missing: self.default_time,
            from: self.times.and_then(|range| range.from),
            to: self.times.and_then(|range| range.to),
        })
    }

    fn settings(self) -> Settings<'a>
        ensures { result ≡ given_settings self.entry }
    {
        let lines = if self.verbatim {
            LineForm::Verbatim
        } else if self.canonical {
            LineForm::Canonical
        } else {
            LineForm::Rebuilt
        };
        let numbering = if self.names_lines() {
            Numbering::Lines
        } else {
            Numbering::Items
        };
        Settings {
            dialect: self.dialect(),
            limit: self.max_line.unwrap_or(DEFAULT_MAX_LINE),
            drops_returns: self.crlf,
            lines,
            portable: self.portable,
            types: self.types(),
            times: self.times(),
            numbering,
            first: self.first_named(),
            faults: self.told_form(),
            max_faults: self.max_faults,
            puts_refused: self.refused.is_some(),
            counts_kinds: self.summary,
            file: None,
            first_offset: self.first_offset(),
        }
    }

    // These options and the one that a word names, if that was not given before and says what becomes of old refused pieces.
    fn with_old_pieces(mut self, word: &str) -> Option<Self>
        ensures { result ≡ with_old_pieces self.entry word.now }
    {
        match word {
            "--append" if !self.append => self.append = true,
            "--replace" if !self.replace => self.replace = true,
            _ => return None,
        }
        Some(self)
    }

    // The same, if it says how lines come or go out.
    fn with_form(mut self, word: &str) -> Option<Self>
        ensures { result ≡ with_form self.entry word.now }
    {
        match word {
            "--whole-lines" if !self.whole_lines => self.whole_lines = true,
            "--crlf" if !self.crlf => self.crlf = true,
            "--verbatim" if !self.verbatim => self.verbatim = true,
            "--canonical" if !self.canonical => self.canonical = true,
            "--now" if !self.now => self.now = true,
            _ => return None,
        }
        Some(self)
    }

    // The same, if it takes no word after it and is none of these.
    fn with_switch(mut self, word: &str) -> Option<Self>
        ensures { result ≡ with_switch self.entry word.now }
    {
        match word {
            "--strict" if !self.strict => self.strict = true,
            "--newline-delimited" if !self.newline_delimited => self.newline_delimited = true,
            "--lines" if !self.lines => self.lines = true,
            "--progress" if !self.progress => self.progress = true,
            "--summary" if !self.summary => self.summary = true,
            "--check" if !self.check => self.check = true,
            _ => return None,
        }
        Some(self)
    }

    // The same, if it says how lines come or go out, or what becomes of old refused pieces.
    fn with_rest(self, word: &str) -> Option<Self>
        ensures { result ≡ first_given (with_form self.entry word.now) (with_old_pieces self.entry word.now) }
    {
        match self.with_form(word) {
            Some(more) => Some(more),
            None => self.with_old_pieces(word),
        }
    }

    // These options and the one that a word names, if that was not given before and takes no word after it.
    fn with_flag(self, word: &str) -> Option<Self>
        ensures { result ≡ with_flag self.entry word.now }
    {
        match self.with_switch(word) {
            Some(more) => Some(more),
            None => self.with_rest(word),
        }
    }

    // These options and the one that a word names, if that was not given before and the word after it is the number that it takes.
    fn with_number(mut self, word: &str, value: &str) -> Option<Self>
        ensures { result ≡ with_number self.entry word.now value.entry }
    {
        match word {
            "--max-line" if self.max_line.is_none() => self.max_line = Some(decimal_of(value)?),
            "--first-item" if self.first_item.is_none() => {
                self.first_item = Some(start_number_of(value)?);
            }
            "--first-line" if self.first_line.is_none() => {
                self.first_line = Some(start_number_of(value)?);
            }
            "--batch-lines" if self.batch_lines.is_none() => {
                self.batch_lines = Some(first_number_of(value)?);
            }
            "--batch-bytes" if self.batch_bytes.is_none() => {
                self.batch_bytes = Some(first_number_of(value)?);
            }
            "--max-fields" if self.max_fields.is_none() => {
                self.max_fields = Some(decimal_of(value)?);
            }
            "--max-faults" if self.max_faults.is_none() => {
                self.max_faults = Some(decimal_of(value)?);
            }
            _ => return None,
        }
        Some(self)
    }

    // The same, if the word after it names a file.
    fn with_file(mut self, word: &str, value: &'a str) -> Option<Self>
        ensures { result ≡ with_file self.entry word.now value.entry }
    {
        match word {
            "--output" | "-o" if self.output.is_none() && is_file(value) => {
                self.output = Some(value);
            }
            "--refused" if self.refused.is_none() && is_input(value) => self.refused = Some(value),
            _ => return None,
        }
        Some(self)
    }

    // The same, if the word after it is another that it takes.
    fn with_word(mut self, word: &str, value: &'a str) -> Option<Self>
        ensures { result ≡ with_word self.entry word.now value.entry }
    {
        match word {
            "--faults" if self.faults.is_none() => self.faults = Some(faults_form_of(value)?),
            "--portable" if self.portable.is_none() => self.portable = Some(portable_of(value)?),
            "--types" if !self.types && value == "strict" => self.types = true,
            "--range" if self.range.is_none() => self.range = Some(range_of(value)?),
            _ => return None,
        }
        Some(self)
    }

    // The same, if the word after it names a file or is another that it takes.
    fn with_other(self, word: &str, value: &'a str) -> Option<Self>
        ensures { result ≡ first_given (with_file self.entry word.now value.entry) (with_word self.entry word.now value.entry) }
    {
        match self.with_file(word, value) {
            Some(more) => Some(more),
            None => self.with_word(word, value),
        }
    }

    // The same, if it is of the times of lines.
    fn with_times(mut self, word: &str, value: &str) -> Option<Self>
        ensures { result ≡ with_times self.entry word.now value.entry }
    {
        match word {
            "--time-unit" if self.time_unit.is_none() => self.time_unit = Some(unit_of(value)?),
            "--default-time" if self.default_time.is_none() => {
                self.default_time = Some(time_of(value)?);
            }
            "--times" if self.times.is_none() => self.times = Some(times_of(value)?),
            _ => return None,
        }
        Some(self)
    }

    // These options and the one that a word names, if that was not given before and the word after it says what it takes.
    fn with_value(self, word: &str, value: &'a str) -> Option<Self>
        ensures { result ≡ with_value self.entry word.now value.entry }
    {
        if let Some(more) = self.with_number(word, value) {
            return Some(more);
        }
        match self.with_times(word, value) {
            Some(more) => Some(more),
            None => self.with_other(word, value),
        }
    }

    // Whether two options say of one thing that it is so and otherwise. Lines go out in one way, and the rules are those of one dialect. Refused
    // pieces are added to their file or replace it. Lines without a timestamp have one time.
    fn are_opposed(self) -> bool
        ensures { result ≡ are_opposed self.entry }
    {
        self.verbatim && self.canonical
            || self.strict && self.newline_delimited
            || self.append && self.replace
            || self.now && self.default_time.is_some()
    }

    // Whether two options exclude each other. A check has no file for lines, and no batches. The number of the first item is none of a line.
    fn are_at_odds(self) -> bool
        ensures { result ≡ are_at_odds self.entry }
    {
        self.check && (self.output.is_some() || self.batches().is_some())
            || self.first_item.is_some() && self.names_lines()
            || self.are_opposed()
    }

    // Whether fields have a limit, but no types that stay.
    fn lacks_types(self) -> bool
        ensures { result ≡ lacks_types self.entry }
    {
        self.max_fields.is_some() && !self.types
    }

    // Whether only whole lines are read, but a newline may not end a line.
    fn lacks_newlines(self) -> bool
        ensures { result ≡ lacks_newlines self.entry }
    {
        self.whole_lines && !self.newline_delimited
    }

    // Whether there are options of refused pieces without a file for these, or the pieces would go to standard output with the lines.
    fn lacks_refused(self) -> bool
        ensures { result ≡ lacks_refused self.entry }
    {
        match self.refused {
            Some(name) => name == "-" && !self.check && self.output.is_none(),
            None => self.append || self.replace,
        }
    }

    // Whether an option lacks the one that it needs.
    fn lacks_option(self) -> bool
        ensures { result ≡ lacks_option self.entry }
    {
        self.lacks_newlines() || self.lacks_types() || self.lacks_refused()
    }

    // The request of these options, and of the inputs that words name after the mark. There is just one if a part of it is asked for, and no
    // more than one by the time of each read. No options exclude each other, and none lacks the one that it needs.
    fn request(self, words: &[&'a str]) -> Option<Request<'a>>
        ensures { result ≡ request_of self.entry words.now }
    {
        let names = inputs_of(words)?;
        if !is_one_if(self.range.is_some(), names) || self.now && names.len() > 1 {
            return None;
        }
        if self.are_at_odds() || self.lacks_option() {
            return None;
        }
        Some(Request {
            relay: Settings {
                file: told_file(self.told_form(), names),
                ..self.settings()
            },
            now: self.now,
            progress: self.progress,
            check: self.check,
            output: self.output,
            refused: self.refused,
            old_pieces: self.old_pieces(),
            batches: self.batches(),
            range: self.range,
            whole_lines: self.whole_lines,
            inputs: names.len(),
        })
    }
}

// The number of the first item or line that a word writes: so small that those after it have numbers too.
fn start_number_of(word: &str) -> Option<usize>
    ensures { result ≡ start_number word.now }
{
    first_number_of(word).filter(|first| *first < 1 << 63)
}

// The servers that a word names.
fn servers_of(word: &str) -> Option<Servers>
    ensures { result ≡ servers_named word.now }
{
    match word {
        "influx1" => Some(Servers::Influx1),
        "victoria" => Some(Servers::Victoria),
        "all" => Some(Servers::All),
        _ => None,
    }
}

// To which servers lines are to be portable, whose options are as they come.
fn portable_of(word: &str) -> Option<Portable>
    ensures { result ≡ portable_form word.now }
{
    let to = servers_of(word)?;
    Some(Portable {
        to,
        limits: Most::new(),
    })
}

// Whether faults are told as objects.
fn is_json(faults: Option<Faults>) -> bool
    ensures { result ≡ is_json faults }
{
    matches!(faults, Some(Faults::Json { .. }))
}

// The request that words in order ask for after the options given. No option is taken twice, so it calls itself a few times at most.
fn request_after<'a>(given: Given<'a>, words: &[&'a str]) -> Option<Request<'a>>
    ensures { result ≡ asked_request given.entry words.now }
{
    let [word, rest @ ..] = words else {
        return given.request(words);
    };
    if let Some(more) = given.with_flag(word) {
        return request_after(more, rest);
    }
    let [value, rest @ ..] = rest else {
        return given.request(words);
    };
    match given.with_value(word, value) {
        Some(more) => request_after(more, rest),
        None => given.request(words),
    }
}

// How many of these words are options that can be read after the options given, with what each takes. It calls itself for each.
fn options_after<'a>(given: Given<'a>, words: &[&'a str]) -> usize {
    let [word, rest @ ..] = words else {
        return 0;
    };
    if let Some(more) = given.with_flag(word) {
        return options_after(more, rest).saturating_add(1);
    }
    let [value, rest @ ..] = rest else {
        return 0;
    };
    match given.with_value(word, value) {
        Some(more) => options_after(more, rest).saturating_add(2),
        None => 0,
    }
}

/// How many words are options that can be read, with what each takes: all before the first word that is none.
pub(crate) fn options_in(words: &[&str]) -> usize {
    options_after(Given::nothing(), words)
}

// The cut that words ask for: of the inputs that the last ones name.
fn cut_task_of<'a>(dialect: Dialect, words: &[&str]) -> Option<Task<'a>>
    ensures { result ≡ cut_task dialect words.now }
{
    match words {
        [word, count, words @ ..] if *word == "--cut" => {
            let names = inputs_of(words)?;
            let parts = decimal_of(count)?;
            Some(Task::Cut(dialect, parts, names.len()))
        }
        _ => None,
    }
}

// The cut that words ask for.
fn cut_of<'a>(words: &[&str]) -> Option<Task<'a>>
    ensures { result ≡ asked_cut words.now }
{
    let [word, rest @ ..] = words else {
        return None;
    };
    match *word {
        "--strict" => cut_task_of(Dialect::Strict, rest),
        "--newline-delimited" => cut_task_of(Dialect::NewlineDelimited, rest),
        _ => cut_task_of(Dialect::Crate, words),
    }
}

// What `--help` asks for with these words after it.
fn help_of<'a>(names: &[&str]) -> Option<Task<'a>>
    ensures { result ≡ asked_help names.now }
{
    match names {
        [] => Some(Task::Help(false)),
        [name] if *name == "all" => Some(Task::Help(true)),
        _ => None,
    }
}

// What one option alone asks for.
fn alone_of<'a>(words: &[&str]) -> Option<Task<'a>>
    ensures { result ≡ asked_alone words.now }
{
    let [word, mark, names @ ..] = words else {
        return None;
    };
    if *mark != "--" {
        return None;
    }
    match *word {
        "--help" | "-h" => help_of(names),
        "--version" if names.is_empty() => Some(Task::Version),
        _ => None,
    }
}

/// What words in order ask for, or `None` if they are not as [`USAGE`] says: options, the mark `--`, and names of inputs, as
/// `plain_words` of `lp_words` gives them.
///
/// A number, as after `--max-line`, is a decimal one that a `usize` holds: digits alone, of which the first may be zeros. A word with
/// no byte names no file, and `-` alone names standard input. It takes no memory.
///
/// ```text
/// task_of(&["--"])                            gives  a relay of the crate's dialect with the default length
/// task_of(&["--lines", "--", "a", "-"])       gives  one of the file `a`, and of standard input after it, whose fault lines name lines
/// task_of(&["-o", "b", "--", "a"])            gives  a relay of the file `a` to the file `b`
/// task_of(&["a", "-o", "b", "--"])            gives  None
/// task_of(&["--check", "-o", "b", "--"])      gives  None
/// task_of(&["--strict", "--strict", "--"])    gives  None
/// task_of(&["--max-line", "+80", "--"])       gives  None
/// task_of(&["--cut", "4", "--"])              gives  the ends of 4 parts of the input
/// task_of(&["--cut", "4", "--strict", "--"])  gives  None
/// task_of(&["--range", "14..", "--", "a"])    gives  a relay of the file `a` from place 14 on
/// task_of(&["--range", "14..", "--"])         gives  None
/// task_of(&["--help", "--", "all"])           gives  the help with all options
/// task_of(&["--help", "--strict", "--"])      gives  None
/// ```
pub fn task_of<'a>(words: &[&'a str]) -> Option<Task<'a>>
    ensures { result ≡ asked_task words.now }
{
    if let Some(task) = alone_of(words) {
        return Some(task);
    }
    if let Some(task) = cut_of(words) {
        return Some(task);
    }
    Some(Task::Relay(request_after(Given::nothing(), words)?))
}
