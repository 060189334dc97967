//! Lines that go to batches: files of a few lines each, each of which comes to its place whole or not at all.
ghost use Rattle.std.specs.Prelude.{◌≡◌, ◌≢◌, List, ℕ, None, Some, Err, IfErr, IfNone, IfOk, OnOk, false, true, option_map};
ghost use Rattle.std.specs.declared.io.Error.{Error};
ghost use Rattle.std.specs.Io.{WritesAtMost};
ghost use Rattle.std.specs.IoError.{error_kind};
ghost use Rattle.std.specs.Io.KnownBytes.{Keeps, WriteAppends};
ghost use Rattle.influxdb_line_protocol.specs.code.Rules.{rules_of};
ghost use Rattle.influxdb_line_protocol.specs.format.Pieces.{Pieces};
ghost use Rattle.lp_files.specs.Batches.{Current, IsDone, IsGoing, IsPlaced, both, fitting, line_size, may_be, no_lines, takes_line};
ghost use Rattle.lp_files.specs.Files.{IsBeside, IsInPlace, IsSettled, batch_failure, new_file};
ghost use Rattle.lp_places.specs.Places.{is_interrupted};

use crate::beside::{FileBeside, NEW_MODE, make_beside};
use crate::files::{Output, failure_of_batch, let_file_go};
use influxdb_line_protocol::{Dialect, laws, split_lines_in};
use lp_endings::endings::Failure;
use lp_places::opens::is_interrupted;
use lp_words::batch_names::BatchNames;
use std::io::{self, ErrorKind, Write};
use std::str;

/// How large a batch may be, in lines and in bytes, if that is limited.
#[derive(Clone, Copy)]
pub struct Limits {
    pub lines: Option<usize>,
    pub bytes: Option<usize>,
}

/// How large a batch is, or some lines are.
#[derive(Clone, Copy)]
pub struct Size {
    pub lines: usize,
    pub bytes: usize,
}

impl Size {
    // The size of no lines.
    const NONE: Size = Size { lines: 0, bytes: 0 };

    // The size of both.
    fn and(self, other: Size) -> Size
        ensures { result ≡ both self other }
    {
        Size {
            lines: self.lines.saturating_add(other.lines),
            bytes: self.bytes.saturating_add(other.bytes),
        }
    }

    // The size of a line of so many bytes, with its newline.
    fn of_line(len: usize) -> Size
        ensures { result ≡ line_size len }
    {
        Size {
            lines: 1,
            bytes: len.saturating_add(1),
        }
    }
}

impl Limits {
    // Whether a batch may be so large.
    fn allow(self, size: Size) -> bool
        ensures { result ≡ may_be self size }
    {
        let has_few_lines = match self.lines {
            Some(most) => size.lines <= most,
            None => true,
        };
        let has_few_bytes = match self.bytes {
            Some(most) => size.bytes <= most,
            None => true,
        };
        has_few_lines && has_few_bytes
    }

    // Whether a line goes to a batch of this size: to an empty one, however long it is.
    fn take_line(self, batch: Size, line: Size) -> bool
        ensures { result ≡ takes_line self batch line }
    {
        batch.lines == 0 || self.allow(batch.and(line))
    }
}

// The size of the first lines of a text, by the rules of a dialect, that go to a batch of this size.
fn lines_that_fit(dialect: Dialect, limits: Limits, batch: Size, text: &str) -> Size
    ensures { (pieces : List (List ℕ)) → Pieces (rules_of dialect) text.now pieces → result ≡ fitting limits batch no_lines pieces }
{
    laws::pieces_join();
    let mut pieces = split_lines_in(dialect, text);
    let mut fit = Size::NONE;
    while let Some(piece) = pieces.next() {
        let line = Size::of_line(piece.len());
        // The last piece has no newline.
        if pieces.remainder().is_none() {
            return fit;
        }
        if !limits.take_line(batch.and(fit), line) {
            return fit;
        }
        fit = fit.and(line);
    }
    fit
}

// Puts a file in its place, once all of it is on the device, and waits until that is there too.
fn put_whole<'n, F: Output<'n>>(file: &mut F) -> io::Result<()>
    requires beside { IsBeside (F.state file.old) }
    ensures placed { OnOk result (IsInPlace (F.state file.new)) }
    ensures whole { IsInPlace (F.state file.new) → (F.state file.new).is_synced ≡ true }
{
    file.sync()?;
    file.put()?;
    file.sync_place()
}

// Takes a file away that is beside its place, or keeps it there, if that is asked for and it holds something.
fn leave(file: &mut FileBeside<'_, '_>, is_kept: bool)
    ensures settled { IsSettled file.new.state }
    ensures placed { IsInPlace file.old.state → file.new.state ≡ file.old.state }
    ensures away { IsInPlace file.new.state → IsInPlace file.old.state }
{
    if is_kept && file.is_beside() && file.may_hold_bytes() {
        file.keep();
    }
    file.remove();
}

// Puts a file in its place, once all of it is on the device, or leaves it.
fn put_or_leave(file: &mut FileBeside<'_, '_>, is_kept: bool) -> io::Result<()>
    requires { IsBeside file.old.state }
    ensures placed { OnOk result (IsPlaced file.new.state) }
    ensures whole { IsInPlace file.new.state → IsPlaced file.new.state }
    ensures settled { IsSettled file.new.state }
{
    let answer = put_whole(file);
    leave(file, is_kept);
    answer
}

/// Files for lines, one after another, each with a number in its name.
pub struct Batches<'a, 'n> {
    rt: &'a HostRuntime,
    // The word that says their names, which messages have.
    word: &'n str,
    names: BatchNames<'n>,
    dialect: Dialect,
    limits: Limits,
    // Whether a batch that cannot come to its place is kept beside it, since the input cannot be read again.
    is_kept: bool,
    // The number of the file that was written last.
    number: u64,
    // The file that is written, and what it has so far.
    file: Option<FileBeside<'a, 'n>>,
    size: Size,
}

// The file of the batch of this number.
fn file_of<'a, 'n>(
    rt: &'a HostRuntime,
    word: &'n str,
    names: BatchNames<'n>,
    number: u64,
) -> io::Result<FileBeside<'a, 'n>>
    ensures { IfOk result (λ file. file.state ≡ new_file word.entry) }
{
    match names.name_of(rt.alloc(), number)? {
        Some(place) => make_beside(rt, word, place, true, NEW_MODE),
        None => Err(io::Error::new(
            ErrorKind::InvalidInput,
            "the numbers of the batches are used up",
        )),
    }
}

// The file of the first batch, which no other run writes, and which can come to its place.
fn first_file<'a, 'n>(
    rt: &'a HostRuntime,
    word: &'n str,
    names: BatchNames<'n>,
) -> io::Result<FileBeside<'a, 'n>>
    ensures { IfOk result (λ file. file.state ≡ new_file word.entry) }
{
    let mut file = file_of(rt, word, names, 1)?;
    match file.check_place() {
        Ok(()) => Ok(file),
        Err(error) => {
            leave(&mut file, false);
            file.let_go();
            Err(error)
        }
    }
}

impl<'a, 'n> Batches<'a, 'n> {
    /// Batches of these names, of lines by the rules of a dialect. The file of the first one is made. If it is asked for, a batch that
    /// cannot come to its place is kept beside it.
    ///
    /// # Errors
    ///
    /// `Write` if that cannot be made.
    pub fn open(
        rt: &'a HostRuntime,
        word: &'n str,
        names: BatchNames<'n>,
        dialect: Dialect,
        limits: Limits,
        is_kept: bool,
    ) -> Result<Self, Failure<'n>>
        ensures made { IfOk result (λ batches. option_map (λ file. file.state) batches.file ≡ Some (new_file word.entry)) }
        ensures told { IfErr result (λ failure. (error : Error) × (failure ≡ batch_failure word.entry 1 error)) }
    {
        match first_file(rt, word, names) {
            Ok(file) => Ok(Batches {
                rt,
                word,
                names,
                dialect,
                limits,
                is_kept,
                number: 1,
                file: Some(file),
                size: Size::NONE,
            }),
            Err(error) => Err(failure_of_batch(word, 1, error)),
        }
    }

    /// The number of the batch that was written last.
    pub fn number(&self) -> u64
        ensures { result ≡ self.now.number }
    {
        self.number
    }

    // Makes the file of the next batch, unless one is written. The last one is in its place by then.
    fn begin(&mut self) -> io::Result<()>
        ensures begun { OnOk result (IfNone self.new.file ⊥) }
        ensures beside { OnOk result (Current IsBeside self.new) }
        ensures last { OnOk result (self.new.number ≢ self.old.number → Current IsPlaced self.old) }
    {
        if let Some(file) = &self.file {
            if file.is_beside() {
                return Ok(());
            }
            if !file.is_placed() {
                return Err(io::Error::from(ErrorKind::Other));
            }
        }
        // A batch that cannot be made is told by its number too.
        self.number = self.number.saturating_add(1);
        let file = file_of(self.rt, self.word, self.names, self.number)?;
        let_file_go(self.file.replace(file));
        Ok(())
    }

    // Ends the batch that is written: it comes to its place.
    fn end(&mut self) -> io::Result<()>
        ensures placed { OnOk result (Current IsPlaced self.new) }
        ensures settled { Current IsSettled self.new }
        ensures number { self.new.number ≡ self.old.number }
    {
        self.size = Size::NONE;
        let is_kept = self.is_kept;
        let Some(file) = &mut self.file else {
            return Ok(());
        };
        if file.is_beside() {
            return put_or_leave(file, is_kept);
        }
        if file.is_placed() {
            return Ok(());
        }
        Err(io::Error::from(ErrorKind::Other))
    }

    // Writes lines, which fit, to the batch.
    fn add(&mut self, lines: &[u8], size: Size) -> io::Result<()>
        ensures { OnOk result (Current IsGoing self.new) }
    {
        self.begin()?;
        if let Some(file) = &mut self.file {
            file.write_all(lines)?;
        }
        self.size = self.size.and(size);
        // A line has a byte or more.
        if self.limits.take_line(self.size, Size::of_line(0)) {
            return Ok(());
        }
        self.end()
    }

    /// Ends a run that gave this answer: the last batch comes to its place if the run succeeded and it has a line. Else it is removed,
    /// or kept beside its place if that is asked for.
    ///
    /// # Errors
    ///
    /// The failure of the run; `Write` if the batch cannot be put in its place.
    pub fn finish<T: Drop>(&mut self, answer: Result<T, Failure<'n>>) -> Result<T, Failure<'n>>
        ensures placed { OnOk result (IsDone self.old.size self.new.file) }
        ensures settled { Current IsSettled self.new }
        ensures failed { IfErr answer.entry (λ failure. result ≡ Err failure) }
        ensures value { IfOk answer.entry (λ value. IfOk result (λ other. other ≡ value)) }
    {
        let is_empty = self.size.bytes == 0;
        let is_kept = self.is_kept;
        if answer.is_ok() && !is_empty {
            return match self.end() {
                Ok(()) => answer,
                Err(error) => Err(failure_of_batch(self.word, self.number, error)),
            };
        }
        if let Some(file) = &mut self.file {
            leave(file, is_kept && answer.is_err());
        }
        answer
    }

    /// Lets the batches go.
    pub fn let_go(self)
        requires { Current IsSettled self }
    {
        let Batches {
            rt: _rt,
            word: _word,
            names: _names,
            dialect: _dialect,
            limits: _limits,
            is_kept: _is_kept,
            number: _number,
            file,
            size: _size,
        } = self;
        let_file_go(file);
    }
}

// An error after which no caller writes the same lines again, as it would after a call that a signal interrupted: their batch may be there.
fn last_error(error: io::Error) -> io::Error
    ensures last { is_interrupted (error_kind result) ≡ false }
    ensures other { is_interrupted (error_kind error) ≡ false → result ≡ error }
{
    if is_interrupted(error.kind()) {
        return io::Error::from(ErrorKind::Other);
    }
    error
}

impl<'a, 'n> Batches<'a, 'n> {
    // Writes those of these lines that go to one batch, and answers how many bytes they have.
    fn write_batch(&mut self, buf: &[u8]) -> io::Result<usize>
        ensures bound { WritesAtMost result buf.now }
        ensures going { OnOk result (Current IsGoing self.new) }
    {
        let text = str::from_utf8(buf).unwrap_or("");
        let mut fit = lines_that_fit(self.dialect, self.limits, self.size, text);
        if fit.bytes == 0 && !buf.is_empty() {
            self.end()?;
            fit = lines_that_fit(self.dialect, self.limits, self.size, text);
        }
        let Some(lines) = buf.get(..fit.bytes) else {
            return Err(io::Error::from(ErrorKind::InvalidData));
        };
        self.add(lines, fit)?;
        Ok(lines.len())
    }
}

/// Bytes come as whole lines. Each write takes those that go to one batch. No error says that a signal interrupted the write, since a
/// caller would then write the same lines again.
impl<'a, 'n> Write for Batches<'a, 'n> {
    fn write(&mut self, buf: &[u8]) -> io::Result<usize>
        ensures bound { WritesAtMost result buf.now }
        ensures bytes { WriteAppends None None result buf.now }
        ensures last { IfErr result (λ error. is_interrupted (error_kind error) ≡ false) }
        ensures going { OnOk result (Current IsGoing self.new) }
    {
        match self.write_batch(buf) {
            Ok(n) => Ok(n),
            Err(error) => Err(last_error(error)),
        }
    }

    fn flush(&mut self) -> io::Result<()>
        ensures bytes { Keeps None None }
    {
        Ok(())
    }
}
