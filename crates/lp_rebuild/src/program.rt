//! Runs from a source to two sinks.
ghost use Rattle.std.specs.Prelude.{◌≡◌, ◌+◌, ◌<◌, ◌≤◌, take, drop, length, max, option_map, vec_len, true, IfOk, OnOk, OnErr};
ghost use Rattle.std.specs.Io.KnownBytes.{Appends, Consumes, IsAtEnd};
ghost use Rattle.influxdb_line_protocol.specs.code.Rules.{rules_of};
ghost use Rattle.lp_rebuild.specs.Devices.{CountsFailure};
ghost use Rattle.lp_rebuild.specs.Running.{AppendsFront, CountsReadFault, Runs, RunsIn, dialect_of, reader_told, status_of, writer_told};

use crate::{DeviceFault, Rebuilt, Sink, Source, rebuild_in};
use influxdb_line_protocol::Dialect;
use std::alloc::{AllocError, Global};
use std::fmt;

/// The error of a run.
#[derive(Clone, Copy, Debug, PartialEq, Eq)]
pub enum RunFault {
    /// The reader failed.
    Read,
    /// The input is not UTF-8.
    NotUtf8,
    /// A request for memory was refused.
    OutOfMemory,
    /// A writer failed.
    Write,
}

impl fmt::Display for RunFault {
    ghost use Rattle.std.specs.Prelude.{Some};
    ghost use Rattle.lp_rebuild.specs.Running.{run_fault_text};

    ghost output = { λ f. Some (run_fault_text f) };

    fn fmt<W: fmt::Write>(&self, f: &mut fmt::Formatter<W>) -> fmt::Result {
        match self {
            RunFault::Read => f.write_str("cannot read the input"),
            RunFault::NotUtf8 => f.write_str("the input is not UTF-8"),
            RunFault::OutOfMemory => f.write_str("out of memory"),
            RunFault::Write => f.write_str("cannot write the output"),
        }
    }
}

/// The number of bytes that each read has room for.
pub const BLOCK: usize = 65_536;

// Makes room for a block after the first `filled` bytes of `input`, which stay as they are.
fn grow_by_block(input: &mut Vec<u8>, filled: usize) -> Result<(), AllocError>
    requires { filled ≤ vec_len input.old }
    ensures front { take filled input.new.items ≡ take filled input.old.items }
    ensures within { filled ≤ vec_len input.new }
    ensures room { OnOk result (filled + BLOCK ≤ vec_len input.new) }
    ensures few { vec_len input.new ≤ max (vec_len input.old) (filled + BLOCK) }
{
    let end = filled + BLOCK;
    if input.len() < end {
        input.resize(end, 0)?;
    }
    Ok(())
}

// Reads once into `buf`, after its first `at` bytes. These bytes stay as they are.
fn read_at<R: Source>(reader: &mut R, buf: &mut [u8], at: usize) -> Result<usize, DeviceFault>
    requires { at < length buf.old }
    ensures front { take at buf.new ≡ take at buf.old }
    ensures fits { IfOk result (λ n. at + n ≤ length buf.new) }
    ensures ok { IfOk result
        (λ n. Consumes (R.bytes reader.old) (R.bytes reader.new) (take n (drop at buf.new))) }
    ensures end { IfOk result (λ n. n ≡ 0 → IsAtEnd (R.bytes reader.new)) }
    ensures counts { CountsFailure result (R.failures reader.old) (R.failures reader.new) }
{
    reader.read(&mut buf[at..])
}

/// Reads once, after the first `filled` bytes of `input`. Returns how many bytes it read, or 0 at the end of the input.
///
/// The first `filled` bytes stay as they are. `input` grows if it has room for less than a block after them.
///
/// # Errors
///
/// * `Read` if `reader` failed.
/// * `OutOfMemory` if memory was refused.
pub fn read_block<R: Source>(
    reader: &mut R,
    input: &mut Vec<u8>,
    filled: usize,
) -> Result<usize, RunFault>
    requires { filled ≤ vec_len input.old }
    ensures front { take filled input.new.items ≡ take filled input.old.items }
    ensures within { filled ≤ vec_len input.new }
    ensures few { vec_len input.new ≤ max (vec_len input.old) (filled + BLOCK) }
    ensures fits { IfOk result (λ n. filled + n ≤ vec_len input.new) }
    ensures ok { IfOk result
        (λ n. Consumes (R.bytes reader.old) (R.bytes reader.new) (take n (drop filled input.new.items))) }
    ensures end { IfOk result (λ n. n ≡ 0 → IsAtEnd (R.bytes reader.new)) }
    ensures counts { CountsReadFault result (R.failures reader.old) (R.failures reader.new) }
{
    if grow_by_block(input, filled).is_err() {
        return Err(RunFault::OutOfMemory);
    }
    match read_at(reader, input.as_mut_slice(), filled) {
        Ok(n) => Ok(n),
        Err(_) => Err(RunFault::Read),
    }
}

/// Reads all bytes that `reader` has left.
///
/// The bytes are held once, with room for a block after them, in a buffer that grows by doubling. A reader that never ends uses
/// up the memory.
///
/// ```
/// let mut reader = Reading::new(rt.stdin());
/// let input = read_all(rt.alloc(), &mut reader)?;
/// ```
///
/// # Errors
///
/// * `Read` if and only if `reader` failed.
/// * `OutOfMemory` if memory was refused.
pub fn read_all<R: Source>(alloc: Global, reader: &mut R) -> Result<Vec<u8>, RunFault>
    ensures ok { IfOk result (λ input. Consumes (R.bytes reader.old) (R.bytes reader.new) input.items) }
    ensures end { OnOk result (IsAtEnd (R.bytes reader.new)) }
    ensures counts { CountsReadFault result (R.failures reader.old) (R.failures reader.new) }
{
    let mut input = Vec::new(alloc);
    let mut filled = 0;
    for _ in 0..u64::MAX {
        match read_block(reader, &mut input, filled) {
            Ok(0) => {
                input.truncate(filled);
                return Ok(input);
            }
            Ok(n) => filled += n,
            Err(fault) => return Err(fault),
        }
    }
    Err(RunFault::OutOfMemory)
}

/// Writes all of `bytes` to `sink`.
///
/// ```
/// let mut out = Kept::new(alloc);
/// write_bytes(&mut out, b"m f=1i")?;
/// ```
///
/// # Errors
///
/// Returns `DeviceFault` if `sink` failed. A front of the bytes may be written.
pub fn write_bytes<W: Sink>(sink: &mut W, bytes: &[u8]) -> Result<(), DeviceFault>
    ensures ok { OnOk result (Appends (W.bytes sink.old) (W.bytes sink.new) bytes.now) }
    ensures part { OnErr result (AppendsFront (W.bytes sink.old) (W.bytes sink.new) bytes.now) }
    ensures counts { CountsFailure result (W.failures sink.old) (W.failures sink.new) }
{
    let mut rest = bytes;
    while !rest.is_empty() {
        let n = sink.write(rest)?;
        rest = &rest[n..];
    }
    Ok(())
}

// Writes all of `bytes` to `sink`, and flushes it.
fn write_all<W: Sink>(sink: &mut W, bytes: &[u8]) -> Result<(), DeviceFault>
    ensures ok { OnOk result (Appends (W.bytes sink.old) (W.bytes sink.new) bytes.now) }
    ensures part { OnErr result (AppendsFront (W.bytes sink.old) (W.bytes sink.new) bytes.now) }
    ensures counts { CountsFailure result (W.failures sink.old) (W.failures sink.new) }
    ensures flushed { OnOk result (W.is_flushed sink.new ≡ true) }
{
    write_bytes(sink, bytes)?;
    sink.flush()
}

/// Reads all bytes of `reader`, rebuilds them, and writes the batch to `out` and the faults to `err`.
///
/// `run` reads to the end before it writes, and holds one copy of the input. A reader that never ends uses up the memory. `err`
/// gets nothing before `out` has taken the whole batch. Both are flushed.
///
/// ```text
/// the input          writes to `out`     and to `err`                     status
/// cpu usage=64i⏎m 5⏎ cpu usage=64i⏎      item 2: No fields were provided⏎ 1
/// m a=007i⏎m a=-0i⏎  m a=7i⏎m a=0i⏎                                       0
/// ```
///
/// # Errors
///
/// * `Read` if and only if `reader` failed. Nothing was written.
/// * `NotUtf8` if the input is not UTF-8. Nothing was written.
/// * `OutOfMemory` if memory was refused. Nothing was written.
/// * `Write` if and only if `out` or `err` failed. A part of the output may be written.
pub fn run<R: Source, W: Sink, E: Sink>(
    alloc: Global,
    reader: &mut R,
    out: &mut W,
    err: &mut E,
) -> Result<Rebuilt, RunFault>
    ensures { Runs result
        (reader_told R.bytes R.failures reader.old) (reader_told R.bytes R.failures reader.new)
        (writer_told W.bytes W.failures W.is_flushed out.old) (writer_told W.bytes W.failures W.is_flushed out.new)
        (writer_told E.bytes E.failures E.is_flushed err.old) (writer_told E.bytes E.failures E.is_flushed err.new) }
{
    run_in(alloc, Dialect::Crate, reader, out, err)
}

/// Reads all bytes of `reader`, rebuilds them by the rules of a dialect, and writes the batch to `out` and the faults to `err`.
///
/// [`run`] does the same by the rules of the Rust crate, and describes the order, the memory and the errors.
///
/// ```text
/// the input          in Crate and Strict         in NewlineDelimited
/// m s="a⏎n b=01i     `out` gets nothing          `out` gets n b=1i⏎
/// ```
/// In each dialect, `err` gets `item 1: No fields were provided⏎`.
///
/// # Errors
///
/// Returns the errors of [`run`].
#[inline]
pub fn run_in<R: Source, W: Sink, E: Sink>(
    alloc: Global,
    dialect: Dialect,
    reader: &mut R,
    out: &mut W,
    err: &mut E,
) -> Result<Rebuilt, RunFault>
    ensures { RunsIn (rules_of dialect) result
        (reader_told R.bytes R.failures reader.old) (reader_told R.bytes R.failures reader.new)
        (writer_told W.bytes W.failures W.is_flushed out.old) (writer_told W.bytes W.failures W.is_flushed out.new)
        (writer_told E.bytes E.failures E.is_flushed err.old) (writer_told E.bytes E.failures E.is_flushed err.new) }
{
    let input = read_all(alloc, reader)?;
    let Ok(text) = simdutf8::basic::from_utf8(input.as_slice()) else {
        return Err(RunFault::NotUtf8);
    };
    let Ok(rebuilt) = rebuild_in(alloc, dialect, text) else {
        return Err(RunFault::OutOfMemory);
    };
    if write_all(out, rebuilt.batch.as_slice()).is_err() {
        return Err(RunFault::Write);
    }
    if write_all(err, rebuilt.faults.as_slice()).is_err() {
        return Err(RunFault::Write);
    }
    Ok(rebuilt)
}

/// Returns the exit status of the program: 0 if every item was carried, 1 if an item was refused, and 2 if the run failed.
///
/// ```text
/// a run over                  gives
/// m a=007i⏎m a=-0i⏎           0
/// cpu usage=64i⏎m 5⏎          1
/// an input that is not UTF-8  2
/// ```
pub fn status(answer: &Result<Rebuilt, RunFault>) -> u8
    ensures { result ≡ status_of answer.now }
{
    match answer {
        Ok(rebuilt) => { if rebuilt.refused == 0 { 0 } else { 1 } }
        Err(_) => 2,
    }
}

/// How the program is called: the usage line, without a newline. The program prints it if its arguments name no dialect.
pub const USAGE: &str = "usage: lp_rebuild [--strict]";

/// Returns the dialect that the words after the program's name ask for: `Crate` if there is no word, `Strict` if the only word is
/// `--strict`, and `None` otherwise. Takes no memory.
///
/// ```text
/// dialect_of(&[])                        gives  Some(Dialect::Crate)
/// dialect_of(&["--strict"])              gives  Some(Dialect::Strict)
/// dialect_of(&["--strict", "--strict"])  gives  None
/// ```
pub fn dialect_of(words: &[&str]) -> Option<Dialect>
    ensures { option_map rules_of result ≡ dialect_of words.now }
{
    match words {
        [] => Some(Dialect::Crate),
        [word] if *word == "--strict" => Some(Dialect::Strict),
        _ => None,
    }
}
