//! Inputs of which no byte after the last newline is read.
//!
//! A program that still writes to an input may have written half a line. Of a regular file [`lines_end`] finds the last newline, from the end
//! of the file back, and the file is read up to there. Of another input, as a pipe, a [`WholeLines`] holds the bytes after the last newline
//! that has come, and lets them go if the input ends. It holds no more than a line may have: a longer line is refused as soon as it is too
//! long, so its bytes are handed on.
ghost use Rattle.std.specs.Prelude.{◌≡◌, ◌≢◌, ◌+◌, ◌<◌, ◌≤◌, drop, max, take, vec_len, IfOk};
ghost use Rattle.std.specs.List.{All};
ghost use Rattle.std.specs.Io.{ReadsAtMost};
ghost use Rattle.std.specs.Io.KnownBytes.{IsAtEnd};
ghost use Rattle.influxdb_line_protocol.specs.format.Bytes.{newline};
ghost use Rattle.lp_inputs.specs.WholeLines.{AreWhole};

use lp_rebuild::program::BLOCK;
use memchr::memrchr;
use std::alloc::Global;
use std::io::{self, Read};
use std::os::unix::fs::FileExt;

// How many of these bytes are whole lines: those up to the last newline.
fn whole_len(bytes: &[u8]) -> usize
    ensures { AreWhole bytes.now result }
{
    match memrchr(b'\n', bytes) {
        Some(at) => at + 1,
        None => 0,
    }
}

/// Where the last line ends that a newline ends, of the bytes of a file from one place on and before another: at the first place if they
/// have no newline.
///
/// # Errors
///
/// What the system says if they cannot be read, or that the file ends before; or that memory was refused.
pub(crate) fn lines_end<F: FileExt>(alloc: Global, file: &F, from: u64, to: u64) -> io::Result<u64>
    ensures { IfOk result (λ end. (from ≤ end) × (end ≤ max from to)) }
{
    let mut block = Vec::new(alloc);
    block.resize(BLOCK, 0)?;
    let mut end = to;
    while from < end {
        let start = from.max(end.saturating_sub(BLOCK as u64));
        let bytes = &mut block.as_mut_slice()[..(end - start) as usize];
        file.read_exact_at(bytes, start)?;
        let whole = whole_len(bytes);
        if whole > 0 {
            return Ok(start + whole as u64);
        }
        end = start;
    }
    Ok(from)
}

/// What hands on the whole lines of a reader, and holds what came after its last newline.
#[derive(Drop)]
pub struct WholeLines {
    /// A line of more bytes is too long.
    limit: usize,
    /// What can be handed on.
    ready: Vec<u8>,
    /// How many bytes of that were handed on.
    given: usize,
    /// What came after the last newline.
    held: Vec<u8>,
}

// Reads a block after the bytes that are held, and answers how many bytes it added.
fn read_after<R: Read>(reader: &mut R, held: &mut Vec<u8>) -> io::Result<usize>
    ensures len { IfOk result (λ n. vec_len held.new ≡ vec_len held.old + n) }
    ensures front { take (vec_len held.old) held.new.items ≡ held.old.items }
    ensures end { IfOk result (λ n. n ≡ 0 → IsAtEnd (R.remaining reader.new)) }
{
    let filled = held.len();
    held.resize(filled.saturating_add(BLOCK), 0)?;
    let answer = reader.read(&mut held.as_mut_slice()[filled..]);
    let n = match answer {
        Ok(n) => n,
        Err(_) => 0,
    };
    held.truncate(filled + n);
    answer
}

// Drops the first bytes that are held.
fn drop_front(held: &mut Vec<u8>, len: usize)
    requires { len ≤ vec_len held.old }
    ensures { held.new.items ≡ drop len held.old.items }
{
    let end = held.len();
    held.as_mut_slice().copy_within(len..end, 0);
    held.truncate(end - len);
}

impl WholeLines {
    /// Nothing was read so far. A line of more than `limit` bytes is too long.
    pub fn new(alloc: Global, limit: usize) -> Self {
        WholeLines {
            limit,
            ready: Vec::new(alloc),
            given: 0,
            held: Vec::new(alloc),
        }
    }

    // How many of the bytes that are held can be handed on, if no newline is among the first `filled`: those up to the last newline, or all if
    // these are too many for a line.
    fn ready_len(&self, filled: usize) -> usize
        requires { filled ≤ vec_len self.now.held }
        ensures within { result ≤ vec_len self.now.held }
        ensures whole { 0 < result → vec_len self.now.held ≤ self.now.limit → AreWhole self.now.held.items result }
        ensures none { result ≡ 0 → (vec_len self.now.held ≤ self.now.limit) × All (λ b. b ≢ newline) (drop filled self.now.held.items) }
    {
        let whole = whole_len(&self.held[filled..]);
        if whole > 0 {
            filled + whole
        } else if self.held.len() > self.limit {
            self.held.len()
        } else {
            0
        }
    }

    // Reads until a newline has come, or a line is too long, or the reader ends. At its end what is held is let go.
    fn fill<R: Read>(&mut self, reader: &mut R) -> io::Result<()> {
        for _ in 0..u64::MAX {
            let filled = self.held.len();
            if read_after(reader, &mut self.held)? == 0 {
                self.held.clear();
                return Ok(());
            }
            let len = self.ready_len(filled);
            if len > 0 {
                self.ready.clear();
                self.ready.extend_from_slice(&self.held[..len])?;
                drop_front(&mut self.held, len);
                self.given = 0;
                return Ok(());
            }
        }
        Ok(())
    }

    /// Hands on bytes of whole lines of `reader`, or of a line that is too long: so many as it answers, to the front of `buf`. It answers 0
    /// for a `buf` that is not empty only at the end.
    ///
    /// # Errors
    ///
    /// What `reader` answers, or that memory was refused; no byte is lost.
    pub fn read<R: Read>(&mut self, reader: &mut R, buf: &mut [u8]) -> io::Result<usize>
        ensures { ReadsAtMost result buf.new }
    {
        if self.given >= self.ready.len() && !buf.is_empty() {
            self.fill(reader)?;
        }
        let rest = self.ready.get(self.given..).unwrap_or(&[]);
        let n = buf.len().min(rest.len());
        buf[..n].copy_from_slice(&rest[..n]);
        self.given += n;
        Ok(n)
    }
}
