//! Entries of text in buffers of the caller's, written without memory.

use std::fmt::{self, Write};

/// Entries, one after another, and where each of them ends. What has no room is counted, and not kept.
#[derive(Drop)]
pub struct Report<'a> {
    /// The bytes of the entries.
    pub out: &'a mut [u8],
    ends: &'a mut [u64],
    /// Where the entry begins that is being written.
    pub start: usize,
    /// Where this entry ends so far.
    pub len: usize,
    /// How many entries were ended.
    pub count: u64,
}

impl<'a> Report<'a> {
    /// A report without entries.
    pub fn new(out: &'a mut [u8], ends: &'a mut [u64]) -> Self {
        Report {
            out,
            ends,
            start: 0,
            len: 0,
            count: 0,
        }
    }

    /// Appends bytes to the entry that is being written.
    pub fn push(&mut self, bytes: &[u8]) {
        let len = self.len;
        let room = self.out.len().saturating_sub(len);
        let n = bytes.len().min(room);
        if n > 0 {
            self.out[len..len + n].copy_from_slice(&bytes[..n]);
        }
        self.len = len.saturating_add(bytes.len());
    }

    /// Appends this word, the length of a text, a colon and the text.
    pub fn push_sized(&mut self, word: &str, text: &[u8]) {
        let len = text.len();
        let _ = write!(self, "{word}{len}:");
        self.push(text);
    }

    /// Ends the entry.
    pub fn end(&mut self) {
        if self.count < self.ends.len() as u64 {
            self.ends[self.count as usize] = self.len as u64;
        }
        self.count = self.count.saturating_add(1);
        self.start = self.len;
    }
}

impl fmt::Write for Report<'_> {
    fn write_str(&mut self, s: &str) -> fmt::Result {
        self.push(s.as_bytes());
        Ok(())
    }
}
