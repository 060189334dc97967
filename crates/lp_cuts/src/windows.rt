//! Bytes that are read at any place, a block at a time.
//!
//! What looks for cuts goes to places of a file, and from there on. Each read gives a block, and the last block is held, since many of
//! the places that are asked for after one another are in one block. So 64 KiB are held, however long the file is.
ghost use Rattle.std.specs.Prelude.{◌≡◌, ◌+◌, ◌<◌, ◌≤◌, List, ℕ, take, Option, Some, length, slice_range, vec_len, IfOk, OnOk};
ghost use Rattle.lp_cuts.specs.Windows.{HasReadAt, HasText, IsWindow};

use lp_rebuild::program::BLOCK;
use lp_rebuild::{DeviceFault, RunFault};
use std::alloc::{AllocError, Global};

/// Bytes that can be read at any place, as those of a file can.
///
/// For contracts it has one member: `text`, all of them, if they are known.
pub trait ReadAt {
    ghost text: { Self → Option (List ℕ) };

    /// Puts the bytes from a place on to the front of `buf`: so many as it answers. It answers 0 for a `buf` that is not empty only
    /// if no byte is at the place.
    ///
    /// # Errors
    ///
    /// A fault of the device.
    fn read_at(&self, buf: &mut [u8], place: usize) -> Result<usize, DeviceFault>
        ensures bound { IfOk result (λ n. n ≤ length buf.new) }
        ensures bytes { (all : List ℕ) → text self.now ≡ Some all → IfOk result (λ n. HasReadAt all place n buf.new) };
}

/// The bytes of a slice. It never fails.
impl<'a> ReadAt for &'a [u8] {
    ghost text = { λ s. Some s.now };

    fn read_at(&self, buf: &mut [u8], place: usize) -> Result<usize, DeviceFault> {
        let all: &'a [u8] = *self;
        let rest = &all[place.min(all.len())..];
        let n = rest.len().min(buf.len());
        buf[..n].copy_from_slice(&rest[..n]);
        Ok(n)
    }
}

// Reads a block from a place on, and answers how many bytes: one at least.
fn read_block<R: ReadAt>(file: &R, block: &mut Vec<u8>, place: usize) -> Result<usize, RunFault>
    ensures some { IfOk result (λ n. 0 < n) }
    ensures few { IfOk result (λ n. n ≤ vec_len block.new) }
    ensures block { vec_len block.new ≡ vec_len block.old }
    ensures bytes { (all : List ℕ) → R.text file.now ≡ Some all →
        IfOk result (λ n. take n block.new.items ≡ slice_range all place (place + n)) }
{
    match file.read_at(block.as_mut_slice(), place) {
        Ok(n) if n > 0 => Ok(n),
        _ => Err(RunFault::Read),
    }
}

/// The block of so many bytes that was read last: `filled` of them from the place `from` on.
#[derive(Drop)]
pub struct Window<'a, R> {
    file: &'a R,
    pub len: usize,
    block: Vec<u8>,
    from: usize,
    filled: usize,
}

impl<'a, R: ReadAt> Window<'a, R> {
    /// A window of so many bytes, of which none was read.
    pub fn new(alloc: Global, file: &'a R, len: usize) -> Result<Self, AllocError>
        ensures window { IfOk result (λ window. IsWindow R.text window) }
        ensures over { IfOk result (λ window. (window.file.now ≡ file.now) × (window.len ≡ len)) }
    {
        let mut block = Vec::new(alloc);
        block.resize(BLOCK, 0)?;
        Ok(Window {
            file,
            len,
            block,
            from: 0,
            filled: 0,
        })
    }

    /// Reads the block that begins at a place, unless the byte there is in the block that is held. If the bytes end before, the reader
    /// has failed.
    pub fn fill(&mut self, place: usize) -> Result<(), RunFault>
        requires place { place < self.old.len }
        requires window { IsWindow R.text self.old }
        ensures window { IsWindow R.text self.new }
        ensures there { OnOk result ((self.new.from ≤ place) × (place < self.new.from + self.new.filled)) }
        ensures over { (self.new.file.now ≡ self.old.file.now) × (self.new.len ≡ self.old.len) }
    {
        if self.from <= place && place - self.from < self.filled {
            return Ok(());
        }
        self.filled = 0;
        let n = read_block(self.file, &mut self.block, place)?;
        self.from = place;
        self.filled = n.min(self.len - place);
        Ok(())
    }

    /// The bytes of the block from a place on.
    #[tactic(auto, using(crate::proofs::WindowLemmas::part_of_block))]
    pub fn rest(&self, place: usize) -> &[u8]
        requires there { (self.now.from ≤ place) × (place < self.now.from + self.now.filled) }
        requires window { IsWindow R.text self.now }
        ensures some { 0 < length result.now }
        ensures within { place + length result.now ≤ self.now.len }
        ensures bytes { (text : List ℕ) → HasText R.text self.now text → result.now ≡ slice_range text place (place + length result.now) }
    {
        &self.block[place - self.from..self.filled]
    }
}
