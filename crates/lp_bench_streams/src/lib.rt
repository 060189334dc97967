//! What is timed of texts that come in parts, for a driver in C: a stream's pieces, and relays. No call keeps anything.
#![tactic(auto)]

ghost use Rattle.influxdb_line_protocol.specs.format.Pieces.{IsLastPiece};

use influxdb_line_protocol::{Dialect, LineStream};
use lp_rebuild::program::BLOCK;
use lp_rebuild::{DeviceFault, Sink, Source};
use lp_relay::{Nowhere, Outputs, Settings, relay};
use std::alloc::Global;

// Takes the pieces that a stream can give, and counts them.
fn taken(stream: &mut LineStream) -> u64
    ensures { IsLastPiece stream.new.dialect stream.new.bytes }
{
    let mut count = 0u64;
    while let Some(_) = stream.next() {
        count = count.wrapping_add(1);
    }
    count
}

/// Takes the pieces of a text that comes in parts of so many bytes, and counts them; 0 if memory was refused, or `len` is 0.
#[unsafe(no_mangle)]
pub extern "C" fn lp_bench_stream(alloc: Global, text: &[u8], len: usize) -> u64 {
    if len == 0 {
        return 0;
    }
    let mut stream = LineStream::new(alloc);
    let mut count = 1u64;
    for part in text.chunks(len) {
        if stream.push(part).is_err() {
            return 0;
        }
        count = count.wrapping_add(taken(&mut stream));
    }
    count
}

// A text that gives so many bytes at each read.
#[derive(Drop)]
struct InParts<'a> {
    left: &'a [u8],
    len: usize,
}

impl<'a> Source for InParts<'a> {
    ghost use Rattle.std.specs.Prelude.{None};

    ghost bytes = { λ _. None };

    ghost failures = { λ _. 0 };

    fn read(&mut self, buf: &mut [u8]) -> Result<usize, DeviceFault> {
        let len = self.len.min(buf.len());
        self.left.read(&mut buf[..len])
    }
}

// A writer into a room of its own, where each write begins anew, as in a pipe whose reader keeps up. So a relay is timed without the
// growth of what is written.
#[derive(Drop)]
struct Room {
    bytes: [u8; BLOCK],
    written: u64,
    is_flushed: bool,
}

impl Sink for Room {
    ghost use Rattle.std.specs.Prelude.{None};

    ghost bytes = { λ _. None };

    ghost failures = { λ _. 0 };

    ghost is_flushed = { λ room. room.is_flushed };

    fn write(&mut self, buf: &[u8]) -> Result<usize, DeviceFault> {
        let len = buf.len().min(BLOCK);
        self.bytes[..len].copy_from_slice(&buf[..len]);
        self.written = self.written.wrapping_add(len as u64);
        self.is_flushed = false;
        Ok(len)
    }

    fn flush(&mut self) -> Result<(), DeviceFault> {
        self.is_flushed = true;
        Ok(())
    }
}

/// Relays a text that comes in parts of so many bytes, and gives the number of bytes written; 0 if memory was refused.
#[unsafe(no_mangle)]
pub extern "C" fn lp_bench_relay(alloc: Global, text: &[u8], len: usize) -> u64 {
    relayed(alloc, Dialect::Crate, text, len)
}

/// The same by the rules of the newline-delimited dialect.
#[unsafe(no_mangle)]
pub extern "C" fn lp_bench_relay_newline_delimited(alloc: Global, text: &[u8], len: usize) -> u64 {
    relayed(alloc, Dialect::NewlineDelimited, text, len)
}

// Relays a text by the rules of a dialect.
fn relayed(alloc: Global, dialect: Dialect, text: &[u8], len: usize) -> u64 {
    let mut reader = InParts { left: text, len };
    let lines = Room {
        bytes: [0; BLOCK],
        written: 0,
        is_flushed: true,
    };
    let mut outputs = Outputs {
        lines,
        faults: Nowhere::new(),
        refused: Nowhere::new(),
    };
    let settings = Settings {
        dialect,
        ..Settings::default()
    };
    match relay(alloc, settings, &mut reader, &mut outputs) {
        Ok(_) => outputs.lines.written,
        Err(_) => 0,
    }
}
