//! Finds the pieces of a text byte by byte, by the format's rules, and compares them with the pieces that the splitter finds by
//! jumps.

use crate::fault::Fault;
use crate::random::Random;
use influxdb_line_protocol::split_lines;
use std::str::{self, Utf8Error};

// The part of a piece that a byte is in.
#[derive(Clone, Copy)]
enum Part {
    Head,
    Plain,
    Quoted,
}

// The facts about the bytes of a piece so far that decide about the next byte.
#[derive(Drop)]
struct Scan {
    part: Part,
    is_escaped: bool,
    equals: usize,
    commas: usize,
}

impl Scan {
    // Reads the next byte. Returns true if the piece goes on: a piece ends before a newline that cuts it.
    fn goes_on(&mut self, byte: u8) -> bool {
        if self.is_escaped {
            self.is_escaped = false;
            return true;
        }
        match (self.part, byte) {
            (_, b'\\') => self.is_escaped = true,
            (Part::Quoted, b'"') => self.part = Part::Plain,
            (Part::Quoted, _) => {}
            (_, b'\n') => return false,
            (Part::Head, b' ') => self.part = Part::Plain,
            (Part::Plain, b'=') => self.equals = self.equals.saturating_add(1),
            (Part::Plain, b',') => self.commas = self.commas.saturating_add(1),
            (Part::Plain, b'"') if self.commas < self.equals => self.part = Part::Quoted,
            _ => {}
        }
        true
    }
}

// Returns the first piece of a text, and the text after its newline, if a newline ends it.
fn first_piece(text: &[u8]) -> (&[u8], Option<&[u8]>) {
    let mut scan = Scan {
        part: Part::Head,
        is_escaped: false,
        equals: 0,
        commas: 0,
    };
    for (place, byte) in text.iter().enumerate() {
        if !scan.goes_on(*byte) {
            return (&text[..place], Some(&text[place + 1..]));
        }
    }
    (text, None)
}

// Returns true if the splitter gives the pieces that are found byte by byte.
fn is_split_so(text: &str) -> bool {
    let mut left = Some(text.as_bytes());
    for piece in split_lines(text) {
        let Some(here) = left else { return false };
        let (first, after) = first_piece(here);
        if piece.as_bytes() != first {
            return false;
        }
        left = after;
    }
    left.is_none()
}

// For each length up to six: the number of texts over seven bytes.
const COUNTS: [u32; 7] = [1, 7, 49, 343, 2_401, 16_807, 117_649];

// Fills the buffer with the text of this number.
fn short_text(buffer: &mut [u8], number: u32) -> Result<&str, Utf8Error> {
    let mut digits = number;
    for byte in buffer.iter_mut() {
        *byte = b"\\ =,\"\na"[digits as usize % 7];
        digits /= 7;
    }
    str::from_utf8(buffer)
}

#[test]
fn short_texts_have_the_same_pieces_by_jumps(rt: HostRuntime) -> Result<(), Fault> {
    let mut buffer = [b'a'; 6];
    let mut texts = 0usize;
    for (len, count) in COUNTS.iter().enumerate() {
        for number in 0..*count {
            let text = short_text(&mut buffer[..len], number)?;
            assert!(rt; is_split_so(text), "of {text:?}");
            texts = texts.saturating_add(1);
        }
    }
    assert_eq!(rt; texts, 137_257);
    Ok(())
}

#[test]
fn long_texts_have_the_same_pieces_by_jumps(rt: HostRuntime) -> Result<(), Fault> {
    let mut random = Random::new(1);
    let mut buffer = [b'a'; 1_000];
    for few in [1u64, 3, 9, 30, 100, 300] {
        for len in 0..1_001 {
            random.fill(&mut buffer[..len], few);
            let text = str::from_utf8(&buffer[..len])?;
            assert!(rt; is_split_so(text), "of {text:?}");
        }
    }
    Ok(())
}
