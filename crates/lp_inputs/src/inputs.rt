//! The inputs, which are read one after another, each by itself.
ghost use Rattle.std.specs.Prelude.{◌≡◌, ◌<◌, List, [], ℕ, Option, None, false, is_some, true, length, IfOk, OnOk};
ghost use Rattle.std.specs.Io.{ReadsAtMost};
ghost use Rattle.std.specs.Io.KnownBytes.{ReadConsumes};
ghost use Rattle.lp_inputs.specs.Inputs.{ReadsOn, ReadsOne, ends_early, texts_left};

use crate::errors::shorter;
use crate::starts::{Start, TELLING, keep_first, start_of};
use crate::whole_lines::{WholeLines, lines_end};
use lp_endings::endings::Device;
use lp_places::opens::open_to_read;
use lp_places::places::{STDIN, path_of, size_at};
use lp_words::options::Range;
use std::cell::Cell;
use std::fs::File;
use std::io::{self, ErrorKind, Read, Seek, SeekFrom, Stdin, Take};

/// What opens inputs.
///
/// For contracts it has one member: `bytes`, those of the input of a name, if they are known.
pub trait Opener<'n> {
    type Input: Read + Drop;

    ghost bytes: { Self → List ℕ → Option (List ℕ) };

    /// Opens the input of a name.
    ///
    /// # Errors
    ///
    /// What the system says if it cannot be opened.
    fn open(&self, name: &'n str) -> io::Result<Self::Input>
        ensures { IfOk result (λ input. Self.Input.remaining input ≡ bytes self.now name.now) };
}

/// The inputs that are left: the rest of the one that is open, and those that names name after it.
#[derive(Drop)]
pub struct Inputs<'n, O, I> {
    opener: O,
    current: Option<I>,
    names: &'n [&'n str],
}

impl<'n, O: Opener<'n>> Inputs<'n, O, O::Input> {
    /// All inputs of these names, none of them open.
    pub fn new(opener: O, names: &'n [&'n str]) -> Self
        ensures { result ≡ record { opener = opener; current = None; names = names.entry } }
    {
        Inputs {
            opener,
            current: None,
            names,
        }
    }

    // Opens the next input, if none is open.
    fn open_next(&mut self) -> io::Result<()>
        ensures texts { texts_left O.bytes O.Input.remaining self.new ≡ texts_left O.bytes O.Input.remaining self.old }
        ensures last { OnOk result (is_some self.new.current ≡ false → texts_left O.bytes O.Input.remaining self.new ≡ []) }
        ensures current { is_some self.old.current ≡ true → is_some self.new.current ≡ true }
    {
        if self.current.is_some() {
            return Ok(());
        }
        let [name, names @ ..] = self.names else {
            return Ok(());
        };
        self.current = Some(self.opener.open(name)?);
        self.names = names;
        Ok(())
    }
}

/// Each is read by itself: a read gives nothing at the end of each, and the read after that begins the next.
impl<'n, O: Opener<'n>> Read for Inputs<'n, O, O::Input> {
    fn read(&mut self, buf: &mut [u8]) -> io::Result<usize>
        ensures bound { ReadsAtMost result buf.new }
        ensures bytes { ReadConsumes None None result buf.new }
        ensures current { 0 < length buf.old → ReadsOn (is_some self.old.current) (is_some self.new.current) result }
        ensures one { 0 < length buf.old → ReadsOne (texts_left O.bytes O.Input.remaining self.old)
            (texts_left O.bytes O.Input.remaining self.new) result buf.new }
    {
        if buf.is_empty() {
            return Ok(0);
        }
        self.open_next()?;
        let Some(input) = &mut self.current else {
            return Ok(0);
        };
        let n = input.read(buf)?;
        if n == 0 {
            self.current = None;
        }
        Ok(n)
    }
}

// Whether a read of so many bytes into so much room shows that an input ends, of which so many bytes are left.
fn ends_early(read: usize, room: usize, left: u64) -> bool
    ensures { result ≡ ends_early read room left }
{
    read == 0 && room > 0 && left > 0
}

// Standard input, and how many bytes it had when it was opened, if it is a regular file.
#[derive(Drop)]
struct Standard<'a> {
    rt: &'a HostRuntime,
    stdin: Stdin,
    len: u64,
}

// Another process may read from the same place, so the lengths are compared. It is an error if the file has become shorter.
impl<'a> Read for Standard<'a> {
    fn read(&mut self, buf: &mut [u8]) -> io::Result<usize> {
        let n = self.stdin.read(buf)?;
        if n == 0
            && ends_early(
                n,
                buf.len(),
                self.len.saturating_sub(size_at(self.rt, STDIN)),
            )
        {
            return Err(shorter());
        }
        Ok(n)
    }
}

// A file, and how many bytes it had after its place when it was opened that were not read: none if it is no regular file.
#[derive(Drop)]
struct Whole {
    file: File,
    left: u64,
}

// A file that has become longer is read to its end. It is an error if it has become shorter.
impl Read for Whole {
    fn read(&mut self, buf: &mut [u8]) -> io::Result<usize> {
        let n = self.file.read(buf)?;
        if ends_early(n, buf.len(), self.left) {
            return Err(shorter());
        }
        self.left = self.left.saturating_sub(n as u64);
        Ok(n)
    }
}

// A file that is read from this place on, where it is.
fn from_place(file: File, from: usize) -> io::Result<Whole> {
    let found = file.metadata()?;
    let len = if found.is_file() { found.len() } else { 0 };
    Ok(Whole {
        file,
        left: len.saturating_sub(from as u64),
    })
}

// What an input of the system is read from.
#[derive(Drop)]
enum Opened<'a> {
    /// Standard input.
    Standard(Standard<'a>),
    /// A file, from where it is on.
    Whole(Whole),
    /// So many bytes of a file, from where it is on.
    Part(Take<File>),
}

// Reads a part of a file, which is an error where the file ends before the part does.
fn read_part(part: &mut Take<File>, buf: &mut [u8]) -> io::Result<usize>
    ensures bound { ReadsAtMost result buf.new }
{
    let n = part.read(buf)?;
    if ends_early(n, buf.len(), part.limit()) {
        return Err(shorter());
    }
    Ok(n)
}

impl<'a> Read for Opened<'a> {
    fn read(&mut self, buf: &mut [u8]) -> io::Result<usize> {
        match self {
            Opened::Standard(stdin) => stdin.read(buf),
            Opened::Whole(file) => file.read(buf),
            Opened::Part(part) => read_part(part, buf),
        }
    }
}

/// An input of the system that is open. Its first bytes are looked at: a read fails that finds it packed.
#[derive(Drop)]
pub struct SystemInput<'a> {
    opened: Opened<'a>,
    /// What hands on its whole lines, if no other bytes are read.
    lines: Option<WholeLines>,
    /// Its first bytes, as long as these may tell more of it.
    first: Option<Vec<u8>>,
    /// Where it is put that it begins with a byte order mark.
    is_marked: &'a Cell<bool>,
}

// The error of an input that is packed, and with what it can be unpacked.
fn packed(text: &str) -> io::Error {
    io::Error::new(ErrorKind::InvalidData, text)
}

impl<'a> SystemInput<'a> {
    // Looks at bytes that were read, if these may tell what the input is.
    fn look(&mut self, bytes: &[u8]) -> io::Result<()> {
        let Some(first) = &mut self.first else {
            return Ok(());
        };
        keep_first(first, bytes)?;
        match start_of(first.as_slice()) {
            Start::Gzip => return Err(packed("the input is gzip: use zcat")),
            Start::Zstd => return Err(packed("the input is zstd: use zstdcat")),
            Start::ByteOrderMark => self.is_marked.set(true),
            Start::Text if first.len() < TELLING => return Ok(()),
            Start::Text => {}
        }
        self.first = None;
        Ok(())
    }
}

impl<'a> Read for SystemInput<'a> {
    fn read(&mut self, buf: &mut [u8]) -> io::Result<usize> {
        let n = match &mut self.lines {
            Some(lines) => lines.read(&mut self.opened, buf)?,
            None => self.opened.read(buf)?,
        };
        self.look(&buf[..n])?;
        Ok(n)
    }
}

/// What opens inputs of the system: files, and standard input, whose name is `-`.
#[derive(Drop)]
pub struct SystemOpener<'a, 'n> {
    rt: &'a HostRuntime,
    /// The input that was opened last, for the message if it fails.
    device: &'a Cell<Device<'n>>,
    /// Whether an input was found to begin with a byte order mark.
    is_marked: &'a Cell<bool>,
    /// The part of an input that is read, if not all of it is.
    range: Option<Range>,
    /// Of how many bytes a line can be, if no byte after the last newline of an input is read.
    whole_lines: Option<usize>,
}

// All of an input.
const ALL: Range = Range { from: 0, to: None };

impl<'a, 'n> SystemOpener<'a, 'n> {
    /// It puts the name of each file that it opens into a cell, and into another, at the read that shows it, that an input begins with a
    /// byte order mark. If a number is given for `whole_lines`, no byte after the last newline of an input is read, but a line of more bytes is.
    pub fn new(
        rt: &'a HostRuntime,
        device: &'a Cell<Device<'n>>,
        is_marked: &'a Cell<bool>,
        range: Option<Range>,
        whole_lines: Option<usize>,
    ) -> Self {
        SystemOpener {
            rt,
            device,
            is_marked,
            range,
            whole_lines,
        }
    }

    // The place before which this range of a file is read: the end of its last line that a newline ends, if no byte after that is read and
    // the file tells how many bytes it has. `None` if the file is read to its end.
    fn end_of(&self, file: &File, range: Range) -> io::Result<Option<u64>> {
        let to = range.to.map(|to| to as u64);
        if self.whole_lines.is_none() {
            return Ok(to);
        }
        let found = file.metadata()?;
        if !found.is_file() || found.len() == 0 {
            return Ok(to);
        }
        let to = to.unwrap_or(found.len());
        Ok(Some(lines_end(self.rt.alloc(), file, range.from as u64, to)?))
    }

    // Opens a file at the start of a range.
    fn open_range(&self, path: &str, range: Range) -> io::Result<Opened<'a>> {
        let mut file = open_to_read(self.rt, path)?;
        if range.from > 0 {
            file.seek(SeekFrom::Start(range.from as u64))?;
        }
        match self.end_of(&file, range)? {
            Some(to) => Ok(Opened::Part(file.take(to.saturating_sub(range.from as u64)))),
            None => Ok(Opened::Whole(from_place(file, range.from)?)),
        }
    }

    // Opens the input of a name, or the part of it that is read.
    fn open_part(&self, name: &str) -> io::Result<Opened<'a>> {
        if name == "-" && self.range.is_none() {
            return Ok(Opened::Standard(Standard {
                rt: self.rt,
                stdin: self.rt.stdin(),
                len: size_at(self.rt, STDIN),
            }));
        }
        self.open_range(path_of(name), self.range.unwrap_or(ALL))
    }

    // What hands on the whole lines of an input, if no other bytes are read.
    fn whole_lines(&self) -> Option<WholeLines> {
        let limit = self.whole_lines?;
        Some(WholeLines::new(self.rt.alloc(), limit))
    }
}

// Whether an input is read from its start.
fn begins_at_start(range: Option<Range>) -> bool {
    match range {
        Some(range) => range.from == 0,
        None => true,
    }
}

impl<'a, 'n> Opener<'n> for SystemOpener<'a, 'n> {
    type Input = SystemInput<'a>;

    ghost bytes = { λ _ _. None };

    fn open(&self, name: &'n str) -> io::Result<SystemInput<'a>> {
        let file = if name == "-" { None } else { Some(name) };
        self.device.set(Device {
            name: file,
            batch: None,
            error: None,
        });
        let opened = self.open_part(name)?;
        let first = if begins_at_start(self.range) {
            Some(Vec::new(self.rt.alloc()))
        } else {
            None
        };
        Ok(SystemInput {
            opened,
            lines: self.whole_lines(),
            first,
            is_marked: self.is_marked,
        })
    }
}
