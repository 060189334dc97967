//! Where refused pieces go as they come: to standard output, a FIFO, a device, or the end of a file.
//!
//! What is written there stays if the run fails later, and something can read it while the relay runs. The relay hands over whole
//! pieces, in one write each time. A file that grows is locked until the run ends, so no other run puts its pieces between.
ghost use Rattle.std.specs.Prelude.{◌≡◌, false, IfErr};
ghost use Rattle.std.specs.IoError.{error_kind};
ghost use Rattle.lp_places.specs.Places.{knows_no_wait};

use crate::opens::open_again;
use lp_words::refusals::OldPieces;
use std::fs::{self, File, FileType, OpenOptions, TryLockError};
use std::io::{self, ErrorKind, Write};
use std::os::unix::fs::{FileExt, FileTypeExt};

/// What refused pieces are written to as they come.
#[derive(Drop)]
pub enum Stream {
    /// Standard output.
    StandardOutput,
    /// A FIFO, a device, or a file that grows.
    Opened(File),
}

// Whether what is written to a file of this type goes on at once.
fn takes_at_once(file_type: FileType) -> bool {
    file_type.is_fifo() || file_type.is_char_device()
}

// Whether a file ends within a line.
fn ends_within_line(file: &File) -> io::Result<bool> {
    let len = file.metadata()?.len();
    if len == 0 {
        return Ok(false);
    }
    let mut last = [0u8; 1];
    file.read_exact_at(&mut last, len - 1)?;
    Ok(last[0] != b'\n')
}

// Locks a file to which pieces are appended.
fn lock(file: &File) -> io::Result<()> {
    match file.try_lock() {
        Ok(()) => Ok(()),
        Err(TryLockError::WouldBlock) => Err(io::Error::new(
            ErrorKind::WouldBlock,
            "another run appends to it",
        )),
        Err(TryLockError::Error(error)) => Err(error),
    }
}

// Opens a file to append pieces to it, or makes it. If it ends within a line, as a write that failed leaves it, a newline ends that.
fn open_to_append(rt: &HostRuntime, name: &str) -> io::Result<File> {
    let mut options = OpenOptions::new();
    options.read(true).append(true).create(true);
    let mut file = open_again(rt, &options, name)?;
    lock(&file)?;
    if ends_within_line(&file)? {
        file.write_all(b"\n")?;
    }
    Ok(file)
}

// Whether a device says so that knows no wait until all of a file is on it.
fn knows_no_wait(kind: ErrorKind) -> bool
    ensures { result ≡ knows_no_wait kind }
{
    matches!(kind, ErrorKind::InvalidInput | ErrorKind::Unsupported)
}

/// Waits until all of a file or a folder is on the device, if that knows such a wait: a FIFO does not.
///
/// # Errors
///
/// What the system says if it cannot.
pub fn sync_known(file: &File) -> io::Result<()>
    ensures { IfErr result (λ error. knows_no_wait (error_kind error) ≡ false) }
{
    match file.sync_all() {
        Err(error) if knows_no_wait(error.kind()) => Ok(()),
        answer => answer,
    }
}

/// What refused pieces are written to as they come, if this name, or `-`, leads to such a thing: a regular file does if they are
/// appended to it, and else comes to its place once the run ends.
///
/// # Errors
///
/// What the system says if it cannot be opened, or that another run appends to it.
pub fn stream_of(rt: &HostRuntime, name: &str, old: OldPieces) -> io::Result<Option<Stream>> {
    if name == "-" {
        return Ok(Some(Stream::StandardOutput));
    }
    let is_appended = matches!(old, OldPieces::Append);
    match fs::metadata(rt, name) {
        Ok(file) if takes_at_once(file.file_type()) => {
            let mut options = OpenOptions::new();
            options.write(true);
            Ok(Some(Stream::Opened(open_again(rt, &options, name)?)))
        }
        Ok(file) if !file.is_file() => Ok(None),
        _ if is_appended => Ok(Some(Stream::Opened(open_to_append(rt, name)?))),
        _ => Ok(None),
    }
}
