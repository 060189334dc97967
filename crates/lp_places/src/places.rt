//! What is found in the places of names and of standard streams before anything is opened.
ghost use Rattle.std.specs.Prelude.{◌≡◌, ◌++◌, ◌<◌, None, codes, IfOk, IfSome, map, string_bytes};
ghost use Rattle.lp_places.specs.Places.{is_nothing_there, listed, path_led_to, range_len};
ghost use Rattle.lp_words.specs.Refusals.{input_path, output_path, unseen_refusal};

use crate::opens::{call_again, open_again, read_folder};
use lp_words::batch_names::BatchNames;
use lp_words::options::Range;
use lp_words::paths::last_slash;
use lp_words::refusals::{
    FileId, Located, OldPieces, Refusal, refusal_of, refusal_of_faults, refusal_of_old,
    refusal_of_range, refusal_of_unseen,
};
use std::alloc::{AllocError, Global};
use std::fs::{self, File, OpenOptions};
use std::io::{self, ErrorKind};
use std::os::unix::fs::{FileTypeExt, MetadataExt};

// How many links are followed, as the system follows them.
const MOST_LINKS: usize = 40;

// Where the system tells what is mounted.
const MOUNTS: &str = "/proc/self/mountinfo";

// Where the system has the standard streams.
const STREAMS: &str = "/proc/self/fd";

/// Where the system has standard input.
pub const STDIN: &str = "/proc/self/fd/0";

// Where the system has standard output.
const STDOUT: &str = "/proc/self/fd/1";

// Where the system has standard error.
const STDERR: &str = "/proc/self/fd/2";

// Takes the number of a stream, if it is closed, by a file that can be read or written, but not both.
fn hold(rt: &HostRuntime, path: &str, is_read: bool) -> Option<File> {
    match fs::metadata(rt, path) {
        Err(error) if error.kind() == ErrorKind::NotFound => {
            let mut options = OpenOptions::new();
            options.read(is_read).write(!is_read);
            open_again(rt, &options, "/dev/null").ok()
        }
        _ => None,
    }
}

/// Standard streams that are closed: files in their places, so that no file that is opened later is taken for one. What the
/// program does with a stream fails as if it were closed.
#[derive(Drop)]
pub struct Closed {
    stdin: Option<File>,
    stdout: Option<File>,
    stderr: Option<File>,
}

impl Closed {
    /// Takes the place of each stream that is closed, the lowest first, since the system gives the lowest number that is free.
    pub fn hold(rt: &HostRuntime) -> Self {
        let stdin = hold(rt, STDIN, false);
        let stdout = hold(rt, STDOUT, true);
        let stderr = hold(rt, STDERR, true);
        Closed {
            stdin,
            stdout,
            stderr,
        }
    }
}

/// The path of an input.
pub fn path_of<'a>(name: &'a str) -> &'a str
    ensures { result.now ≡ input_path name.now }
{
    if name == "-" { STDIN } else { name }
}

// The regular file to which a path leads, if it does.
fn file_at(rt: &HostRuntime, path: &str) -> Option<FileId> {
    match fs::metadata(rt, path) {
        Ok(file) if file.is_file() => Some(FileId {
            device: file.dev(),
            number: file.ino(),
        }),
        _ => None,
    }
}

// The inputs of these names, and the files to which they lead.
fn inputs_at<'a>(rt: &HostRuntime, names: &'a [&'a str]) -> Result<Vec<Located<'a>>, AllocError>
    ensures { IfOk result (λ inputs. map (λ input. input.name) inputs.items ≡ names.now) }
{
    let mut inputs = Vec::with_capacity(rt.alloc(), names.len())?;
    for at in 0..names.len() {
        let name = names[at];
        let file = file_at(rt, path_of(name));
        inputs.push(Located { name, file })?;
    }
    Ok(inputs)
}

// The regular file or the FIFO to which a path of an output leads, if it does. A device takes what two write to it.
fn output_at(rt: &HostRuntime, path: &str) -> Option<FileId> {
    match fs::metadata(rt, path) {
        Ok(file) if file.is_file() || file.file_type().is_fifo() => Some(FileId {
            device: file.dev(),
            number: file.ino(),
        }),
        _ => None,
    }
}

/// The path of an output: `-` is standard output.
fn output_path<'a>(name: &'a str) -> &'a str
    ensures { result.now ≡ output_path name.now }
{
    if name == "-" { STDOUT } else { name }
}

// An output of this name, and the file to which it leads.
fn located<'a>(rt: &HostRuntime, name: Option<&'a str>) -> Option<Located<'a>> {
    let name = name?;
    let file = output_at(rt, output_path(name));
    Some(Located { name, file })
}

// Where the lines of a run go that has no file for them: to standard output, unless refused pieces do.
fn lines_at(rt: &HostRuntime, refused: Option<Located<'_>>) -> Option<FileId> {
    match refused {
        Some(refused) if refused.name == "-" => None,
        _ => output_at(rt, STDOUT),
    }
}

// Why a run is refused over these inputs, if it is, whose standard streams cannot be looked at, as without /proc.
fn unseen_refusal_at<'a>(
    mut files: Vec<Located<'a>>,
    output: Option<Located<'a>>,
    refused: Option<Located<'a>>,
) -> Result<Option<Refusal<'a>>, AllocError>
    ensures { IfOk result (λ why. why ≡ unseen_refusal (files.entry.items ++ listed output.entry ++ listed refused.entry)) }
{
    if let Some(output) = output {
        files.push(output)?;
    }
    if let Some(refused) = refused {
        files.push(refused)?;
    }
    Ok(refusal_of_unseen(files.as_slice()))
}

/// Why a run over the inputs of these names is refused, if it is, whose lines and refused pieces go to files of these names. Lines
/// that have no file go to standard output, unless the refused pieces do, whose name is `-` then.
///
/// # Errors
///
/// If memory was refused.
pub fn refusal_at<'a>(
    rt: &HostRuntime,
    names: &'a [&'a str],
    output: Option<&'a str>,
    refused: Option<&'a str>,
) -> Result<Option<Refusal<'a>>, AllocError> {
    let inputs = inputs_at(rt, names)?;
    let output = located(rt, output);
    let refused = located(rt, refused);
    if fs::metadata(rt, STREAMS).is_err() {
        return unseen_refusal_at(inputs, output, refused);
    }
    let lines = match output {
        Some(output) => output.file,
        None => lines_at(rt, refused),
    };
    match refusal_of(inputs.as_slice(), lines, refused) {
        Some(refusal) => Ok(Some(refusal)),
        None => {
            let named = refused.filter(|refused| refused.name != "-");
            let faults = file_at(rt, STDERR);
            Ok(refusal_of_faults(inputs.as_slice(), faults, output, named))
        }
    }
}

/// Why refused pieces cannot go to the file of this name for what it holds, if they cannot: standard output, whose name is `-`, may
/// hold anything.
pub fn old_refusal_at<'a>(rt: &HostRuntime, old: OldPieces, name: &'a str) -> Option<Refusal<'a>> {
    match fs::metadata(rt, name) {
        Ok(file) if name != "-" && file.is_file() => {
            refusal_of_old(old, name, Some(file.len() as usize))
        }
        _ => None,
    }
}

/// The name of a file that is there, and is named as a batch.
///
/// # Errors
///
/// What the system says if it cannot tell which files are there.
pub fn batch_at(rt: &HostRuntime, names: BatchNames<'_>) -> io::Result<Option<String>> {
    for entry in read_folder(rt, names.folder())? {
        match entry {
            Ok(entry) if names.is_one(entry.file_name()) => {
                return Ok(Some(String::from_str(rt.alloc(), entry.file_name())?));
            }
            Ok(_) => {}
            // A name that is not UTF-8 is none of a batch.
            Err(error) if error.kind() == ErrorKind::InvalidFilename => {}
            Err(error) => return Err(error),
        }
    }
    Ok(None)
}

/// How many bytes the regular file has to which a path leads. Where nothing is found, it may have any number: that is told once it is
/// opened.
pub fn len_at(rt: &HostRuntime, path: &str) -> Option<usize> {
    match fs::metadata(rt, path) {
        Ok(file) if file.is_file() => Some(file.len() as usize),
        Ok(_) => None,
        Err(_) => Some(usize::MAX),
    }
}

/// How many bytes the regular file has to which a path leads: none if it is no such file, or cannot be looked at.
pub fn size_at(rt: &HostRuntime, path: &str) -> u64 {
    match fs::metadata(rt, path) {
        Ok(file) if file.is_file() => file.len(),
        _ => 0,
    }
}

/// Why a range of the input of this name is refused, if it is. That no file is there is told once it is opened.
pub fn range_refusal_at<'a>(rt: &HostRuntime, range: Range, name: &'a str) -> Option<Refusal<'a>> {
    refusal_of_range(range, name, len_at(rt, path_of(name)))
}

/// How many bytes an input has that can be read at places: a regular file, but for one that does not tell how many it has, as some of
/// the system's do.
pub fn file_len(rt: &HostRuntime, name: &str) -> Option<usize>
    ensures stream { name.now ≡ codes "-" → result ≡ None }
    ensures bytes { IfSome result (λ len. 0 < len) }
{
    if name == "-" {
        return None;
    }
    match len_at(rt, name) {
        Some(len) if len > 0 => Some(len),
        _ => None,
    }
}

/// Whether an input of these names cannot be read again: it is no regular file, as a pipe or a socket.
pub fn are_read_once(rt: &HostRuntime, names: &[&str]) -> bool {
    for at in 0..names.len() {
        match fs::metadata(rt, path_of(names[at])) {
            Ok(file) if file.is_file() => {}
            Err(error) if error.kind() == ErrorKind::NotFound && names[at] != "-" => {}
            _ => return true,
        }
    }
    false
}

// How many of so many bytes are in a range, or all of them without one.
fn range_len(range: Option<Range>, total: u64) -> u64
    ensures { result ≡ range_len range total }
{
    match range {
        Some(range) => {
            let end = match range.to {
                Some(to) => to as u64,
                None => total,
            };
            end.saturating_sub(range.from as u64)
        }
        None => total,
    }
}

/// How many bytes are relayed, if each input is a regular file: of one of which a range is relayed, those of the range.
pub fn relayed_len(rt: &HostRuntime, names: &[&str], range: Option<Range>) -> Option<u64> {
    let total = total_len(rt, names)?;
    Some(range_len(range, total))
}

// How many bytes all inputs have, if each is a regular file.
fn total_len(rt: &HostRuntime, names: &[&str]) -> Option<u64> {
    let mut total = 0u64;
    for at in 0..names.len() {
        let file = fs::metadata(rt, path_of(names[at])).ok()?;
        if !file.is_file() {
            return None;
        }
        total = total.saturating_add(file.len());
    }
    Some(total)
}

// Where a link of this path leads that has this text: from the folder of the link on, if the text does not begin with a slash.
fn path_led_to(alloc: Global, link: &str, to: &str) -> Result<String, AllocError>
    ensures { IfOk result (λ path. string_bytes path ≡ path_led_to link.now to.now) }
{
    match last_slash(link.as_bytes()) {
        Some(at) if to.as_bytes().first() != Some(&b'/') => {
            let mut path = String::from_str(alloc, &link[..at])?;
            path.push_str("/")?;
            path.push_str(to)?;
            Ok(path)
        }
        _ => String::from_str(alloc, to),
    }
}

// Where a link leads.
fn led_to(rt: &HostRuntime, link: &str) -> io::Result<String> {
    let to = fs::read_link(rt, link)?.into_string();
    Ok(path_led_to(rt.alloc(), link, to.as_str())?)
}

// Whether a look at a name that failed so tells that nothing is there.
fn is_nothing_there(kind: ErrorKind) -> bool
    ensures { result ≡ is_nothing_there kind }
{
    matches!(kind, ErrorKind::NotFound)
}

/// The place of a name: if that is a link, what it leads to, also if nothing is there.
///
/// # Errors
///
/// What the system says if it cannot tell whether a link is there, or a link cannot be read, or that there are too many.
pub fn place_of(rt: &HostRuntime, name: &str) -> io::Result<String> {
    let mut place = String::from_str(rt.alloc(), name)?;
    for _ in 0..MOST_LINKS {
        match call_again(|| fs::symlink_metadata(rt, place.as_str())) {
            Ok(found) if found.is_symlink() => place = led_to(rt, place.as_str())?,
            Err(error) if !is_nothing_there(error.kind()) => return Err(error),
            _ => return Ok(place),
        }
    }
    Err(io::Error::from(ErrorKind::FilesystemLoop))
}

// Adds a path as the system tells it among what is mounted.
fn put_path(told: &mut String, path: &str) -> Result<(), AllocError> {
    for character in path.chars() {
        match character {
            ' ' => told.push_str("\\040")?,
            '\t' => told.push_str("\\011")?,
            '\n' => told.push_str("\\012")?,
            '\\' => told.push_str("\\134")?,
            _ => told.push(character)?,
        }
    }
    Ok(())
}

/// Whether something is mounted in a place, as far as the system tells: then no other file can be put there.
///
/// # Errors
///
/// If memory was refused.
pub fn is_mounted(rt: &HostRuntime, place: &str) -> Result<bool, AllocError> {
    let (Ok(mounts), Ok(path)) = (fs::read_to_string(rt, MOUNTS), fs::canonicalize(rt, place))
    else {
        return Ok(false);
    };
    let mut told = String::new(rt.alloc());
    put_path(&mut told, path.into_string().as_str())?;
    Ok(
        mounts
            .lines()
            .any(|mount| mount.split(' ').nth(4) == Some(told.as_str())),
    )
}
