//! Locks of the files that runs write beside their places, and what runs that were ended have left there.
//!
//! Each run locks the file that it writes beside a place, and the system takes the lock away once the run ends, however that is. So a
//! file of such a name that nobody locks is of a run that was ended, and the next run for the same place removes it. That reads the
//! folder of the place once. Where files cannot be locked nothing is removed.
//!
//! A file that is locked is of a run that goes on. A run that finds one beside its place, once it has locked its own, ends: of two runs
//! that begin at the same time at least one finds the other.
ghost use Rattle.std.specs.Prelude.{◌≡◌, ◌≤◌, length, take};
ghost use Rattle.lp_places.specs.Places.{are_numbers, is_beside, may_fail};

use crate::opens::{call_again, open_to_read, read_folder};
use lp_words::options::{is_number, place_of};
use lp_words::paths::folder_and_file;
use std::fs::{self, File, TryLockError};
use std::io::{self, ErrorKind};
use std::os::unix::fs::MetadataExt;

/// What comes in the name of a file beside its place after the name of that.
pub const BESIDE: &str = ".lp_relay-";

// So many bytes of the name of a place begin the name of a file beside it, at most: a file system takes names of 255 bytes.
const MOST_OF_NAME: usize = 224;

/// What the names of files beside the place of this file begin with: its name, or the first characters of a long one.
pub fn front_of_name<'a>(file: &'a str) -> &'a str
    ensures most { length result.now ≤ 224 }
    ensures front { result.now ≡ take (length result.now) file.now }
    ensures whole { length file.now ≤ 224 → result.now ≡ file.now }
{
    &file[..file.floor_char_boundary(MOST_OF_NAME)]
}

// Whether a text is two numbers with a dash between them.
fn are_numbers(text: &[u8]) -> bool
    ensures { result ≡ are_numbers text.now }
{
    match place_of(b'-', text) {
        Some(at) => is_number(&text[..at]) && is_number(&text[at + 1..]),
        None => false,
    }
}

// Whether a name is that of a file beside a place, of whose name this begins it: with the number of a process and another one.
fn is_beside(front: &[u8], name: &[u8]) -> bool
    ensures { result ≡ is_beside front.now name.now }
{
    let Some(rest) = name.strip_prefix(front) else {
        return false;
    };
    match rest.strip_prefix(BESIDE.as_bytes()) {
        Some(numbers) => are_numbers(numbers),
        None => false,
    }
}

// Whether a path is that of an open file, and no link.
fn is_at(rt: &HostRuntime, path: &str, file: &File) -> io::Result<bool> {
    let own = call_again(|| file.metadata())?;
    match call_again(|| fs::symlink_metadata(rt, path)) {
        Ok(found) => Ok(found.dev() == own.dev() && found.ino() == own.ino()),
        Err(error) if error.kind() == ErrorKind::NotFound => Ok(false),
        Err(error) => Err(error),
    }
}

/// Locks a file that was just made at this path. Answers whether it is this run's: another run may have locked it first, and removes it.
///
/// # Errors
///
/// What the system says if it cannot tell whether the file is still there.
pub fn lock_made(rt: &HostRuntime, path: &str, file: &File) -> io::Result<bool> {
    match file.try_lock() {
        Ok(()) => is_at(rt, path, file),
        Err(TryLockError::WouldBlock) => Ok(false),
        // Files cannot be locked there, so no run removes them.
        Err(TryLockError::Error(_)) => Ok(true),
    }
}

// Removes the file at this path if it is a regular file that no run has locked. Answers whether it did.
fn remove_unlocked(rt: &HostRuntime, path: &str) -> io::Result<bool> {
    if !fs::symlink_metadata(rt, path)?.is_file() {
        return Ok(false);
    }
    let file = open_to_read(rt, path)?;
    if file.try_lock().is_err() || !is_at(rt, path, &file)? {
        return Ok(false);
    }
    fs::remove_file(rt, path)?;
    Ok(true)
}

// Whether a look at a file of another run may fail so: the file is gone by then, or is another user's.
fn may_fail(kind: ErrorKind) -> bool
    ensures { result ≡ may_fail kind }
{
    matches!(kind, ErrorKind::NotFound | ErrorKind::PermissionDenied)
}

// Whether the file at this path is a regular file that a run has locked.
fn is_locked(rt: &HostRuntime, path: &str) -> io::Result<bool> {
    if !fs::symlink_metadata(rt, path)?.is_file() {
        return Ok(false);
    }
    // A lock that others share: of two runs that look at one file none takes the other for its writer.
    let lock = open_to_read(rt, path)?.try_lock_shared();
    Ok(matches!(lock, Err(TryLockError::WouldBlock)))
}

/// Whether another run writes a file beside a place, where this run has the file of this name. That cannot be told of a place with a
/// long name: the names of files beside it may be of other places too.
///
/// # Errors
///
/// What the system says if it cannot look at a file, unless that is gone by then, or is another user's; and if memory was refused.
pub fn is_written(rt: &HostRuntime, place: &str, own: &str) -> io::Result<bool> {
    let (folder, file) = folder_and_file(place);
    if front_of_name(file).len() < file.len() {
        return Ok(false);
    }
    for name in &names_beside(rt, place)? {
        if name.as_str() == own {
            continue;
        }
        let path = format!(in rt.alloc(); "{folder}/{name}")?;
        match is_locked(rt, path.as_str()) {
            Ok(false) => {}
            Err(error) if may_fail(error.kind()) => {}
            answer => return answer,
        }
    }
    Ok(false)
}

/// The names of the files that runs have made beside a place, also of those that are not ended. A folder that cannot be read has none.
///
/// # Errors
///
/// If memory was refused.
pub fn names_beside(rt: &HostRuntime, place: &str) -> io::Result<Vec<String>> {
    let (folder, file) = folder_and_file(place);
    let front = front_of_name(file);
    let mut names = Vec::new(rt.alloc());
    let Ok(entries) = read_folder(rt, folder) else {
        return Ok(names);
    };
    for entry in entries {
        let Ok(entry) = entry else {
            continue;
        };
        if is_beside(front.as_bytes(), entry.file_name().as_bytes()) {
            names.push(String::from_str(rt.alloc(), entry.file_name())?)?;
        }
    }
    Ok(names)
}

/// Removes the file of this name beside a place, if it is one that a run has left. Answers whether it did: what cannot be removed stays.
pub fn remove_left(rt: &HostRuntime, place: &str, name: &str) -> bool {
    let (folder, _) = folder_and_file(place);
    match format!(in rt.alloc(); "{folder}/{name}") {
        Ok(path) => remove_unlocked(rt, path.as_str()).unwrap_or(false),
        Err(_) => false,
    }
}
