//! Where the lines and the refused pieces go: to standard output, to a file that comes to its place whole or not at all, or nowhere.
ghost use Rattle.std.specs.Prelude.{◌≡◌, ◌≢◌, None, Ok, false, length, true, IfOk, IsOk, IsSome};
ghost use Rattle.std.specs.IoError.{error_kind};
ghost use Rattle.std.specs.Io.{WritesAtMost};
ghost use Rattle.std.specs.Io.KnownBytes.{Keeps, WriteAppends};
ghost use Rattle.lp_files.specs.Batches.{IsPlaced};
ghost use Rattle.lp_files.specs.Files.{new_file};
ghost use Rattle.lp_files.specs.Destinations.{GoesTo, PiecesGoTo, file_of, is_nowhere};
ghost use Rattle.lp_places.specs.Places.{has_no_links};

use crate::files::{FileState, Files, Maker, Output, Stage, failure_of};
use lp_endings::endings::Failure;
use lp_endings::speaking::{Notice, Speaker};
use lp_places::locks::{BESIDE, front_of_name, is_written, lock_made};
use lp_places::opens::{call_again, open_again, open_to_read};
use lp_places::places::{is_mounted, place_of};
use lp_places::streams::{Stream, sync_known};
use lp_words::paths::folder_and_file;
use std::fs::{self, File, Metadata, OpenOptions};
use std::io::{self, ErrorKind, IsTerminal, Stdout, Write};
use std::os::unix::fs::{MetadataExt, OpenOptionsExt, fchown};
use std::process;

// How many names are tried for the file beside.
const TRIES: u32 = 1000;

// What is said where no hard link can be made.
const NO_LINKS: &str = "its file system makes no hard links, which a new file needs";

/// Who may do what with a new file, as far as the process lets them.
pub(crate) const NEW_MODE: u32 = 0o666;

// Who may do what with a file until it has the permissions of the one that it replaces.
const OWN_MODE: u32 = 0o600;

/// A file of the system that is written beside its place.
pub struct FileBeside<'a, 'n> {
    rt: &'a HostRuntime,
    state: FileState<'n>,
    place: String,
    beside: String,
    // Which of the names that are tried the file beside has.
    turn: u32,
    // Whether it comes to its place only if nothing is there.
    is_new: bool,
    file: File,
}

impl<'a, 'n> Output<'n> for FileBeside<'a, 'n> {
    ghost state = { λ file. file.state };

    ghost says = { λ _ _. Unit {0} };

    ghost are_apart = { λ _ _. Unit {0} };

    fn name(&self) -> &'n str {
        self.state.name
    }

    /// By whatever name: if both have one place, the file beside this one has the name that it has beside that place.
    fn check_apart(&self, other: &Self) -> io::Result<()> {
        let own = self.file.metadata()?;
        let name = name_beside(self.rt, other.place.as_str(), self.turn)?;
        match fs::metadata(self.rt, name.as_str()) {
            Ok(file) if file.dev() == own.dev() && file.ino() == own.ino() => Err(io::Error::new(
                ErrorKind::InvalidInput,
                "it is the output too",
            )),
            _ => Ok(()),
        }
    }

    fn sync(&mut self) -> io::Result<()> {
        self.file.sync_all()?;
        self.state.is_synced = true;
        Ok(())
    }

    fn put(&mut self) -> io::Result<()> {
        put_at(
            self.rt,
            self.beside.as_str(),
            self.place.as_str(),
            self.is_new,
        )?;
        self.state.stage = Stage::InPlace;
        Ok(())
    }

    fn sync_place(&self) -> io::Result<()> {
        let (folder, _) = folder_and_file(self.place.as_str());
        sync_folder(self.rt, folder)
    }

    fn remove(&mut self) {
        if self.state.stage == Stage::Beside {
            let _ = fs::remove_file(self.rt, self.beside.as_str());
            self.state.stage = Stage::Removed;
        }
    }

    fn keep(&mut self) {
        self.state.stage = Stage::Kept;
    }

    fn let_go(self) {
        let FileBeside {
            rt: _rt,
            state: _state,
            place: _place,
            beside: _beside,
            turn: _turn,
            is_new: _is_new,
            file: _file,
        } = self;
    }
}

/// The system, and the program that says something of its files.
#[derive(Clone, Copy)]
pub struct System<'a> {
    pub rt: &'a HostRuntime,
    pub program: Speaker<'a>,
}

/// It makes a file for the place of a name, or of what that links to, also if nothing is there. The file has owner, group and
/// permissions of the file that is there, if one is; of the first two it says so if it may not give them. A place that has something
/// else than a file, or where something is mounted, is refused.
impl<'a, 'n> Maker<'n> for System<'a> {
    type File = FileBeside<'a, 'n>;

    fn make(&self, name: &'n str) -> io::Result<FileBeside<'a, 'n>> {
        let place = place_of(self.rt, name)?;
        match fs::metadata(self.rt, place.as_str()) {
            Ok(old) => self.make_over(name, place, &old),
            Err(_) => make_beside(self.rt, name, place, true, NEW_MODE),
        }
    }
}

impl<'a> System<'a> {
    // Makes a file for a place where this is.
    fn make_over<'n>(
        self,
        name: &'n str,
        place: String,
        old: &Metadata,
    ) -> io::Result<FileBeside<'a, 'n>>
        ensures { IfOk result (λ file. file.state ≡ new_file name.entry) }
    {
        check_replaced(self.rt, place.as_str(), old)?;
        let mut file = make_beside(self.rt, name, place, false, OWN_MODE)?;
        if let Err(error) = give_owner(&file.file, old) {
            self.say_unkept(name, error);
        }
        if let Err(error) = file.file.set_permissions(old.permissions()) {
            file.remove();
            file.let_go();
            return Err(error);
        }
        Ok(file)
    }

    // Says that a new file is not of the owner and group of the old one.
    fn say_unkept(self, name: &str, error: io::Error) {
        self.program.notify(self.rt, Notice::Unkept(name, error));
    }
}

// Sees that a file can replace what is in a place.
fn check_replaced(rt: &HostRuntime, place: &str, old: &Metadata) -> io::Result<()> {
    if !old.is_file() {
        return Err(io::Error::new(ErrorKind::InvalidInput, "it is no regular file"));
    }
    if is_mounted(rt, place)? {
        return Err(io::Error::new(
            ErrorKind::InvalidInput,
            "it is a mount point, which no file can replace",
        ));
    }
    Ok(())
}

// Gives a file the owner and the group of an old one, or the group alone if the owner may not be given.
fn give_owner(file: &File, old: &Metadata) -> io::Result<()> {
    let made = file.metadata()?;
    if made.uid() == old.uid() && made.gid() == old.gid() {
        return Ok(());
    }
    let answer = fchown(file, Some(old.uid()), Some(old.gid()));
    if answer.is_err() {
        let _ = fchown(file, None, Some(old.gid()));
    }
    answer
}

// Waits until all of a folder is on the device. One that may not be read, or a device that knows no such wait, is passed over.
fn sync_folder(rt: &HostRuntime, folder: &str) -> io::Result<()> {
    let Ok(folder) = open_to_read(rt, folder) else {
        return Ok(());
    };
    sync_known(&folder)
}

/// Makes a file for this place, which comes there only if nothing is there, if that is asked for. Messages have this name for it.
pub(crate) fn make_beside<'a, 'n>(
    rt: &'a HostRuntime,
    name: &'n str,
    place: String,
    is_new: bool,
    mode: u32,
) -> io::Result<FileBeside<'a, 'n>>
    ensures { IfOk result (λ file. file.state ≡ new_file name.entry) }
{
    let (beside, turn, file) = create_beside(rt, place.as_str(), mode)?;
    Ok(FileBeside {
        rt,
        state: FileState {
            name,
            stage: Stage::Beside,
            is_synced: false,
        },
        place,
        beside,
        turn,
        is_new,
        file,
    })
}

impl<'a, 'n> FileBeside<'a, 'n> {
    /// Whether it is beside its place.
    pub fn is_beside(&self) -> bool
        ensures yes { result ≡ true → self.now.state.stage ≡ Stage.Beside }
        ensures no { result ≡ false → self.now.state.stage ≢ Stage.Beside }
    {
        matches!(self.state.stage, Stage::Beside)
    }

    /// Whether it is in its place, and all of it is on the device.
    pub fn is_placed(&self) -> bool
        ensures { result ≡ true → IsPlaced self.now.state }
    {
        matches!(self.state.stage, Stage::InPlace) && self.state.is_synced
    }

    /// Sees that no other run writes a file for its place, and that it can come there, if that needs a hard link.
    ///
    /// # Errors
    ///
    /// That it is so, or what the system says if it cannot tell.
    pub(crate) fn check_place(&self) -> io::Result<()> {
        let (_, own) = folder_and_file(self.beside.as_str());
        if is_written(self.rt, self.place.as_str(), own)? {
            return Err(io::Error::new(ErrorKind::WouldBlock, "another run is writing it"));
        }
        if self.is_new {
            return self.check_links();
        }
        Ok(())
    }

    // Sees that a hard link can be made beside its place.
    fn check_links(&self) -> io::Result<()> {
        let link = name_beside(
            self.rt,
            self.place.as_str(),
            self.turn.saturating_add(TRIES),
        )?;
        link_again(self.rt, self.beside.as_str(), link.as_str()).map_err(unlinked)?;
        unlink_again(self.rt, link.as_str())
    }

    /// Whether it holds a byte, or that cannot be told.
    pub(crate) fn may_hold_bytes(&self) -> bool {
        match self.file.metadata() {
            Ok(file) => file.len() > 0,
            Err(_) => true,
        }
    }

    /// Writes all of these bytes.
    pub fn write_all(&mut self, bytes: &[u8]) -> io::Result<()>
        ensures { self.new.state ≡ self.old.state }
    {
        self.file.write_all(bytes)
    }
}

// Puts the file beside a place there: one that comes there only if nothing is there by a hard link, which replaces nothing.
fn put_at(rt: &HostRuntime, beside: &str, place: &str, is_new: bool) -> io::Result<()> {
    if !is_new {
        return call_again(|| fs::rename(rt, beside, place));
    }
    link_again(rt, beside, place)?;
    unlink_again(rt, beside)
}

// Gives a file another name too.
fn link_again(rt: &HostRuntime, file: &str, other: &str) -> io::Result<()> {
    call_again(|| fs::hard_link(rt, file, other))
}

// Takes a name away.
fn unlink_again(rt: &HostRuntime, name: &str) -> io::Result<()> {
    call_again(|| fs::remove_file(rt, name))
}

// Why no hard link can be made, where the system says this.
fn unlinked(error: io::Error) -> io::Error
    ensures links { has_no_links (error_kind error) ≡ false → result ≡ error }
    ensures none { has_no_links (error_kind error) ≡ true → error_kind result ≡ ErrorKind.Unsupported }
{
    if has_no_links(error.kind()) {
        return io::Error::new(ErrorKind::Unsupported, NO_LINKS);
    }
    error
}

// Whether the system says so where a file system makes no hard links.
fn has_no_links(kind: ErrorKind) -> bool
    ensures { result ≡ has_no_links kind }
{
    matches!(kind, ErrorKind::PermissionDenied | ErrorKind::Unsupported)
}

// A name beside a place.
fn name_beside(rt: &HostRuntime, place: &str, turn: u32) -> io::Result<String> {
    let id = process::id(rt.process());
    let (folder, file) = folder_and_file(place);
    let front = front_of_name(file);
    if front.len() == file.len() {
        return Ok(format!(in rt.alloc(); "{place}{BESIDE}{id}-{turn}")?);
    }
    Ok(format!(in rt.alloc(); "{folder}/{front}{BESIDE}{id}-{turn}")?)
}

// Locks a file that was just made at this path, and answers whether it is this run's, or removes it if that cannot be told.
fn lock_or_remove(rt: &HostRuntime, path: &str, file: &File) -> io::Result<bool> {
    let answer = lock_made(rt, path, file);
    if answer.is_err() {
        let _ = fs::remove_file(rt, path);
    }
    answer
}

// Makes a file beside a place, by a name that no file has, and locks it.
fn create_beside(rt: &HostRuntime, place: &str, mode: u32) -> io::Result<(String, u32, File)> {
    for turn in 0..TRIES {
        let beside = name_beside(rt, place, turn)?;
        let mut options = OpenOptions::new();
        options.write(true).create_new(true).mode(mode);
        match open_again(rt, &options, beside.as_str()) {
            Ok(file) => {
                if lock_or_remove(rt, beside.as_str(), &file)? {
                    return Ok((beside, turn, file));
                }
            }
            Err(error) if error.kind() == ErrorKind::AlreadyExists => {}
            Err(error) => return Err(error),
        }
    }
    Err(io::Error::from(ErrorKind::AlreadyExists))
}

/// Where lines or refused pieces are written.
#[derive(Drop)]
pub enum Destination<'a> {
    /// To standard output.
    Standard(Stdout),
    /// To a file.
    File(&'a File),
    /// Nowhere.
    Nowhere,
}

impl<'a> Write for Destination<'a> {
    fn write(&mut self, buf: &[u8]) -> io::Result<usize>
        ensures bound { WritesAtMost result buf.now }
        ensures bytes { WriteAppends None None result buf.now }
        ensures nowhere { is_nowhere self.old ≡ true → result ≡ Ok (length buf.now) }
    {
        match self {
            Destination::Standard(stdout) => stdout.write(buf),
            Destination::File(file) => file.write(buf),
            Destination::Nowhere => Ok(buf.len()),
        }
    }

    fn flush(&mut self) -> io::Result<()>
        ensures bytes { Keeps None None }
        ensures nowhere { is_nowhere self.old ≡ true → IsOk result }
    {
        match self {
            Destination::Standard(stdout) => stdout.flush(),
            Destination::File(file) => file.flush(),
            Destination::Nowhere => Ok(()),
        }
    }
}

/// Where the lines and the refused pieces of a run are written.
#[derive(Drop)]
pub struct Destinations<'a> {
    pub lines: Destination<'a>,
    pub refused: Destination<'a>,
}

impl<'a> Destinations<'a> {
    /// Whether the lines go to a terminal.
    pub fn is_on_terminal(&self) -> bool
        ensures file { IsSome (file_of self.now.lines) → result ≡ false }
        ensures nowhere { is_nowhere self.now.lines ≡ true → result ≡ false }
    {
        match &self.lines {
            Destination::Standard(stdout) => stdout.is_terminal(),
            Destination::File(_) | Destination::Nowhere => false,
        }
    }
}

// Sees that no other run writes a file, if there is one, and that it can come to its place.
fn check_place_of<'n>(file: &Option<FileBeside<'_, 'n>>) -> Result<(), Failure<'n>> {
    let Some(file) = file else {
        return Ok(());
    };
    file.check_place()
        .map_err(|error| failure_of(file.name(), error))
}

impl<'a, 'n> Files<FileBeside<'a, 'n>> {
    /// Sees that no other run writes these files, and that they can come to their places.
    ///
    /// # Errors
    ///
    /// `Write` if that is not so, or cannot be told.
    pub fn check_places(&self) -> Result<(), Failure<'n>> {
        check_place_of(&self.lines)?;
        check_place_of(&self.refused)
    }

    /// Where lines and refused pieces are written: lines that are only checked, and refused pieces that have neither a file beside its
    /// place nor what takes them as they come, nowhere.
    pub fn destinations<'d>(
        &'d self,
        rt: &HostRuntime,
        is_check: bool,
        stream: &'d Option<Stream>,
    ) -> Destinations<'d>
        ensures lines { GoesTo self.now.lines is_check result.lines }
        ensures refused { PiecesGoTo self.now.refused stream.now result.refused }
    {
        Destinations {
            lines: match &self.lines {
                _ if is_check => Destination::Nowhere,
                Some(output) => Destination::File(&output.file),
                None => Destination::Standard(rt.stdout()),
            },
            refused: match (&self.refused, stream) {
                (Some(output), _) => Destination::File(&output.file),
                (None, Some(Stream::Opened(file))) => Destination::File(file),
                (None, Some(Stream::StandardOutput)) => Destination::Standard(rt.stdout()),
                (None, None) => Destination::Nowhere,
            },
        }
    }
}
