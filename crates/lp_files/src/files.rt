//! The files that a relay writes, each beside its place until all of both is on the device.
ghost use Rattle.std.specs.Prelude.{◌≡◌, ◌≢◌, Bool, List, ℕ, Option, true, is_ok, option_map, IfErr, IfOk, IfSome, OnErr, OnOk};
ghost use Rattle.std.specs.Borrow.{Bor};
ghost use Rattle.std.specs.declared.io.Error.{Error};
ghost use Rattle.lp_files.specs.declared.files.FileState.{FileState};
ghost use Rattle.lp_files.specs.Files.{ArePutWhole, Each, HasNames, IsBeside, IsInPlace, IsRemoved, IsSettled, IsTold, IsWhole, after_keep, after_put, after_remove, after_sync, batch_failure, file_failure, new_file};

use lp_endings::endings::{Device, Failure};
use lp_rebuild::RunFault;
use std::io;

/// Where a file is that is written beside its place.
#[derive(Clone, Copy, PartialEq, Eq)]
pub enum Stage {
    /// Beside its place.
    Beside,
    /// In its place.
    InPlace,
    /// Beside its place, where it stays.
    Kept,
    /// Its removal was asked for.
    Removed,
}

/// A file that is written beside its place, as contracts see it.
#[derive(Clone, Copy)]
pub struct FileState<'n> {
    /// The name of its place.
    pub name: &'n str,
    pub stage: Stage,
    /// Whether all of it is on the device.
    pub is_synced: bool,
}

/// A file that is written beside its place, and comes there once it is whole.
///
/// For contracts it has three members: `state`; `says`, what the system may say of a file of this name; and `are_apart`, whether two
/// may have places of their own. It is no `Drop`: it is let go only if it is beside no place.
pub trait Output<'n> {
    ghost state: { Self → FileState };

    ghost says: { List ℕ → Error → Type 0 };

    ghost are_apart: { Self → Self → Type 0 };

    /// The name of its place.
    fn name(&self) -> &'n str
        ensures { result ≡ (state self.now).name };

    /// Sees that another file has a place of its own.
    ///
    /// # Errors
    ///
    /// That it has not, or what the system says if it cannot tell.
    fn check_apart(&self, other: &Self) -> io::Result<()>
        ensures apart { OnOk result (are_apart self.now other.now) }
        ensures told { IfErr result (λ error. says (state other.now).name.now error) };

    /// Waits until all of the file is on the device.
    ///
    /// # Errors
    ///
    /// What the system says if it cannot.
    fn sync(&mut self) -> io::Result<()>
        ensures state { state self.new ≡ after_sync (state self.old) (is_ok result) }
        ensures told { IfErr result (λ error. says (state self.old).name.now error) };

    /// Puts the file in its place.
    ///
    /// # Errors
    ///
    /// What the system says if it cannot.
    fn put(&mut self) -> io::Result<()>
        requires beside { (state self.old).stage ≡ Stage.Beside }
        requires synced { (state self.old).is_synced ≡ true }
        ensures state { state self.new ≡ after_put (state self.old) (is_ok result) }
        ensures told { IfErr result (λ error. says (state self.old).name.now error) };

    /// Waits until its place is on the device: that its folder has it there.
    ///
    /// # Errors
    ///
    /// What the system says if it cannot.
    fn sync_place(&self) -> io::Result<()>
        ensures told { IfErr result (λ error. says (state self.now).name.now error) };

    /// Removes the file, if it is beside its place.
    fn remove(&mut self)
        ensures { state self.new ≡ after_remove (state self.old) };

    /// Keeps the file beside its place, since nothing else has what it holds.
    fn keep(&mut self)
        requires { (state self.old).stage ≡ Stage.Beside }
        ensures { state self.new ≡ after_keep (state self.old) };

    /// Lets it go.
    fn let_go(self)
        requires { (state self).stage ≢ Stage.Beside };
}

/// What makes files that are written beside their places.
pub trait Maker<'n> {
    type File: Output<'n>;

    /// A file for the place of this name.
    ///
    /// # Errors
    ///
    /// What the system says if it cannot be made; then there is none.
    fn make(&self, name: &'n str) -> io::Result<Self::File>
        ensures new { IfOk result (λ file. Self.File.state file ≡ new_file name.entry) }
        ensures told { IfErr result (λ error. Self.File.says name.now error) };
}

/// The files that a relay writes, if they are asked for: one for the lines, and one for the refused pieces.
pub struct Files<F> {
    pub lines: Option<F>,
    pub refused: Option<F>,
}

/// Why a run failed whose file of this name could not be written.
pub fn failure_of<'n>(name: &'n str, error: io::Error) -> Failure<'n>
    ensures { result ≡ file_failure name.entry error }
{
    Failure {
        fault: RunFault::Write,
        device: Device {
            name: Some(name),
            batch: None,
            error: Some(error),
        },
        is_pipe_closed: false,
    }
}

/// Why a run failed whose batch of this number could not be written, of those whose names a word says.
pub fn failure_of_batch<'n>(word: &'n str, number: u64, error: io::Error) -> Failure<'n>
    ensures { result ≡ batch_failure word.entry number error }
{
    Failure {
        fault: RunFault::Write,
        device: Device {
            name: Some(word),
            batch: Some(number),
            error: Some(error),
        },
        is_pipe_closed: false,
    }
}

// A file for the place of this name, if there is one.
fn make_file<'n, M: Maker<'n>>(
    maker: &M,
    name: Option<&'n str>,
) -> Result<Option<M::File>, Failure<'n>>
    ensures new { IfOk result (λ file. option_map M.File.state file ≡ option_map new_file name.entry) }
    ensures told { IfErr result (λ failure. IsTold M.File.says failure) }
{
    let Some(name) = name else {
        return Ok(None);
    };
    match maker.make(name) {
        Ok(file) => Ok(Some(file)),
        Err(error) => Err(failure_of(name, error)),
    }
}

// Removes a file, if there is one.
fn remove_file<'n, F: Output<'n>>(file: &mut Option<F>)
    ensures { option_map F.state file.new ≡ option_map after_remove (option_map F.state file.old) }
{
    if let Some(file) = file {
        file.remove();
    }
}

/// Lets a file go, if there is one.
pub(crate) fn let_file_go<'n, F: Output<'n>>(file: Option<F>)
    requires { IfSome (option_map F.state file) IsSettled }
{
    if let Some(file) = file {
        file.let_go();
    }
}

// Waits until all of a file is on the device, if there is one.
fn sync_file<'n, F: Output<'n>>(file: &mut Option<F>) -> Result<(), Failure<'n>>
    ensures state { option_map F.state file.new ≡ option_map (λ state. after_sync state (is_ok result)) (option_map F.state file.old) }
    ensures told { IfErr result (λ failure. IsTold F.says failure) }
{
    let Some(file) = file else {
        return Ok(());
    };
    let name = file.name();
    file.sync().map_err(|error| failure_of(name, error))
}

// Puts a file in its place, if there is one.
fn put_file<'n, F: Output<'n>>(file: &mut Option<F>) -> Result<(), Failure<'n>>
    requires { IfSome (option_map F.state file.old) IsWhole }
    ensures state { option_map F.state file.new ≡ option_map (λ state. after_put state (is_ok result)) (option_map F.state file.old) }
    ensures told { IfErr result (λ failure. IsTold F.says failure) }
{
    let Some(file) = file else {
        return Ok(());
    };
    let name = file.name();
    file.put().map_err(|error| failure_of(name, error))
}

// Waits until the place of a file is on the device, if there is one.
fn sync_place_of<'n, F: Output<'n>>(file: &Option<F>) -> Result<(), Failure<'n>>
    ensures told { IfErr result (λ failure. IsTold F.says failure) }
{
    let Some(file) = file else {
        return Ok(());
    };
    let name = file.name();
    file.sync_place().map_err(|error| failure_of(name, error))
}

impl<'n, F: Output<'n>> Files<F> {
    /// The files of these names: for the lines and for the refused pieces.
    ///
    /// # Errors
    ///
    /// `Write` if one cannot be made, or both have one place; then there is none.
    pub fn open<M: Maker<'n, File = F>>(
        maker: &M,
        lines: Option<&'n str>,
        refused: Option<&'n str>,
    ) -> Result<Self, Failure<'n>>
        ensures lines { IfOk result (λ files. option_map F.state files.lines ≡ option_map new_file lines.entry) }
        ensures refused { IfOk result (λ files. option_map F.state files.refused ≡ option_map new_file refused.entry) }
        ensures apart { IfOk result (λ files. IfSome files.lines (λ one. IfSome files.refused (λ other. F.are_apart one other))) }
        ensures told { IfErr result (λ failure. IsTold F.says failure) }
    {
        let mut lines = make_file(maker, lines)?;
        match make_file(maker, refused) {
            Ok(refused) => {
                let mut files = Files { lines, refused };
                match files.check_apart() {
                    Ok(()) => Ok(files),
                    Err(failure) => {
                        files.remove();
                        files.let_go();
                        Err(failure)
                    }
                }
            }
            Err(failure) => {
                remove_file(&mut lines);
                let_file_go(lines);
                Err(failure)
            }
        }
    }

    // Sees that both files have places of their own.
    fn check_apart(&self) -> Result<(), Failure<'n>>
        ensures apart { OnOk result (IfSome self.now.lines (λ one. IfSome self.now.refused (λ other. F.are_apart one other))) }
        ensures told { IfErr result (λ failure. IsTold F.says failure) }
    {
        let (Some(lines), Some(refused)) = (&self.lines, &self.refused) else {
            return Ok(());
        };
        match lines.check_apart(refused) {
            Ok(()) => Ok(()),
            Err(error) => Err(failure_of(refused.name(), error)),
        }
    }

    // Puts each file in its place, once all of both is on the device. After an error the first may be there already.
    fn put(&mut self) -> Result<(), Failure<'n>>
        requires { Each F.state IsBeside self.old }
        ensures kept { HasNames F.state self.old self.new }
        ensures placed { OnOk result (Each F.state IsInPlace self.new) }
        ensures whole { ArePutWhole F.state self.new }
        ensures told { IfErr result (λ failure. IsTold F.says failure) }
    {
        sync_file(&mut self.lines)?;
        sync_file(&mut self.refused)?;
        put_file(&mut self.lines)?;
        put_file(&mut self.refused)
    }

    // Waits until the places of both are on the device.
    fn sync_places(&self) -> Result<(), Failure<'n>>
        ensures told { IfErr result (λ failure. IsTold F.says failure) }
    {
        sync_place_of(&self.lines)?;
        sync_place_of(&self.refused)
    }

    // Puts each file in its place, and waits until that is on the device too. After an error each may be there already.
    fn put_and_sync(&mut self) -> Result<(), Failure<'n>>
        requires { Each F.state IsBeside self.old }
        ensures kept { HasNames F.state self.old self.new }
        ensures placed { OnOk result (Each F.state IsInPlace self.new) }
        ensures whole { ArePutWhole F.state self.new }
        ensures told { IfErr result (λ failure. IsTold F.says failure) }
    {
        self.put()?;
        self.sync_places()
    }

    /// Ends a run that gave this answer: puts each file in its place, once all of both is on the device. After a failure, of the run
    /// or of that, each file that is not in its place is removed.
    ///
    /// # Errors
    ///
    /// The failure of the run; `Write` if a file cannot be put in its place.
    pub fn finish<T: Drop>(&mut self, answer: Result<T, Failure<'n>>) -> Result<T, Failure<'n>>
        requires { Each F.state IsBeside self.old }
        ensures kept { HasNames F.state self.old self.new }
        ensures placed { OnOk result (Each F.state IsInPlace self.new) }
        ensures whole { ArePutWhole F.state self.new }
        ensures settled { Each F.state IsSettled self.new }
        ensures failed { IfErr answer.entry (λ failure. (result ≡ Err failure) × Each F.state IsRemoved self.new) }
        ensures value { IfOk answer.entry (λ value. IfOk result (λ other. other ≡ value)) }
        ensures told { OnOk answer.entry (IfErr result (λ failure. IsTold F.says failure)) }
    {
        let answer = match answer {
            Ok(value) => self.put_and_sync().map(|()| value),
            Err(failure) => Err(failure),
        };
        if answer.is_err() {
            self.remove();
        }
        answer
    }

    // Removes each file that is beside its place.
    fn remove(&mut self)
        ensures lines { option_map F.state self.new.lines ≡ option_map after_remove (option_map F.state self.old.lines) }
        ensures refused { option_map F.state self.new.refused ≡ option_map after_remove (option_map F.state self.old.refused) }
    {
        remove_file(&mut self.lines);
        remove_file(&mut self.refused);
    }

    /// Lets them go.
    pub fn let_go(self)
        requires { Each F.state IsSettled self }
    {
        let Files { lines, refused } = self;
        let_file_go(lines);
        let_file_go(refused);
    }
}
