//! Makes calls to the system again as often as a signal interrupts them.
ghost use Rattle.std.specs.Prelude.{◌≡◌, false, IfErr};
ghost use Rattle.std.specs.IoError.{error_kind};
ghost use Rattle.lp_places.specs.Places.{is_interrupted};

use std::alloc::Global;
use std::fs::{self, File, OpenOptions, ReadDir};
use std::io::{self, ErrorKind};

/// How often a call is tried that a signal interrupts: a process gets no such number of signals.
pub const TRIES: u64 = u64::MAX;

/// Whether a call that failed so is made again: a signal interrupted it.
pub fn is_interrupted(kind: ErrorKind) -> bool
    ensures { result ≡ is_interrupted kind }
{
    matches!(kind, ErrorKind::Interrupted)
}

/// Makes a call to the system, and again as often as a signal interrupts it.
///
/// # Errors
///
/// What the system says: never that a signal interrupted the call.
pub fn call_again<T, F: FnMut() -> io::Result<T>>(mut call: F) -> io::Result<T>
    requires { F.IsAlwaysCallable call }
    ensures { IfErr result (λ error. is_interrupted (error_kind error) ≡ false) }
{
    for _ in 0..TRIES {
        match call() {
            Err(error) if is_interrupted(error.kind()) => {}
            answer => return answer,
        }
    }
    Err(io::Error::from(ErrorKind::Other))
}

/// Opens a file by these options.
///
/// # Errors
///
/// What the system says if it cannot be opened.
pub fn open_again(rt: &HostRuntime, options: &OpenOptions, path: &str) -> io::Result<File>
    ensures { IfErr result (λ error. is_interrupted (error_kind error) ≡ false) }
{
    call_again(|| options.open(rt, path))
}

/// Opens a file to read it.
///
/// # Errors
///
/// What the system says if it cannot be opened.
pub fn open_to_read(rt: &HostRuntime, path: &str) -> io::Result<File>
    ensures { IfErr result (λ error. is_interrupted (error_kind error) ≡ false) }
{
    let mut options = OpenOptions::new();
    options.read(true);
    open_again(rt, &options, path)
}

/// Opens a folder to read the names in it.
///
/// # Errors
///
/// What the system says if it cannot be opened.
pub(crate) fn read_folder<'a>(
    rt: &'a HostRuntime,
    folder: &str,
) -> io::Result<ReadDir<&'a HostRuntime, Global>>
    ensures { IfErr result (λ error. is_interrupted (error_kind error) ≡ false) }
{
    call_again(|| fs::read_dir(&rt, folder))
}
