//! The words of the command line, and what is said if they are wrong.
ghost use Rattle.std.specs.Prelude.{◌≡◌, IfErr};

use lp_rebuild::RunFault;
use lp_words::wrong::Wrong;
use std::env::{self, Env};
use std::io::{self, ErrorKind};
use std::str;

/// Says what is wrong with the words of a program of this name, and answers with the exit status.
pub fn refuse_words(rt: &HostRuntime, program: &str, wrong: Wrong<'_>) -> u8
    ensures { result ≡ 2 }
{
    let _ = eprintln!(rt; "{program}: {wrong}\ntry {program} --help");
    2
}

/// Says that memory ran out before a program of this name began, and answers with the exit status.
pub fn refuse_memory(rt: &HostRuntime, program: &str) -> u8
    ensures { result ≡ 2 }
{
    let fault = RunFault::OutOfMemory;
    let _ = eprintln!(rt; "{program}: {fault}");
    2
}

// Names the first word that is not UTF-8, if it is not longer than a name of a file can be.
fn refuse_bytes(rt: &HostRuntime, program: &str) -> u8
    ensures { result ≡ 2 }
{
    let mut room = [0u8; 4096];
    for at in 1..usize::MAX {
        let Ok(len) = rt.arg(at, &mut room) else {
            break;
        };
        if str::from_utf8(&room[..len]).is_err() {
            return refuse_words(rt, program, Wrong::NotUtf8(&room[..len]));
        }
    }
    refuse_words(rt, program, Wrong::NotUtf8(b"a word"))
}

// The words after the program's name.
fn words_given(rt: &HostRuntime) -> io::Result<Vec<String>> {
    Ok(env::args(rt)?.skip(1).collect(rt.alloc())?)
}

/// The words after the name of a program.
///
/// # Errors
///
/// The exit status, after a message, if a word is not UTF-8 or memory was refused.
pub fn arguments_of(rt: &HostRuntime, program: &str) -> Result<Vec<String>, u8>
    ensures { IfErr result (λ status. status ≡ 2) }
{
    match words_given(rt) {
        Ok(words) => Ok(words),
        Err(error) if error.kind() == ErrorKind::InvalidData => Err(refuse_bytes(rt, program)),
        Err(_) => Err(refuse_memory(rt, program)),
    }
}
