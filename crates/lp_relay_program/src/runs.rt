//! Does what the words ask for.
ghost use Rattle.std.specs.Prelude.{◌≡◌, IfNone, IfSome};
ghost use Rattle.lp_relay_program.specs.Words.{asked_task};

use crate::words::{HELP, MANUAL, SHORT_HELP, Task, USAGE, options_in, task_of};
use influxdb_line_protocol::Dialect;
use lp_endings::arguments::refuse_words;
use lp_endings::endings::{Device, LastErrors, ending_of_cut, status_of_print};
use lp_endings::speaking::Speaker;
use lp_endings::version::print_version;
use lp_inputs::errors::Watched;
use lp_inputs::inputs::{Inputs, SystemOpener};
use lp_places::opens::open_to_read;
use lp_places::places::file_len;
use lp_programs::asked::{ReadsOn, part_ends_of};
use lp_programs::relays::{end, refuse, refuse_files, relay};
use lp_rebuild::{Reading, RunFault};
use lp_relay::part_ends_at;
use lp_words::refusals::{names_of, refusal_of_parts};
use std::cell::Cell;

/// The name of the program.
pub(crate) const NAME: &str = "lp_relay";

// Where a file of so many bytes can be cut into parts. Blocks of it are read.
fn ends_of_file<'n>(
    rt: &HostRuntime,
    dialect: Dialect,
    count: usize,
    name: &'n str,
    len: usize,
    errors: &LastErrors<'n>,
) -> Result<Vec<usize>, RunFault> {
    let file = open_to_read(rt, name);
    errors.input.set(Device {
        name: Some(name),
        batch: None,
        error: file.as_ref().err().copied(),
    });
    let Ok(file) = file else {
        return Err(RunFault::Read);
    };
    let file = Watched::new(&errors.input, file);
    part_ends_at(rt.alloc(), dialect, &file, len, count)
}

// Where the inputs of these names can be cut into parts. All of them are held, unless there is one, which can be read at places.
fn ends_of<'n>(
    rt: &HostRuntime,
    dialect: Dialect,
    count: usize,
    names: &'n [&'n str],
    errors: &LastErrors<'n>,
) -> Result<Vec<usize>, RunFault> {
    if let [name] = names {
        if let Some(len) = file_len(rt, name) {
            return ends_of_file(rt, dialect, count, name, len, errors);
        }
    }
    let is_marked = Cell::new(false);
    let opener = SystemOpener::new(rt, &errors.input, &is_marked, None, None);
    let inputs = Inputs::new(opener, names);
    let mut inputs = lp_relay::Inputs {
        reader: Reading::new(Watched::new(&errors.input, inputs)),
        next: ReadsOn,
    };
    part_ends_of(rt.alloc(), dialect, count, names, &mut inputs)
}

// Prints where the inputs of these names can be cut into parts, a line for each end.
fn print_ends<'n>(
    rt: &HostRuntime,
    dialect: Dialect,
    count: usize,
    names: &'n [&'n str],
    errors: &LastErrors<'n>,
) -> Result<(), RunFault> {
    for end in ends_of(rt, dialect, count, names, errors)? {
        if let Err(error) = println!(rt; "{end}") {
            errors.output.set(Device {
                name: None,
                batch: None,
                error: Some(error),
            });
            return Err(RunFault::Write);
        }
    }
    Ok(())
}

// Says where the inputs of these names can be cut into parts, and answers with the exit status.
fn cut(rt: &HostRuntime, dialect: Dialect, count: usize, names: &[&str]) -> u8 {
    let errors = LastErrors::unfailed(None, None);
    let answer = match print_ends(rt, dialect, count, names, &errors) {
        Ok(()) => Ok(()),
        Err(fault) => Err(errors.now().failure(fault)),
    };
    end(rt, Speaker::by_texts(NAME), ending_of_cut(answer))
}

// Says what is wrong with words that ask for nothing, and answers with the exit status.
fn refuse_wrong(rt: &HostRuntime, words: &[&str]) -> u8
    ensures { result ≡ 2 }
{
    let wrong = MANUAL.wrong_words(rt.alloc(), words, options_in(words));
    refuse_words(rt, NAME, wrong)
}

// Says why a cut into so many parts is refused, if it is.
fn refuse_cut(rt: &HostRuntime, parts: usize, names: &[&str]) -> Option<u8>
    ensures { IfSome result (λ status. status ≡ 2) }
{
    let program = Speaker::by_texts(NAME);
    match refuse(rt, program, refusal_of_parts(parts)) {
        Some(status) => Some(status),
        None => refuse_files(rt, program, names, None, None),
    }
}

/// Does what the words ask for, and answers with the exit status.
pub(crate) fn run_words(rt: &HostRuntime, words: &[&str]) -> u8
    ensures { IfNone (asked_task words.now) (result ≡ 2) }
{
    match task_of(words) {
        Some(Task::Relay(request)) => {
            let names = names_of(words, request.inputs);
            relay(rt, NAME, request, names)
        }
        Some(Task::Cut(dialect, parts, inputs)) => {
            let names = names_of(words, inputs);
            match refuse_cut(rt, parts, names) {
                Some(status) => status,
                None => cut(rt, dialect, parts, names),
            }
        }
        Some(Task::Help(false)) => status_of_print(println!(rt; "{SHORT_HELP}")),
        Some(Task::Help(true)) => status_of_print(println!(rt; "{USAGE}\n{HELP}")),
        Some(Task::Version) => print_version(rt, NAME),
        None => refuse_wrong(rt, words),
    }
}
