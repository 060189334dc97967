//! Does what the words ask for.
ghost use Rattle.std.specs.Prelude.{◌≡◌, false, IfNone};
ghost use Rattle.lp_rebuild.specs.declared.program.RunFault.TheVariants.{Read};
ghost use Rattle.lp_series_program.specs.Words.{asked_task};

use crate::counting::Counting;
use crate::words::{HELP, MANUAL, NAME, Report, Task, USAGE, options_in, task_of};
use lp_endings::arguments::refuse_words;
use lp_endings::endings::{Device, Failure, ending_of_relay, status_of_print};
use lp_endings::speaking::Speaker;
use lp_endings::summary::Totals;
use lp_endings::version::print_version;
use lp_programs::relays::{Request, end, refuse_files, relay, relay_to_files, remove_all_left};
use lp_rebuild::RunFault;
use lp_words::refusals::names_of;
use std::hash::RandomState;
use std::io;

// How a count ended that a relay answered so: if memory was refused for it, or it could not be told, that is why.
fn answer_of<'n>(
    answer: Result<Totals, Failure<'n>>,
    counting: &Counting<'_, 'n>,
) -> Result<Totals, Failure<'n>> {
    if let Some(failure) = counting.failure {
        return Err(failure);
    }
    match answer {
        Err(failure) if counting.is_refused => Err(Failure {
            fault: RunFault::OutOfMemory,
            ..failure
        }),
        answer => answer,
    }
}

// Why nothing is counted if the system gives no random numbers: they are read before the inputs.
fn no_random_numbers<'n>(error: io::Error) -> Failure<'n>
    ensures fault { result.fault ≡ Read }
    ensures pipe { result.is_pipe_closed ≡ false }
{
    Failure {
        fault: RunFault::Read,
        device: Device {
            name: Some("random numbers"),
            batch: None,
            error: Some(error),
        },
        is_pipe_closed: false,
    }
}

// Counts the lines of the inputs of these names, and tells what was counted, also if the inputs could not be read to their end.
fn count<'n>(
    rt: &HostRuntime,
    program: Speaker<'_>,
    request: Request<'n>,
    names: &'n [&'n str],
    report: Report<'n>,
) -> Result<Totals, Failure<'n>> {
    let hashes = match RandomState::new(rt) {
        Ok(hashes) => hashes,
        Err(error) => return Err(no_random_numbers(error)),
    };
    let counting = Counting::new(rt, program, hashes, request.relay, report);
    let (answer, counting) = relay_to_files(rt, program, request, names, counting);
    let totals = answer_of(answer, &counting);
    if counting.failure.is_some() {
        return totals;
    }
    let refused = match &totals {
        Ok(totals) => totals.counts.kinds,
        Err(_) => None,
    };
    match (totals, counting.tell(refused)) {
        (Ok(totals), Ok(())) => Ok(totals),
        (Ok(_), Err(failure)) => Err(failure),
        (Err(failure), _) => Err(failure),
    }
}

// Counts the lines of the inputs of these names, and answers with the exit status.
fn count_files<'n>(
    rt: &HostRuntime,
    request: Request<'n>,
    names: &'n [&'n str],
    report: Report<'n>,
) -> u8 {
    let program = Speaker::as_faults(NAME, request.relay.faults);
    if let Some(status) = refuse_files(rt, program, names, report.prometheus, None) {
        return status;
    }
    remove_all_left(rt, program, report.prometheus);
    let answer = count(rt, program, request, names, report);
    end(rt, program, ending_of_relay(request.relay, answer))
}

// Says what is wrong with words that ask for nothing, and answers with the exit status.
fn refuse_wrong(rt: &HostRuntime, words: &[&str]) -> u8
    ensures { result ≡ 2 }
{
    let wrong = MANUAL.wrong_words(rt.alloc(), words, options_in(words));
    refuse_words(rt, NAME, wrong)
}

/// Does what the words ask for, and answers with the exit status.
pub(crate) fn run_words(rt: &HostRuntime, words: &[&str]) -> u8
    ensures { IfNone (asked_task words.now) (result ≡ 2) }
{
    match task_of(words) {
        Some(Task::Relay(request)) => {
            let names = names_of(words, request.inputs);
            relay(rt, NAME, request, names)
        }
        Some(Task::Count(request, report)) => {
            let names = names_of(words, request.inputs);
            count_files(rt, request, names, report)
        }
        Some(Task::Help) => status_of_print(println!(rt; "{USAGE}\n{HELP}")),
        Some(Task::Version) => print_version(rt, NAME),
        None => refuse_wrong(rt, words),
    }
}
