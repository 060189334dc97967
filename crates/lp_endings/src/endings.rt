//! How a run ends: why it failed, what is said of that, and its exit status.
ghost use Rattle.std.specs.Prelude.{◌≡◌};
ghost use Rattle.lp_endings.specs.Endings.{failed_device, failed_ending, ending_once_told, fault_status, is_broken_pipe, is_closed, is_closed_stream, not_told, plain_ending, print_status, relay_ending, run_failure, untold_failure};
ghost use Rattle.std.specs.IoError.{error_kind};

use crate::summary::Totals;
use lp_conditions::settings::Settings;
use lp_rebuild::RunFault;
use lp_words::told::ToldName;
use std::cell::Cell;
use std::fmt;
use std::io::{self, ErrorKind};

/// A device of a run.
#[derive(Clone, Copy)]
pub struct Device<'n> {
    /// The name of the file that it is; none if it is a standard stream.
    pub name: Option<&'n str>,
    /// The number of the batch that it is, if it is one: the name is then the word that says the names of all batches.
    pub batch: Option<u64>,
    /// What the system said of it last, if it failed.
    pub error: Option<io::Error>,
}

/// What there is of each device of a run: what it reads, and where lines, faults and refused pieces go.
#[derive(Clone, Copy, Drop)]
pub struct Devices<D> {
    pub input: D,
    pub output: D,
    pub faults: D,
    pub refused: D,
}

/// The devices of a run with the errors that they have so far.
pub type LastErrors<'n> = Devices<Cell<Device<'n>>>;

// A device that has not failed so far, which is the file of this name, if it has one.
fn unfailed_device<'n>(name: Option<&'n str>) -> Cell<Device<'n>> {
    Cell::new(Device {
        name,
        batch: None,
        error: None,
    })
}

impl<'n> Devices<Cell<Device<'n>>> {
    /// No error so far of a run whose lines and refused pieces go to files of these names, if they have names.
    pub fn unfailed(output: Option<&'n str>, refused: Option<&'n str>) -> Self {
        Devices {
            input: unfailed_device(None),
            output: unfailed_device(output),
            faults: unfailed_device(None),
            refused: unfailed_device(refused),
        }
    }

    /// The devices with the errors that they have now.
    pub fn now(&self) -> Devices<Device<'n>> {
        Devices {
            input: self.input.get(),
            output: self.output.get(),
            faults: self.faults.get(),
            refused: self.refused.get(),
        }
    }
}

/// Why a run failed.
#[derive(Clone, Copy)]
pub struct Failure<'n> {
    pub fault: RunFault,
    /// The device that failed; without an error if none did.
    pub device: Device<'n>,
    /// Whether it failed since nothing reads what it wrote.
    pub is_pipe_closed: bool,
}

/// How a run ends.
#[derive(Clone, Copy)]
pub struct Ending<'n> {
    /// What is said of why it failed.
    pub failure: Option<Failure<'n>>,
    /// How many faults were not told.
    pub not_told: usize,
    /// What is said of what it did.
    pub summary: Option<Totals>,
    /// The exit status.
    pub status: u8,
}

// Whether an error says that nothing reads what is written.
fn is_of_closed_pipe(error: io::Error) -> bool
    ensures { result ≡ is_broken_pipe (error_kind error) }
{
    matches!(error.kind(), ErrorKind::BrokenPipe)
}

impl<'n> Device<'n> {
    // Whether it failed since nothing reads what is written to it.
    fn is_closed(self) -> bool
        ensures { result ≡ is_closed self.entry }
    {
        match self.error {
            Some(error) => is_of_closed_pipe(error),
            None => false,
        }
    }
}

impl<'n> Device<'n> {
    // Whether it is a standard stream, and failed since nothing reads what is written to it.
    fn is_closed_stream(self) -> bool
        ensures { result ≡ is_closed_stream self.entry }
    {
        self.name.is_none() && self.is_closed()
    }
}

impl<'n> Devices<Device<'n>> {
    // The device of which a fault tells; without an error if it tells of none.
    fn failed(self, fault: RunFault) -> Device<'n>
        ensures { result ≡ failed_device self.entry fault }
    {
        match fault {
            RunFault::Read => self.input,
            RunFault::Write if self.faults.error.is_some() => self.faults,
            RunFault::Write if self.refused.error.is_some() => self.refused,
            RunFault::Write => self.output,
            RunFault::NotUtf8 | RunFault::OutOfMemory => Device {
                name: None,
                batch: None,
                error: None,
            },
        }
    }

    /// Why a run over them failed that ended with this fault.
    pub fn failure(self, fault: RunFault) -> Failure<'n>
        ensures { result ≡ run_failure self.entry fault }
    {
        let is_closed = self.output.is_closed()
            || self.faults.is_closed()
            || self.refused.is_closed_stream();
        Failure {
            fault,
            device: self.failed(fault),
            is_pipe_closed: matches!(fault, RunFault::Write) && is_closed,
        }
    }
}

impl<'n> fmt::Display for Failure<'n> {
    fn fmt<W: fmt::Write>(&self, f: &mut fmt::Formatter<W>) -> fmt::Result {
        let fault = self.fault;
        match (self.device.name, self.device.error) {
            (Some(name), Some(error)) => {
                let name = ToldName::of(name);
                write!(f, "{fault}: {name}: {error}")
            }
            (None, Some(error)) => write!(f, "{fault}: {error}"),
            (_, None) => write!(f, "{fault}"),
        }
    }
}

// The exit status of a run that failed: 141, as of a program that a closed pipe ends, if nothing reads what it wrote, else 2.
fn status_of_fault(fault: RunFault, is_pipe_closed: bool) -> u8
    ensures { result ≡ fault_status is_pipe_closed fault }
{
    match fault {
        RunFault::Write if is_pipe_closed => 141,
        _ => 2,
    }
}

// How a run ends that failed.
fn ending_of_failure<'n>(failure: Failure<'n>) -> Ending<'n>
    ensures { result ≡ failed_ending failure.entry }
{
    Ending {
        failure: if failure.is_pipe_closed {
            None
        } else {
            Some(failure)
        },
        not_told: 0,
        summary: None,
        status: status_of_fault(failure.fault, failure.is_pipe_closed),
    }
}

// How many faults were not told of so many items that were refused, if so many are told at most.
fn not_told(most: Option<usize>, refused: usize) -> usize
    ensures { result ≡ not_told most refused }
{
    match most {
        Some(most) => refused.saturating_sub(most),
        None => 0,
    }
}

/// How a relay by these settings ends, which tells its totals if the kinds of faults are counted, and how many faults it did not tell.
pub fn ending_of_relay<'n>(
    settings: Settings<'_>,
    answer: Result<Totals, Failure<'n>>,
) -> Ending<'n>
    ensures { result ≡ relay_ending settings.entry answer.entry }
{
    match answer {
        Ok(totals) => Ending {
            failure: None,
            not_told: not_told(settings.max_faults, totals.counts.refused),
            summary: if settings.counts_kinds {
                Some(totals)
            } else {
                None
            },
            status: if totals.counts.refused == 0 { 0 } else { 1 },
        },
        Err(failure) => ending_of_failure(failure),
    }
}

// Why a run failed whose standard error could not be written.
fn untold_failure<'n>(error: io::Error) -> Failure<'n>
    ensures { result ≡ untold_failure error }
{
    Failure {
        fault: RunFault::Write,
        device: Device {
            name: None,
            batch: None,
            error: Some(error),
        },
        is_pipe_closed: is_of_closed_pipe(error),
    }
}

/// How a run ends that would end so, once its counts were told: if they could not be told, it has failed.
pub fn ending_once_told<'n>(ending: Ending<'n>, told: io::Result<()>) -> Ending<'n>
    ensures { result ≡ ending_once_told ending.entry told }
{
    match told {
        Ok(()) => ending,
        Err(error) => ending_of_failure(untold_failure(error)),
    }
}

/// How a run ends that has no counts.
pub fn ending_of_cut<'n>(answer: Result<(), Failure<'n>>) -> Ending<'n>
    ensures { result ≡ plain_ending answer.entry }
{
    match answer {
        Ok(()) => Ending {
            failure: None,
            not_told: 0,
            summary: None,
            status: 0,
        },
        Err(failure) => ending_of_failure(failure),
    }
}

/// The exit status of a program that printed a text.
pub fn status_of_print(answer: io::Result<()>) -> u8
    ensures { result ≡ print_status answer }
{
    match answer {
        Ok(()) => 0,
        Err(error) => status_of_fault(RunFault::Write, is_of_closed_pipe(error)),
    }
}
