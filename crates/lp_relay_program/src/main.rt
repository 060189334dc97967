//! Relays the lines of its inputs as they come. Those that can be written again go to its output, a numbered fault line for each other to
//! standard error, and the other as it came to a file, if one is named for it.
#![tactic(auto)]

mod runs;
mod time_words;
mod words;

use lp_endings::arguments::{arguments_of, refuse_memory};
use lp_places::places::Closed;
use lp_words::plain::words_in_order;
use runs::{NAME, run_words};
use std::process::ExitCode;
use words::VALUED;

fn main(rt: HostRuntime) -> ExitCode {
    let _closed = Closed::hold(&rt);
    let arguments = match arguments_of(&rt, NAME) {
        Ok(arguments) => arguments,
        Err(status) => return ExitCode::from(status),
    };
    let status = match words_in_order(rt.alloc(), VALUED, arguments.as_slice()) {
        Ok(words) => run_words(&rt, words.as_slice()),
        Err(_) => refuse_memory(&rt, NAME),
    };
    ExitCode::from(status)
}
