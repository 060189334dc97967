//! Tells what series the lines of its inputs have, or writes the lines by their series: each after its key, or those of one shard.
#![tactic(auto)]

mod counting;
mod report;
mod runs;
mod words;

use lp_endings::arguments::{arguments_of, refuse_memory};
use lp_places::places::Closed;
use lp_words::plain::words_in_order;
use runs::run_words;
use std::process::ExitCode;
use words::{NAME, VALUED};

fn main(rt: HostRuntime) -> ExitCode {
    let _closed = Closed::hold(&rt);
    let arguments = match arguments_of(&rt, NAME) {
        Ok(arguments) => arguments,
        Err(status) => return ExitCode::from(status),
    };
    let status = match words_in_order(rt.alloc(), VALUED, arguments.as_slice()) {
        Ok(words) => run_words(&rt, words.as_slice()),
        Err(_) => refuse_memory(&rt, NAME),
    };
    ExitCode::from(status)
}
