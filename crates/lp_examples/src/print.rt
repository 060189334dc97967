//! Prints each line of standard input, and the fault of each line that cannot be read.
#![tactic(auto)]

use influxdb_line_protocol::parse_lines;
use std::alloc::Global;
use std::io;

/// Prints each line of `text`, and the fault of each line that cannot be read.
pub fn print_lines(rt: &impl Print, alloc: Global, text: &str) -> io::Result<()> {
    for item in parse_lines(alloc, text) {
        match item {
            Ok(line) => println!(rt; "{} at {:?}", line.series, line.timestamp)?,
            Err(fault) => println!(rt; "a fault: {fault}")?,
        }
    }
    Ok(())
}

pub fn main(rt: HostRuntime) -> io::Result<()> {
    let text = io::read_to_string(rt.alloc(), rt.stdin())?;
    print_lines(&rt, rt.alloc(), text.as_str())
}
