//! Small, proved callers of the library that the documents quote. The program prints the results of each for some texts, and the file
//! `stdout` has the text that it must print.
//!
//! The lines from `// [NAME]` to `// [end]` are the block NAME of a document.
#![tactic(auto)]

mod admitted;
mod again;
mod answers;
mod bases;
mod bounded;
mod build;
mod built;
mod floats;
mod given_back;
mod grouped;
mod keys;
mod numbers;
mod packets;
mod parts;
mod print;
mod pulled;
mod rebuilt;
mod refusals;
mod strict;
mod tagged;
mod values;
mod vectors;
mod written;

use answers::print_answers;
use built::print_built;
use influxdb_line_protocol::{Error, LineStream};
use parts::print_part;
use std::io;

// Texts: numbers and a string; hosts, one of them twice; a fault; series; texts that the dialects read otherwise; lines that would not
// read back; tags; faults.
const TEXTS: &[&str] = &[
    "m a=-5i\nm a=5u\nm a=18446744073709551615u\nm a=1e3\nm a=\"5 \\\" 6\",b=5i\nm a=t\nm b=5i\nm a=1i,a=2i",
    "m,host=A f=1i\nm,region=west,host=A,host=B f=1i\nm,host=B f=1i\nm f=1i\nm,host=server\\ 1 f=1i",
    "m a=1i,b=2i\nm\n# c\nm c=3i\n",
    "m,a=1,b=2 f=1i\nm,b=2,a=1 f=2i\nm f=3i\n",
    "# it a=\"\nm b=1i\nn c=2i",
    "m a=1i,",
    "login,user=guest\\\npayments ok=t\nlogin,user=guest ok=t\nw\\\t f=1i\nm,a=1 f=T 5",
    "m,t=a\\ b f=1i\nm,t=a,v=a\\ b f=1i\nm,u=a\\ b,t=a\\ b f=t\nm,t=a\\ b f\nn,t=a\\ b f=1 7\n",
    "m,t=x a=1i,b=2i, 5\nm\n",
];

fn main(rt: HostRuntime) -> io::Result<()> {
    for text in TEXTS {
        print_answers(&rt, rt.alloc(), text)?;
    }
    print_built(&rt, rt.alloc())?;
    println!(rt; "refused memory: {}", Error::OutOfMemory)?;
    let mut stream = LineStream::new(rt.alloc());
    print_part(&rt, rt.alloc(), &mut stream, b"m,a=1 f=1i 7\nn f=\"x")??;
    print_part(&rt, rt.alloc(), &mut stream, b"\ny\" 8\n\xff\nm\n")??;
    print::main(rt)
}
