// Prints what a job file on standard input says, or the one line that says why it is refused.
#![tactic(auto)]

mod answer;
mod describe;

use answer::{Printed, answer};
use std::io;
use std::io::{Read, Write};
use std::process::ExitCode;

// What follows is ignored.
const MOST_INPUT: u64 = 8192;

fn main(rt: HostRuntime) -> io::Result<ExitCode> {
    let mut input = Vec::new(rt.alloc());
    rt.stdin().take(MOST_INPUT).read_to_end(&mut input)?;
    let (text, status) = match answer(rt.alloc(), input)? {
        Printed::Taken(text) => (text, ExitCode::SUCCESS),
        Printed::Refused(text) => (text, ExitCode::FAILURE),
    };
    rt.stdout().write_all(&text)?;
    Ok(status)
}
