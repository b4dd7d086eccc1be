//! Reads a snapshot of a stopped thread from standard input and prints its backtrace: a line for each
//! frame, as debuggers write it, and last why there are no more. docs/FORMATS.md has the lines.
#![tactic(auto)]

mod code;
mod lines;
mod options;
mod pointers;
mod running;
mod sample;
mod stacks;
mod threads;
mod tracing;

use command_ends::{Status, end_program, words_of};
use memory_image::{StdinSource, StdoutSink};
use std::process::ExitCode;

/// The program's name, as its complaints begin.
const PROGRAM: &str = "backtrace";

fn main(rt: HostRuntime) -> ExitCode {
    let Ok(words) = words_of(&rt) else {
        return end_program(&rt, PROGRAM, Status::Memory);
    };
    let mut input = StdinSource::new(rt.stdin());
    let mut output = StdoutSink::new(rt.stdout());
    let status = running::run(rt.alloc(), &words, &mut input, &mut output);
    end_program(&rt, PROGRAM, status)
}
