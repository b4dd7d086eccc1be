//! Reads a perf.data file from standard input and prints its folded stacks: a line for each distinct
//! stack of its samples, with the number of the samples that show it. `profile TABLES` walks them over
//! the modules of the file TABLES, a snapshot. `profile --script TABLES` prints the samples one after
//! another, in the text form of `perf script`. docs/FORMATS.md has the lines.
#![tactic(auto)]

mod lines;
mod request;
mod running;
mod sample;

use crate::request::request_of;
use crate::running::run;
use command_ends::{Status, Words, end_program, words_of};
use memory_image::{StdinSource, StdoutSink};
use std::fs;
use std::io::ErrorKind;
use std::process::ExitCode;

/// The bytes of the file that the words name, none where they name none.
fn tables_named(rt: &HostRuntime, words: &Words) -> Result<Vec<u8>, Status> {
    let Some(request) = request_of(words) else {
        return Ok(Vec::new(rt.alloc()));
    };
    match fs::read(rt, request.path) {
        Ok(bytes) => Ok(bytes),
        Err(error) => match error.kind() {
            ErrorKind::OutOfMemory => Err(Status::Memory),
            _ => Err(Status::ReadFault),
        },
    }
}

fn main(rt: HostRuntime) -> ExitCode {
    let Ok(words) = words_of(&rt) else {
        return end_program(&rt, "profile", Status::Memory);
    };
    let tables = match tables_named(&rt, &words) {
        Ok(tables) => tables,
        Err(status) => return end_program(&rt, "profile", status),
    };
    let mut input = StdinSource::new(rt.stdin());
    let mut output = StdoutSink::new(rt.stdout());
    let status = run(rt.alloc(), &words, &tables, &mut input, &mut output);
    end_program(&rt, "profile", status)
}
