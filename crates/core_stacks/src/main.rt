//! Writes the walks of all threads of a core file, whose path is its last word, after `--names` with
//! the functions of their frames. The frame tables and the symbols are those of the files that the
//! core says were mapped. docs/FORMATS.md has the lines.
#![tactic(auto)]

mod asked;
mod lines;
mod parts;
mod running;
mod sample;
mod system;

use crate::running::run;
use crate::system::SystemFiles;
use command_ends::{Status, end_program, words_of};
use memory_image::StdoutSink;
use std::process::ExitCode;

fn main(rt: HostRuntime) -> ExitCode {
    let Ok(words) = words_of(&rt) else {
        return end_program(&rt, "core_stacks", Status::Memory);
    };
    let mut output = StdoutSink::new(rt.stdout());
    let files = SystemFiles::new(&rt);
    let status = run(rt.alloc(), &words, &files, &mut output);
    end_program(&rt, "core_stacks", status)
}
