//! The examples at the heads of the libraries, as a program. Each function below has the lines of one
//! of them, word for word, and prints what they find.
#![tactic(auto)]

mod call_frames;
mod compact;
mod folds;
mod reports;
mod runs;
mod samplers;
mod walks;
mod windows;

use anyhow::Result;

fn main(rt: HostRuntime) -> Result<()> {
    call_frames::print_row(&rt)?;
    runs::print_caller(&rt)?;
    walks::print_walk(&rt)?;
    samplers::print_samples(&rt)?;
    folds::print_stacks(&rt)?;
    reports::print_report(&rt)?;
    compact::print_opcode(&rt)?;
    windows::print_function(&rt)?;
    Ok(())
}
