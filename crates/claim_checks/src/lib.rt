//! Functions that a module is claimed to have, read from JSON, and what a check of them answers, as a
//! line of text. docs/FORMATS.md has what is read and the line.
#![tactic(auto)]

mod adding;
mod claimed;
mod functions;
mod lines;

pub use claimed::{ClaimedModule, ElfModule, read_claims};
pub use lines::verdict_line;
