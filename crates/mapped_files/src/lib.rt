//! Files that were mapped, of which parts are read: what gives their bytes ([`Files`]), and what their
//! fronts say, the ELF header and the program headers ([`program_headers`]).
//!
//! Source: the System V gABI, chapters "Object Files" and "Program Loading and Dynamic Linking".
#![tactic(auto)]

mod files;
mod front;
mod laws;

pub use files::{Files, PartError};
pub use front::{FRONT_SIZE, program_headers};
