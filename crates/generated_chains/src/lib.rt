//! Chains of calls that are made from a count and a seed, with tables that describe them.
//!
//! `outline` makes the functions of a chain in outline, `tables` the bytes that describe them,
//! `stack` the stack that their calls leave, and `chain` all of it. `laws` says what holds of them.
#![tactic(auto)]

mod chain;
mod laws;
mod outline;
mod spelled;
mod stack;
mod tables;

pub use chain::{Chain, chain_of};
pub use laws::{
    exception_is_caught, generated_case_is_valid, memory_holds_tables_and_stack,
    states_are_a_chain, tables_describe_functions,
};
pub use outline::{Handling, Kind, Outline, outlines};
pub use stack::{Registers, Stack, resumes, stack_of};
pub use tables::{FRAMES, HEADER, LANGUAGES, TEXT, frame_table, header_table, language_tables};
