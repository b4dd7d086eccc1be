//! The values of expressions: operations on a stack of words, by which call frame information finds
//! a frame's address or where a register was saved.
//!
//! [`evaluate`] runs an expression over the registers of a frame and an image of memory. It takes
//! no memory of its own, and ends after 10,000 operations and one more for each byte.
//!
//! Source: DWARF 5 sections 2.5 and 7.7.1.
#![tactic(auto)]

mod constants;
mod error;
mod evaluation;
mod laws;
mod operation;
mod perform;
mod reading;
mod stack;
mod words;

pub use error::EvalError;
pub use evaluation::evaluate;
pub use laws::{
    answer_is_that_of_a_run, fault_names_what_is_unmapped, loop_is_endless, sum_has_a_value,
    unmapped_word_is_a_fault,
};
pub use unwind_definitions::Error;
