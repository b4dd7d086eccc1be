//! What the commands share, each of which reads a snapshot whole and writes one answer: the words,
//! the source's bytes within a limit, what is answered where they are no snapshot, the sink's front
//! where a write fails, the status of the run, and what standard error says of it.
#![tactic(auto)]

mod answer;
mod answering;
mod arguments;
mod status;
mod streams;

pub use answer::{Answer, bad_line, fault_answer, read_input, silent_answer, text_answer};
pub use answering::write_answer;
pub use arguments::{Words, words_of};
pub use status::{Status, end_program};
pub use streams::{ReadFailure, read_all, write_all};
