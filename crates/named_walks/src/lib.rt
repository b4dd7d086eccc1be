//! The walks of a core's threads as lines of text, as `core_walks` writes them, and at the end of
//! each frame's line the function in which the frame stands.
//!
//! ```text
//! frame 1 ra=0x7f31ee384fb2 sp=0x7ffd.. .. raise+0x12 in /usr/lib/x86_64-linux-gnu/libc.so.6
//! frame 2 ra=0x401155 sp=0x7ffd.. .. in /usr/bin/true+0x1155
//! ```
//!
//! After the name stands how far past the function's start the frame's address is. Where the file
//! has no symbol there, the line ends with the file and the address as the file counts; where no code
//! of a file lies there, with the registers. What is written of a walk is otherwise as `core_walks`
//! writes it.
#![tactic(auto)]

mod laws;
mod marking;
mod names;
mod parts;
mod walking;

pub use names::FrameNames;
pub use walking::{mapped_named_walks_of_threads, named_walks_of_threads};
