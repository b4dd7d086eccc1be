//! The walk of a stack whose thread was interrupted in an epilogue, after registers were popped.
//!
//! A row mostly goes on to say that a popped register lies in its slot, below the stack pointer.
//! Where that isn't mapped, as in a copy of the stack from its pointer on, the step to the caller is
//! refused ([`step`](stack_steps::step)). [`walk_interrupted`] then takes for the caller's what the
//! register holds, goes on, and says that it did. It is right where the slot was given up, and not
//! of a function that keeps a register below its stack pointer and changes it, nor of RAX and RDX
//! where they hold a result: so its answer is marked.
#![tactic(auto)]

mod popped;
mod sample;
mod walks;

pub use sample::{a_popped_register_is_kept, a_register_popped_from_an_expressions_slot_is_kept};
pub use walks::{KeptWalk, walk_interrupted, walk_interrupted_cached};
