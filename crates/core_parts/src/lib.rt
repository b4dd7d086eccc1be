//! A core file of which parts are read: what its threads are walked over where their stacks are read,
//! and not all of its memory.
//!
//! The front of the file says where its memory lies ([`core_file::CoreFront`]). Of the segment that holds
//! a thread's stack pointer a window is read ([`stack_parts`], [`read_windows`]), and the threads are
//! walked over the windows and the modules' tables ([`space_of_windows`]). Where the segments of memory
//! ascend and each module's tables are found in its file ([`has_walkable_parts`]), a walk that meets
//! nothing unmapped is the walk over all of the core's memory ([`walks_over_parts_are_those_over_all`]).
#![tactic(auto)]

mod laws;
mod places;
mod sample;
mod spaces;
mod windows;

pub use laws::walks_over_parts_are_those_over_all;
pub use places::{has_walkable_parts, stack_parts};
pub use sample::a_core_has_walkable_parts;
pub use spaces::space_of_windows;
pub use windows::{Window, read_windows};
