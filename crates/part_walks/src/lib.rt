//! Laws of walks over a part of the memory, as functions with empty bodies: what stands in a
//! contract here is proved. Who has the frame tables of a process and a window of a thread's stack
//! can walk over these alone: a walk that meets nothing unmapped there is the walk over all of the
//! memory. `walks` has this law, `images` what makes an image a part of another one, `windows` the
//! law over the memory of a core file, and `sample` a stack that meets what the laws ask.
#![tactic(auto)]

mod images;
mod sample;
mod walks;
mod windows;

pub use images::images_are_built_as_parts;
pub use sample::{window_of_a_core_is_walked, window_of_a_stack_is_walked};
pub use walks::walk_over_a_part_is_that_over_the_whole;
pub use windows::core_may_be_walked_over_windows;
