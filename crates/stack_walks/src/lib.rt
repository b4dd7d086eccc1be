//! The way outwards over a stack that lies in an image of memory: the states from the innermost frame
//! on, how far they go and why no further, and place for them.
//!
//! Users take these by `stack_deliver`, which goes the same way for its passes.
#![tactic(auto)]

mod room;
mod unwind;
mod walk_end;
mod walking;

pub use eh_frame::RowRoom;
pub use room::{Room, Trail};
pub use unwind::{Pass, Phase, Stop, mark_of, unwind_frames, unwind_frames_over};
pub use walk_end::{
    EndReason, a_walk_ends_for_one_reason, each_reason_is_given, unframed_end, walk_to_end_cached,
    walk_to_end_into, walk_to_end_made, walk_to_end_over,
};
pub use walking::{Visited, walk, walk_into, walk_with_rows};
