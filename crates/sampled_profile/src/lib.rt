//! The stacks of a profile: each sample of a perf.data file is walked over the tables of its process
//! and the copy of its thread's stack, and each distinct stack of functions is written once, with the
//! number of the samples that show it. Or the samples are written one after another, in the text form of
//! `perf script`.
//!
//! Nothing of the tables is copied for a sample, and in a profile no memory is taken for one whose
//! stack was shown before. Most texts of frames are written once. A stack that goes on where nothing is
//! known, as after the end of the copy, is written as far as it is known, and why there is no more.
#![tactic(auto)]

mod counts;
mod frame_texts;
mod laws;
mod lines;
mod names;
mod profile;
mod records;
mod script;
mod stack_end;
mod stack_table;
mod streamed;
mod text_counts;
mod texts;
mod walks;

pub use laws::{
    a_reason_tells_the_end, profiles_stay_as_modules_are_prepared,
    scripts_stay_as_modules_are_prepared,
};
pub use profile::{Profile, ProfileError, profile_of};
pub use script::script_of;
pub use stack_end::StackEnd;
pub use streamed::{profile_of_source, script_of_source};
