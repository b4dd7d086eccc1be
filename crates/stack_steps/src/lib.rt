//! The step from a frame to its caller, in a stack that lies in an image of memory: the modules that
//! the image holds, the indexes of their frame tables, the frame at a state, and its caller.
#![tactic(auto)]

mod asking;
mod elf;
mod error;
mod frame_cache;
mod frames;
mod functions;
mod grown;
mod languages;
mod laws;
mod macho;
mod made_rows;
mod pe;
mod prepared;
mod shared_table;
mod space;
mod stepping;
mod stops;

pub use asking::{FrameAction, frame_asks};
pub use elf::SearchedFrame;
pub use error::DeliverError;
pub use format_frames::Stepped;
pub use frame_cache::FrameCache;
pub use frames::FoundFrame;
pub use functions::DescribedFunction;
pub use grown::{GrownSpace, an_image_grows};
pub use languages::Languages;
pub use laws::{
    a_frame_is_that_of_the_described_function, a_module_is_prepared, rust_alone_asks_by_rust,
};
pub use macho::CompactFrame;
pub use made_rows::MadeRows;
pub use pe::RecordedFrame;
pub use prepared::PreparedTable;
pub use space::{AddedModule, MachoTables, Module, ModuleTables, PeTables, Space, SpaceError};
pub use stepping::{Stepper, step};
pub use stops::{
    calls_and_stops_in_formats_are_described, stops_after_each_step_are_described,
    walks_from_stops_are_described,
};
