//! Finders: how the description of the function at an address is found.
//!
//! A finder ([`FDEFinder`]) answers the description of the function that holds an address: by a
//! module's frame table or the header of one, by the program headers of loaded objects, by frame
//! tables that are registered, or by all of these in turn. [`FDESearchResult::make_row`] makes the
//! row of what was found.
#![tactic(auto)]

mod custom;
mod find_fde;
mod fixed;
mod global;
mod gnu_eh_frame_hdr;
mod naming;
mod phdr;
mod registry;
mod tables;

pub use custom::{
    CustomFinder, EhFrameFinder, FrameInfo, FrameInfoKind, SetCustomEhFrameFinderError,
    find_by_tables,
};
pub use find_fde::{FDEFinder, FDESearchResult};
pub use fixed::StaticFinder;
pub use global::GlobalFinder;
pub use gnu_eh_frame_hdr::GnuHdrFinder;
pub use naming::{NamedTable, named_table};
pub use phdr::{Phdr, PhdrFinder, PhdrObject};
pub use registry::{Object, Registry};
