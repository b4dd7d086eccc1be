//! The modules of a core file: of the files that were mapped as its process ended, which parts are
//! code, and where their frame tables lie. The files are read in parts: of each its front, which has
//! the program headers, and the segment that has the frame table.
//!
//! `loaded_modules` reads them, and `space_of_core` makes of them and of the core's memory what its
//! threads are walked over. Who has other memory takes its parts: `image_of_tables`, `add_region` and
//! `space_over`.
//!
//! Sources: the System V gABI for ELF headers and program headers, and the LSB for `PT_GNU_EH_FRAME`.
#![tactic(auto)]

mod laws;
mod loading;
mod places;
mod spaces;

pub use loading::{LoadedModule, loaded_modules};
pub use mapped_files::{Files, PartError};
pub use spaces::{add_region, image_of_tables, space_of_core, space_over};
