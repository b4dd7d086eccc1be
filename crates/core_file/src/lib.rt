//! A reader of ELF core files of x86-64, which a system writes of a program that it ends, or a debugger of one that runs:
//! the memory that the file has, the registers of each thread, and which files were mapped. The file's bytes are borrowed
//! and nothing is allocated.
//!
//! `CoreFile::parse` reads a file, `threads` gives the registers of each thread, and `add_to` puts the memory into an
//! image, over which each thread's stack is walked. `mapped_parts` says where parts of which files lay.
//! `CoreFront::parse` needs the first bytes of a file alone, as many as `front_size` says: it gives the threads, the parts
//! of files, and where the memory lies in the file, so that a caller reads the parts of it that it needs.
//!
//! Sources: the System V gABI for ELF headers, program headers and notes, and of Linux `struct elf_prstatus` for the
//! registers and `fill_files_note` for the files.
#![tactic(auto)]

mod errors;
mod file;
mod front;
mod header;
mod laws;
mod mapped;
mod notes;
mod places;
mod program_header;
mod segments;
mod status;
mod threads;

pub use errors::{AddError, CoreError};
pub use file::CoreFile;
pub use front::{CoreFront, front_size};
pub use mapped::{MappedPart, MappedParts, mapped_parts};
pub use places::{Places, SegmentPlace};
pub use segments::Segments;
pub use threads::Threads;
