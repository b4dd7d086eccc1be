//! A reader of perf.data files, which Linux's `perf record` writes: the samples of a profile with
//! their registers and stacks, the mappings and the names of its processes, and the starts and ends
//! of their threads. The file's bytes are borrowed; nothing is copied, and nothing is allocated. From a
//! source of any length, `open_file` and `RecordReader` give the records one at a time.
//!
//! `PerfFile::parse` reads the header, and `records` gives the records one at a time, in the order of the file. Files of a
//! machine of the other byte order, compressed records and what perf writes to a pipe are refused by name; records of
//! types that aren't read are told by their type.
//!
//! Sources: Linux's `tools/perf/Documentation/perf.data-file-format.txt` for the header and the types of perf's own, its
//! `include/uapi/linux/perf_event.h` for attributes and records, and its `arch/x86/include/uapi/asm/perf_regs.h` for the
//! numbers of registers.
#![tactic(auto)]

mod errors;
mod file;
mod header;
mod laws;
mod layout;
mod mapping;
mod opening;
mod parts;
mod reader;
mod record;
mod records;
mod registers;
mod sample;
mod stream;
mod task;

pub use errors::PerfError;
pub use file::PerfFile;
pub use mapping::{Comm, MappedFile, Mapping};
pub use opening::{OpenFile, open_file};
pub use reader::RecordReader;
pub use record::Record;
pub use records::Records;
pub use registers::UserRegisters;
pub use sample::{Sample, Thread};
pub use stream::{StreamError, pass_source};
pub use task::Task;
