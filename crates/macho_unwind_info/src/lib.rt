//! A reader of Apple's compact unwinding, which a Mach-O file holds in its section `__unwind_info`.
//!
//! A profiler looks up the opcode of an address, and the opcode says how the caller's registers are
//! found. A section may hold any bytes: each call returns, and what can't be read is an error. The
//! section's bytes are borrowed, records are read where they lie, and nothing is allocated.
//!
//! An opcode has 32 bits, and speaks of a function's body. On x86 and x86-64 it says by the frame
//! pointer which registers lie below it, or by the stack pointer how large the frame is; a size
//! that is too large for the opcode is read from an instruction of the function. On arm64 it says
//! which pairs of registers lie below the frame pointer, or the size of a frame whose return
//! address is still in its register. Where a function can't be said so, its opcode has the offset
//! of a description in `__eh_frame`, which is read as call frame information. Of prologues and
//! epilogues no opcode speaks: whoever stops a thread there has to look at the code. Linkers make
//! one entry of neighbours with the same opcode, so its range may be that of several functions.
//!
//! ```rust
//! use macho_unwind_info::UnwindInfo;
//! use macho_unwind_info::opcodes::OpcodeX86_64;
//!
//! let info = UnwindInfo::parse(section)?;
//! if let Some(function) = info.lookup(0x2010)? {
//!     let opcode = OpcodeX86_64::parse(function.opcode);
//!     println!(rt; "{:#x} {opcode}", function.start_address)?;
//! }
//! ```
#![tactic(auto)]

mod error;
mod function;
mod function_iter;
pub mod laws;
mod num_display;
mod page;
mod reader;
mod search;
mod unwind_info;
/// What opcodes mean, by machine.
pub mod opcodes;
/// The records of a section, as they lie in its bytes.
pub mod raw;

pub use error::{Error, ReadError};
pub use function::Function;
pub use function_iter::FunctionIter;
pub use num_display::{BinNum, HexNum};
pub use unwind_info::UnwindInfo;
