//! Readers of the unwind data of PE images: the function table in `.pdata` and the unwind records
//! that it leads to. Nothing is copied and nothing is allocated.
//!
//! The table has a range for each function, with the place of its unwind record, but not for
//! leaves, which leave the stack pointer and all registers that a caller keeps as they are. A
//! record lists what the prologue does, each operation with the offset at which it has ended: so a
//! thread that was stopped in the prologue is unwound by those that are done. A part of a function
//! that does more has a record of its own, which is chained to the function's. Of epilogs a record
//! of version 1 says nothing: whether an address is in one is seen by the instructions there, which
//! can only be a few. One of version 2 says where they stand. And a record may name a handler,
//! whose data follow.
//!
//! The operations of the function at an address of an image, whose record's bytes are in `xdata`:
//!
//! ```rust
//! use pe_unwind_info::x86_64::{FunctionTableEntries, UnwindInfo};
//!
//! let table = FunctionTableEntries::parse(pdata);
//! if let Some(function) = table.lookup(0x1010) {
//!     println!(rt; "{function:?}")?;
//!     if let Some(info) = UnwindInfo::parse(xdata) {
//!         for operation in info.unwind_operations() {
//!             println!(rt; "{operation:?}")?;
//!         }
//!     }
//! }
//! ```
#![tactic(auto)]

pub mod x86_64;
