//! Delivers an exception over a stack that lies in an image of memory: the states that are visited,
//! the cleanups that run, and the landing at the handler.
//!
//! The frames of a stack, from memory that is at hand:
//!
//! ```rust
//! use memory_image::MemoryImage;
//! use stack_deliver::{Context, FrameInfo, FrameInfoKind, Space, walk};
//!
//! let mut image = MemoryImage::new(rt.alloc());
//! image.add(0x7000, &stack)?;
//! image.add(0x50_0000, &eh_frame)?;
//! let mut space = Space::new(rt.alloc(), image);
//! let kind = FrameInfoKind::EhFrame(0x50_0000);
//! space.add_elf(
//!     0x40_1000,
//!     0x40_1010,
//!     FrameInfo {
//!         text_base: None,
//!         kind,
//!     },
//! )?;
//! let start = Context {
//!     ra: 0x40_1006,
//!     registers,
//!     ..Context::default()
//! };
//! let visited = walk(rt.alloc(), &space, &start, true, 1_000)?;
//! for i in 0..visited.len() {
//!     if let Some(context) = visited.get(i) {
//!         println!(rt; "{:#x}", context.ra)?;
//!     }
//! }
//! ```
//!
//! `registers` are the 16 general ones in DWARF's order, in which RSP is the eighth:
//! `unwind_arch::x86_64` has a constant for each. Such a program has the line
//! `NAME: memory_image unwind_arch stack_deliver anyhow` in `crates.txt`.
//!
//! A sampler prepares the space once (`Space::prepare`) and walks each stack by `walk_to_end_into`,
//! into one `Room` and with `Steps::new(NoLedger)`, which counts nothing: that leaves the states up
//! to a fault and says which it is. `docs/LIBRARY.md` has its lines.
#![tactic(auto)]

mod delivery;
mod outcome;
mod passes;
mod resumes;

pub use delivery::{deliver, deliver_into, deliver_over, throw, throw_into};
pub use eh_frame::Error;
pub use fde_finders::{FrameInfo, FrameInfoKind};
pub use outcome::{Delivery, Ending, Outcome};
pub use resumes::{Resumes, first_entry_counts};
pub use stack_steps::{
    DeliverError, DescribedFunction, FrameCache, GrownSpace, Languages, MachoTables, MadeRows,
    Module, ModuleTables, PeTables, Space, SpaceError, Stepped, step,
};
pub use stack_walks::{
    EndReason, Room, RowRoom, Trail, Visited, each_reason_is_given, walk, walk_into,
    walk_to_end_cached, walk_to_end_into, walk_to_end_made, walk_with_rows,
};
pub use unwind_arch::x86_64::Context;
pub use unwinding_frames::{CxxRuntime, Exception, ExceptionKind};
