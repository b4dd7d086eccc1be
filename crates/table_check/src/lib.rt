//! Whether an ELF module's tables describe functions that somebody claims the module has, and if
//! they don't, the first reason why.
//!
//! [`Claims`] list functions as a compiler knows them: their ranges, their prologues, their bodies
//! and their call sites. [`check`] answers `Yes` exactly where they ascend and a module's tables
//! describe them, and else the first [`Reason`] why not; what it calls a description is what the
//! theorems on walks and deliveries ask of a module. [`refusal_of_ranges`] is the part of it that
//! looks at claims, entries and ranges alone.
//!
//! Source: LSB, sections on `.eh_frame` and `.eh_frame_hdr`; DWARF 5 section 6.4; Itanium C++ ABI,
//! exception handling tables.
#![tactic(auto)]

mod cies;
mod claims;
mod descriptions;
mod entries;
mod extras;
mod findings;
mod frame_rules;
mod functions;
mod header_tables;
mod language;
mod marks;
mod programs;
mod prologue;
mod ranges;
mod reason;
mod rows;
mod running;
mod verdict;

pub use claims::{AddressRange, ClaimStep, ClaimedSite, ClaimedStep, Claims};
pub use eh_frame::Register;
pub use fde_finders::{FrameInfo, FrameInfoKind};
pub use reason::{Reason, refusal_of_claims, refusal_of_ranges};
pub use unwinding_frames::EhAction;
pub use verdict::{Verdict, check, one_push_is_described};
