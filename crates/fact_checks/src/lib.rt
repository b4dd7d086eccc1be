//! Whether the rows of an ELF module's frame table say what is claimed of ranges of its code.
//!
//! [`ClaimedFacts`] are a range of code and what is known throughout it, as machine code shows it:
//! how far the CFA lies above RSP or RBP, and where the caller's values of the callee-saved
//! registers are. [`audit`] looks at the row of each stretch of such a range, and lists those that
//! don't say it, each a [`Difference`] with its [`Mismatch`]. A claim is in no difference exactly
//! where the module's tables say it, and then the theorems on what is known at addresses hold there.
//!
//! Source: DWARF 5 section 6.4; System V x86-64 psABI for the registers; LSB, sections on
//! `.eh_frame` and `.eh_frame_hdr`.
#![tactic(auto)]

mod auditing;
mod facts;
mod order;
mod rows;
mod said;
mod samples;
mod stretches;
mod table;

pub use auditing::{AuditError, audit};
pub use facts::{ClaimedFacts, KnownRegister, KnownRegisters};
pub use rows::Mismatch;
pub use said::{SaidCfa, SaidRule};
pub use samples::{longer_claim_differs, program_says_claims};
pub use stretches::Difference;
