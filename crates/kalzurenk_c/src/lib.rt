//! Walks of stacks and deliveries of exceptions for programs that call C functions: over memory that is
//! handed in, with nothing asked of the process that calls.
//!
//! `include/kalzurenk.h` declares the same for C.
#![tactic(auto)]

mod delivery;
mod given;
mod handle;
mod numbers;
mod outward;
mod refusal;
mod sample;
mod session;
mod session_calls;
mod session_delivery;
mod sizes;
mod told;
mod version;
mod walks;

pub use delivery::{Cleanup, DeliveryTold, ResumePair, Throw, kz_deliver};
pub use given::{GivenModule, Region, Registers, each_refusal_is_given};
pub use handle::{SessionHandle, SessionSlot};
pub use refusal::{Place, Refusal, refusals_are_told_apart};
pub use session::Session;
pub use session_calls::{kz_session_close, kz_session_open, kz_session_walk};
pub use session_delivery::kz_session_deliver;
pub use told::{StackFrame, WalkEnd, ends_are_told_apart};
pub use version::kz_version;
pub use walks::kz_walk;
