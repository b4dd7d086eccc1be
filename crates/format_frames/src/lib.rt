//! The step from a frame to its caller in modules whose unwind data is Apple's or Microsoft's, over
//! the registers of x86-64 and an image of memory.
//!
//! [`macho_step`] looks an address up in a section of compact unwinding and follows the opcode of
//! its function, [`pe_step`] leaves a frame by the unwind records of a PE module. The calls beside
//! them do the same in parts, for who asks between them where a frame's language table is. Nothing
//! is allocated, and no table is copied. Contracts say that both are the steps that
//! `format_definitions` defines, on every input.
#![tactic(auto)]

mod compact;
mod error;
mod handlers;
mod machine;
mod macho;
mod pe;
mod xmm;

pub use compact::{compact_step, opcode_step};
pub use error::FrameError;
pub use handlers::pe_place;
pub use machine::Stepped;
pub use macho::{
    MachoModule, macho_caller, macho_description, macho_function, macho_place, macho_step,
};
pub use pe::{PeModule, pe_caller, pe_functions, pe_step};
