//! What C++ functions ask of an exception.
//!
//! Their language tables have the call sites that those of other languages have. The index of a
//! site leads into a chain of action records, each of which names a type that a handler catches, a
//! list of types that an exception specification allows, or a cleanup.
//! Itanium C++ ABI, exception handling, level II, section 2.5.

pub mod actions;
pub mod error;
pub mod laws;
pub mod personality;
pub mod runtime;
pub mod table;
pub mod types;
