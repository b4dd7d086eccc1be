//! Reading the bytes of call frame information from left to right: numbers, and pointers by their
//! encodings.
//!
//! [`Cursor`] reads, and stays where it is when it can't. [`parse_pointer_encoding`] reads how a
//! pointer is encoded, and [`parse_encoded_pointer`] the pointer, which may be relative to one of
//! its [`Bases`]. [`constants`] names the encodings' bytes.
//!
//! Source: DWARF 5 section 7 for numbers, 7.6 for LEB128; LSB, DWARF exception header encoding.
#![tactic(auto)]

mod bases;
pub mod constants;
mod cursor;
mod encoding;
mod pointer;

pub use bases::Bases;
pub use cursor::Cursor;
pub use encoding::{DwEhPe, parse_pointer_encoding};
pub use pointer::{Pointer, parse_direct_pointer, parse_encoded_pointer, read_value};
pub use unwind_definitions::Error;
