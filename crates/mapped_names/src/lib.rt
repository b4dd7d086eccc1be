//! The functions at addresses of files that were mapped, by the symbols of these files.
//!
//! [`Naming`] says where an address lies: in which file, at which address as that file counts, and in
//! which of its functions. Of each part that was mapped its file is read when the first address in the
//! part is asked, and what was read is kept with the part.
//!
//! Source: the System V gABI, chapters "Program Loading and Dynamic Linking" and "Symbol Table".
#![tactic(auto)]

mod naming;
mod places;
mod reading;

pub use naming::Naming;
pub use places::{CodePlace, NamedFunction};
