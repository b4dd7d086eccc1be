//! Call frame information of ELF modules, read in place from the bytes of `.eh_frame`.
//!
//! [`EhFrame::fde_for_address`] finds the description of the function at an address, and
//! [`EhFrame::entries`] goes through all entries. A table is read from left to right, and the first
//! fault is reported.
//!
//! [`Fde::unwind_info_for_address`] runs its program, and gives the [`Row`] by which the caller of
//! the function's frame is found. [`Fde::make_row`] makes one row after another in a [`RowRoom`].
//!
//! A [`Prepared`] table is an index by address with the rows of all descriptions, in which a look-up
//! is a search.
//!
//! Entries are read in these forms: lengths of four and of eight bytes; common information entries
//! of the versions 1, 3 and 4, the last with addresses of eight bytes and no segments; no
//! augmentation, or a `z` and the letters `L`, `P`, `R` and `S` in any order; and pointers of any
//! encoding that isn't aligned, where the start of a function isn't indirect. Which instructions
//! their programs may have is told by the crate `frame_rows`.
//!
//! Source: LSB, section on `.eh_frame`; DWARF 5 section 6.4.
//!
//! The row at an address, by the bytes of a section that was loaded at 0x500000:
//!
//! ```rust
//! use eh_frame::{Bases, EhFrame};
//!
//! let table = EhFrame::new(section, 0x50_0000);
//! let bases = Bases::default();
//! let fde = table.fde_for_address(&bases, 0x40_1005)?;
//! let row = fde.unwind_info_for_address(&table, &bases, 0x40_1005)?;
//! println!(rt; "{:?}", row.cfa())?;
//! for (register, rule) in row.registers() {
//!     println!(rt; "{register:?} {rule:?}")?;
//! }
//! ```
#![tactic(auto)]

mod augmentation;
mod cie;
mod cie_cache;
mod entries;
mod fde;
mod fde_list;
mod header;
mod header_lists;
mod header_search;
mod indexed_fde;
mod known_cies;
mod laws;
mod listing;
mod prepared;
mod sorting;
mod starts;

pub use cie::Cie;
pub use encoded_pointers::{
    Bases, Cursor, DwEhPe, Pointer, parse_encoded_pointer, parse_pointer_encoding,
};
pub use entries::{EhFrame, Entry};
pub use fde::Fde;
pub use frame_expressions::{EvalError, evaluate};
pub use frame_rows::{
    CfaRule, Register, RegisterMap, RegisterRule, Registers, Row, RowRef, RowRoom, RowWalk,
};
pub use header::{EhFrameHdr, HdrTable};
pub use laws::{index_answers_as_a_scan, table_of_a_push_is_prepared};
pub use listing::Entries;
pub use prepared::{Found, Prepared, PreparedFrame};
pub use unwind_definitions::Error;
