//! How the operands of frame programs are read. DWARF 5 section 6.4.1.

use encoded_pointers::{Bases, DwEhPe};

/// What a common information entry says of the operands in its program and in those of the
/// descriptions that name it.
#[derive(Clone, Copy)]
pub struct Coding<'b> {
    /// The code alignment factor, in bytes: what advances are multiplied by.
    pub code_factor: u64,
    /// The data alignment factor, in bytes: what offsets are multiplied by. A word: one below 0
    /// counts from 2^64.
    pub data_factor: u64,
    /// How addresses are encoded.
    pub address: DwEhPe,
    /// What addresses may be relative to.
    pub bases: &'b Bases,
}
