//! Where the language table of a function stands, when no call frame information says it.

use eh_frame::Bases;

/// Where the language table of a function stands. Compact unwinding and unwind records name it so.
///
/// Contracts see these three.
#[derive(Clone, Copy, Debug, PartialEq, Eq)]
pub struct Place {
    /// The address of the function's first byte.
    pub start: u64,
    /// The address of its language table, 0 where it has none.
    pub lsda: u64,
    /// What the table's pointers may be relative to. Those that are relative to the function count
    /// from `start`.
    pub bases: Bases,
}
