//! The columns of a register rule table.

/// A register by the number that call frame bytes give it.
///
/// Which register a number means is said by the machine's ABI: System V x86-64 psABI, figure 3.36.
#[derive(Clone, Copy, Debug, Default, PartialEq, Eq)]
pub struct Register(pub u16);
