//! What a pointer in call frame bytes may be relative to.

/// The addresses that a pointer in call frame bytes may be relative to, by its encoding.
///
/// A pointer that is relative to a base that isn't known can't be read. A pointer that is relative
/// to its own place needs no base.
/// Source: LSB, DWARF exception header encoding.
#[derive(Clone, Copy, Debug, Default, PartialEq, Eq)]
pub struct Bases {
    /// The address of the text, for `DW_EH_PE_textrel`.
    pub text: Option<u64>,
    /// The address of the data, for `DW_EH_PE_datarel`.
    pub data_base: Option<u64>,
    /// The start of the function that the pointer belongs to, for `DW_EH_PE_funcrel`.
    pub func: Option<u64>,
    /// The address of `.eh_frame_hdr`.
    pub hdr: Option<u64>,
    /// The address of `.eh_frame`.
    pub frame: Option<u64>,
}
