//! The bytes that say how a pointer is encoded: a format, an application, and one mark. LSB, section on
//! DWARF exception header encoding.

/// `DW_EH_PE_absptr`: a word that is the number itself.
pub const DW_EH_PE_ABSPTR: u8 = 0x00;

/// `DW_EH_PE_uleb128`: an unsigned LEB128 number.
pub const DW_EH_PE_ULEB128: u8 = 0x01;

/// `DW_EH_PE_udata2`: two bytes.
pub const DW_EH_PE_UDATA2: u8 = 0x02;

/// `DW_EH_PE_udata4`: four bytes.
pub const DW_EH_PE_UDATA4: u8 = 0x03;

/// `DW_EH_PE_udata8`: eight bytes.
pub const DW_EH_PE_UDATA8: u8 = 0x04;

/// `DW_EH_PE_sleb128`: a signed LEB128 number.
pub const DW_EH_PE_SLEB128: u8 = 0x09;

/// `DW_EH_PE_sdata2`: two bytes, signed.
pub const DW_EH_PE_SDATA2: u8 = 0x0a;

/// `DW_EH_PE_sdata4`: four bytes, signed.
pub const DW_EH_PE_SDATA4: u8 = 0x0b;

/// `DW_EH_PE_sdata8`: eight bytes, signed.
pub const DW_EH_PE_SDATA8: u8 = 0x0c;

/// `DW_EH_PE_pcrel`: relative to the pointer's own place.
pub const DW_EH_PE_PCREL: u8 = 0x10;

/// `DW_EH_PE_textrel`: relative to the text.
pub const DW_EH_PE_TEXTREL: u8 = 0x20;

/// `DW_EH_PE_datarel`: relative to the data.
pub const DW_EH_PE_DATAREL: u8 = 0x30;

/// `DW_EH_PE_funcrel`: relative to the function.
pub const DW_EH_PE_FUNCREL: u8 = 0x40;

/// `DW_EH_PE_aligned`: a word at an aligned place.
pub const DW_EH_PE_ALIGNED: u8 = 0x50;

/// `DW_EH_PE_indirect`: the value is the address of the pointer.
pub const DW_EH_PE_INDIRECT: u8 = 0x80;

/// `DW_EH_PE_omit`: there is no pointer.
pub const DW_EH_PE_OMIT: u8 = 0xff;
