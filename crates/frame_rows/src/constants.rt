//! The names of the instructions of frame programs. DWARF 5 section 7.24, table 7.29.
//!
//! An instruction is its first byte and what operands follow. The two high bits of the byte name one
//! of three instructions that have an operand in the six low bits. Where they are 0 the six low bits
//! name the instruction.

/// The two high bits of `DW_CFA_advance_loc`: raises the location by the low bits.
pub const DW_CFA_ADVANCE_LOC: u8 = 0x1;

/// The two high bits of `DW_CFA_offset`: the register of the low bits is saved at an offset from the
/// CFA.
pub const DW_CFA_OFFSET: u8 = 0x2;

/// The two high bits of `DW_CFA_restore`: the register of the low bits gets its initial rule back.
pub const DW_CFA_RESTORE: u8 = 0x3;

/// `DW_CFA_nop`: does nothing.
pub const DW_CFA_NOP: u8 = 0x00;

/// `DW_CFA_set_loc`: sets the location to an address.
pub const DW_CFA_SET_LOC: u8 = 0x01;

/// `DW_CFA_advance_loc1`: raises the location by an operand of one byte.
pub const DW_CFA_ADVANCE_LOC1: u8 = 0x02;

/// `DW_CFA_advance_loc2`: by one of two bytes.
pub const DW_CFA_ADVANCE_LOC2: u8 = 0x03;

/// `DW_CFA_advance_loc4`: by one of four bytes.
pub const DW_CFA_ADVANCE_LOC4: u8 = 0x04;

/// `DW_CFA_offset_extended`: a register is saved at an offset from the CFA.
pub const DW_CFA_OFFSET_EXTENDED: u8 = 0x05;

/// `DW_CFA_restore_extended`: a register gets its initial rule back.
pub const DW_CFA_RESTORE_EXTENDED: u8 = 0x06;

/// `DW_CFA_undefined`: a register's value isn't known.
pub const DW_CFA_UNDEFINED: u8 = 0x07;

/// `DW_CFA_same_value`: a register keeps its value.
pub const DW_CFA_SAME_VALUE: u8 = 0x08;

/// `DW_CFA_register`: a register is found in another one.
pub const DW_CFA_REGISTER: u8 = 0x09;

/// `DW_CFA_remember_state`: remembers the row.
pub const DW_CFA_REMEMBER_STATE: u8 = 0x0a;

/// `DW_CFA_restore_state`: restores the row that was remembered.
pub const DW_CFA_RESTORE_STATE: u8 = 0x0b;

/// `DW_CFA_def_cfa`: the CFA is a register plus an offset.
pub const DW_CFA_DEF_CFA: u8 = 0x0c;

/// `DW_CFA_def_cfa_register`: changes the CFA's register.
pub const DW_CFA_DEF_CFA_REGISTER: u8 = 0x0d;

/// `DW_CFA_def_cfa_offset`: changes the CFA's offset.
pub const DW_CFA_DEF_CFA_OFFSET: u8 = 0x0e;

/// `DW_CFA_def_cfa_expression`: the CFA is an expression's value.
pub const DW_CFA_DEF_CFA_EXPRESSION: u8 = 0x0f;

/// `DW_CFA_expression`: a register is saved at an expression's value.
pub const DW_CFA_EXPRESSION: u8 = 0x10;

/// `DW_CFA_offset_extended_sf`: as `DW_CFA_OFFSET_EXTENDED`, with a signed offset.
pub const DW_CFA_OFFSET_EXTENDED_SF: u8 = 0x11;

/// `DW_CFA_def_cfa_sf`: as `DW_CFA_DEF_CFA`, with a signed offset in data units.
pub const DW_CFA_DEF_CFA_SF: u8 = 0x12;

/// `DW_CFA_def_cfa_offset_sf`: as `DW_CFA_DEF_CFA_OFFSET`, with a signed offset in data units.
pub const DW_CFA_DEF_CFA_OFFSET_SF: u8 = 0x13;

/// `DW_CFA_val_offset`: a register's value is the CFA plus an offset.
pub const DW_CFA_VAL_OFFSET: u8 = 0x14;

/// `DW_CFA_val_offset_sf`: the same with a signed offset.
pub const DW_CFA_VAL_OFFSET_SF: u8 = 0x15;

/// `DW_CFA_val_expression`: a register's value is an expression's.
pub const DW_CFA_VAL_EXPRESSION: u8 = 0x16;

/// `DW_CFA_GNU_args_size`: the size of the arguments on the stack.
pub const DW_CFA_GNU_ARGS_SIZE: u8 = 0x2e;
