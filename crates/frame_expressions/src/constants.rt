//! The names of the operations of expressions. DWARF 5 section 7.7.1, table 7.9.

/// `DW_OP_addr`: pushes an address of eight bytes.
pub(crate) const DW_OP_ADDR: u8 = 0x03;

/// `DW_OP_deref`: puts the word at an address in its place.
pub(crate) const DW_OP_DEREF: u8 = 0x06;

/// `DW_OP_const1u`: pushes a number that its operand spells.
pub(crate) const DW_OP_CONST1U: u8 = 0x08;

/// `DW_OP_const1s`: pushes a number that its operand spells.
pub(crate) const DW_OP_CONST1S: u8 = 0x09;

/// `DW_OP_const2u`: pushes a number that its operand spells.
pub(crate) const DW_OP_CONST2U: u8 = 0x0a;

/// `DW_OP_const2s`: pushes a number that its operand spells.
pub(crate) const DW_OP_CONST2S: u8 = 0x0b;

/// `DW_OP_const4u`: pushes a number that its operand spells.
pub(crate) const DW_OP_CONST4U: u8 = 0x0c;

/// `DW_OP_const4s`: pushes a number that its operand spells.
pub(crate) const DW_OP_CONST4S: u8 = 0x0d;

/// `DW_OP_const8u`: pushes a number that its operand spells.
pub(crate) const DW_OP_CONST8U: u8 = 0x0e;

/// `DW_OP_const8s`: pushes a number that its operand spells.
pub(crate) const DW_OP_CONST8S: u8 = 0x0f;

/// `DW_OP_constu`: pushes a number that its operand spells.
pub(crate) const DW_OP_CONSTU: u8 = 0x10;

/// `DW_OP_consts`: pushes a number that its operand spells.
pub(crate) const DW_OP_CONSTS: u8 = 0x11;

/// `DW_OP_dup`: moves words on the stack.
pub(crate) const DW_OP_DUP: u8 = 0x12;

/// `DW_OP_drop`: moves words on the stack.
pub(crate) const DW_OP_DROP: u8 = 0x13;

/// `DW_OP_over`: moves words on the stack.
pub(crate) const DW_OP_OVER: u8 = 0x14;

/// `DW_OP_pick`: moves words on the stack.
pub(crate) const DW_OP_PICK: u8 = 0x15;

/// `DW_OP_swap`: moves words on the stack.
pub(crate) const DW_OP_SWAP: u8 = 0x16;

/// `DW_OP_rot`: moves words on the stack.
pub(crate) const DW_OP_ROT: u8 = 0x17;

/// `DW_OP_abs`: puts what it makes of one word or of two in their place.
pub(crate) const DW_OP_ABS: u8 = 0x19;

/// `DW_OP_and`: puts what it makes of one word or of two in their place.
pub(crate) const DW_OP_AND: u8 = 0x1a;

/// `DW_OP_div`: puts what it makes of one word or of two in their place.
pub(crate) const DW_OP_DIV: u8 = 0x1b;

/// `DW_OP_minus`: puts what it makes of one word or of two in their place.
pub(crate) const DW_OP_MINUS: u8 = 0x1c;

/// `DW_OP_mod`: puts what it makes of one word or of two in their place.
pub(crate) const DW_OP_MOD: u8 = 0x1d;

/// `DW_OP_mul`: puts what it makes of one word or of two in their place.
pub(crate) const DW_OP_MUL: u8 = 0x1e;

/// `DW_OP_neg`: puts what it makes of one word or of two in their place.
pub(crate) const DW_OP_NEG: u8 = 0x1f;

/// `DW_OP_not`: puts what it makes of one word or of two in their place.
pub(crate) const DW_OP_NOT: u8 = 0x20;

/// `DW_OP_or`: puts what it makes of one word or of two in their place.
pub(crate) const DW_OP_OR: u8 = 0x21;

/// `DW_OP_plus`: puts what it makes of one word or of two in their place.
pub(crate) const DW_OP_PLUS: u8 = 0x22;

/// `DW_OP_plus_uconst`: puts what it makes of one word or of two in their place.
pub(crate) const DW_OP_PLUS_UCONST: u8 = 0x23;

/// `DW_OP_shl`: puts what it makes of one word or of two in their place.
pub(crate) const DW_OP_SHL: u8 = 0x24;

/// `DW_OP_shr`: puts what it makes of one word or of two in their place.
pub(crate) const DW_OP_SHR: u8 = 0x25;

/// `DW_OP_shra`: puts what it makes of one word or of two in their place.
pub(crate) const DW_OP_SHRA: u8 = 0x26;

/// `DW_OP_xor`: puts what it makes of one word or of two in their place.
pub(crate) const DW_OP_XOR: u8 = 0x27;

/// `DW_OP_bra`: goes on somewhere else where the top is not 0.
pub(crate) const DW_OP_BRA: u8 = 0x28;

/// `DW_OP_eq`: compares two signed words.
pub(crate) const DW_OP_EQ: u8 = 0x29;

/// `DW_OP_ge`: compares two signed words.
pub(crate) const DW_OP_GE: u8 = 0x2a;

/// `DW_OP_gt`: compares two signed words.
pub(crate) const DW_OP_GT: u8 = 0x2b;

/// `DW_OP_le`: compares two signed words.
pub(crate) const DW_OP_LE: u8 = 0x2c;

/// `DW_OP_lt`: compares two signed words.
pub(crate) const DW_OP_LT: u8 = 0x2d;

/// `DW_OP_ne`: compares two signed words.
pub(crate) const DW_OP_NE: u8 = 0x2e;

/// `DW_OP_lit0`: pushes 0; the next 31 push 1 to 31.
pub(crate) const DW_OP_LIT0: u8 = 0x30;

/// `DW_OP_breg0`: pushes register 0 plus a number; the next 31 are of registers 1 to 31.
pub(crate) const DW_OP_BREG0: u8 = 0x70;

/// `DW_OP_bregx`: pushes a register plus a number.
pub(crate) const DW_OP_BREGX: u8 = 0x92;

/// `DW_OP_deref_size`: puts the number of one to eight bytes at an address in its place.
pub(crate) const DW_OP_DEREF_SIZE: u8 = 0x94;

/// `DW_OP_nop`: does nothing.
pub(crate) const DW_OP_NOP: u8 = 0x96;
