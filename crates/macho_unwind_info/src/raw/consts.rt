//! The numbers that tell the kind of a page and the kind of an opcode.

/// The last page, whose first address is the end of the last function.
pub const PAGE_KIND_SENTINEL: u32 = 1;
/// A page whose entries hold an address and an opcode each.
pub const PAGE_KIND_REGULAR: u32 = 2;
/// A page whose entries hold a distance from the page's first address and the index of an opcode.
pub const PAGE_KIND_COMPRESSED: u32 = 3;

/// No unwind information, on every machine.
pub const OPCODE_KIND_NULL: u8 = 0;

/// x86 and x86-64: the frame pointer was pushed and set.
pub const OPCODE_KIND_X86_FRAMEBASED: u8 = 1;
/// x86 and x86-64: no frame pointer, and the opcode holds the size of the frame.
pub const OPCODE_KIND_X86_FRAMELESS_IMMEDIATE: u8 = 2;
/// x86 and x86-64: no frame pointer, and an instruction of the function holds the size.
pub const OPCODE_KIND_X86_FRAMELESS_INDIRECT: u8 = 3;
/// x86 and x86-64: an entry of `.eh_frame` describes the function.
pub const OPCODE_KIND_X86_DWARF: u8 = 4;

/// arm64: no frame pointer.
pub const OPCODE_KIND_ARM64_FRAMELESS: u8 = 2;
/// arm64: an entry of `.eh_frame` describes the function.
pub const OPCODE_KIND_ARM64_DWARF: u8 = 3;
/// arm64: the frame pointer and the link register were pushed.
pub const OPCODE_KIND_ARM64_FRAMEBASED: u8 = 4;
