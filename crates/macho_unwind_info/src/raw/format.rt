// The records of a section, as they lie in its bytes.
ghost use Rattle.std.specs.Prelude.{◌≡◌, ◌+◌, ◌≤◌, length};
ghost use Rattle.macho_unwind_info.specs.Unaligned.{u32_at, u16_at};

use super::unaligned::{U16, U32};
use crate::num_display::HexNum;
use memory_image::Record;
use std::fmt;

/// The header, at the section's start. Offsets count from the start of the section, in bytes.
#[derive(Clone, Copy, Debug)]
pub struct CompactUnwindInfoHeader {
    /// The version, which is 1.
    pub version: U32,
    /// Where the opcodes lie that all compressed pages share.
    pub global_opcodes_offset: U32,
    /// How many global opcodes there are.
    pub global_opcodes_len: U32,
    /// Where the addresses of the personality pointers lie.
    pub personalities_offset: U32,
    /// How many personalities there are.
    pub personalities_len: U32,
    /// Where the list of pages lies.
    pub pages_offset: U32,
    /// How many pages there are, the sentinel included.
    pub pages_len: U32,
}

/// A page's place in the list of pages.
#[derive(Clone, Copy)]
pub struct PageEntry {
    /// The first address that the page covers, relative to the module's base.
    pub first_address: U32,
    /// Where the page lies, in bytes from the start of the section.
    pub page_offset: U32,
    /// Where the page's part of the list of language tables begins, in bytes from the start of
    /// the section.
    pub lsda_index_offset: U32,
}

/// The header of a regular page. Offsets count from the start of the page, in bytes.
#[derive(Clone, Copy, Debug)]
pub struct RegularPage {
    /// The kind, which is 2.
    pub kind: U32,
    /// Where the entries lie.
    pub functions_offset: U16,
    /// How many entries there are.
    pub functions_len: U16,
}

/// The header of a compressed page. Offsets count from the start of the page, in bytes.
#[derive(Clone, Copy, Debug)]
pub struct CompressedPage {
    /// The kind, which is 3.
    pub kind: U32,
    /// Where the entries lie.
    pub functions_offset: U16,
    /// How many entries there are.
    pub functions_len: U16,
    /// Where the page's own opcodes lie.
    pub local_opcodes_offset: U16,
    /// How many opcodes of its own the page has.
    pub local_opcodes_len: U16,
}

/// An opcode: how a function's frame is undone. Its bits mean different things on different
/// machines.
#[derive(Clone, Copy, Debug)]
pub struct Opcode(pub U32);

/// An entry of a regular page.
#[derive(Clone, Copy, Debug)]
pub struct RegularFunctionEntry {
    /// Where the function begins, relative to the module's base.
    pub address: U32,
    /// The function's opcode.
    pub opcode: Opcode,
}

/// An entry of the list of language tables.
#[derive(Clone, Copy, Debug)]
pub struct LsdaEntry {
    /// Where the function begins, relative to the module's base.
    pub address: U32,
    /// Where its language table lies, relative to the module's base.
    pub lsda_offset: U32,
}

impl fmt::Debug for PageEntry {
    fn fmt<W: fmt::Write>(&self, f: &mut fmt::Formatter<W>) -> fmt::Result {
        f.debug_struct("PageEntry")
            .field("first_address", &HexNum(self.first_address()))
            .field("page_offset", &HexNum(self.page_offset()))
            .field("lsda_index_offset", &HexNum(self.lsda_index_offset()))
            .finish()
    }
}

/// The four bytes at an offset.
fn u32_at(bytes: &[u8], offset: usize) -> U32
    requires { offset + 4 ≤ length bytes.now }
    ensures { result ≡ u32_at offset bytes.now }
{
    U32::read(&bytes[offset..])
}

/// The two bytes at an offset.
fn u16_at(bytes: &[u8], offset: usize) -> U16
    requires { offset + 2 ≤ length bytes.now }
    ensures { result ≡ u16_at offset bytes.now }
{
    U16::read(&bytes[offset..])
}

impl Record for CompactUnwindInfoHeader {
    ghost use Rattle.macho_unwind_info.specs.Format.{header_in, header_keeps_all};
    ghost use Rattle.std.proofs.Common.{lit≤};

    const SIZE: usize = 28;

    ghost SIZE = { 28 };

    ghost value_of = { header_in };

    fn read(bytes: &[u8]) -> CompactUnwindInfoHeader {
        CompactUnwindInfoHeader {
            version: u32_at(bytes, 0),
            global_opcodes_offset: u32_at(bytes, 4),
            global_opcodes_len: u32_at(bytes, 8),
            personalities_offset: u32_at(bytes, 12),
            personalities_len: u32_at(bytes, 16),
            pages_offset: u32_at(bytes, 20),
            pages_len: u32_at(bytes, 24),
        }
    }

    ghost has_size = { lit≤ tt };

    ghost keeps_all = { header_keeps_all };
}

impl Record for PageEntry {
    ghost use Rattle.macho_unwind_info.specs.Format.{page_entry_in, page_entry_keeps_all};
    ghost use Rattle.std.proofs.Common.{lit≤};

    const SIZE: usize = 12;

    ghost SIZE = { 12 };

    ghost value_of = { page_entry_in };

    fn read(bytes: &[u8]) -> PageEntry {
        PageEntry {
            first_address: u32_at(bytes, 0),
            page_offset: u32_at(bytes, 4),
            lsda_index_offset: u32_at(bytes, 8),
        }
    }

    ghost has_size = { lit≤ tt };

    ghost keeps_all = { page_entry_keeps_all };
}

impl Record for RegularPage {
    ghost use Rattle.macho_unwind_info.specs.Format.{regular_page_in, regular_page_keeps_all};
    ghost use Rattle.std.proofs.Common.{lit≤};

    const SIZE: usize = 8;

    ghost SIZE = { 8 };

    ghost value_of = { regular_page_in };

    fn read(bytes: &[u8]) -> RegularPage {
        RegularPage {
            kind: u32_at(bytes, 0),
            functions_offset: u16_at(bytes, 4),
            functions_len: u16_at(bytes, 6),
        }
    }

    ghost has_size = { lit≤ tt };

    ghost keeps_all = { regular_page_keeps_all };
}

impl Record for CompressedPage {
    ghost use Rattle.macho_unwind_info.specs.Format.{compressed_page_in, compressed_page_keeps_all};
    ghost use Rattle.std.proofs.Common.{lit≤};

    const SIZE: usize = 12;

    ghost SIZE = { 12 };

    ghost value_of = { compressed_page_in };

    fn read(bytes: &[u8]) -> CompressedPage {
        CompressedPage {
            kind: u32_at(bytes, 0),
            functions_offset: u16_at(bytes, 4),
            functions_len: u16_at(bytes, 6),
            local_opcodes_offset: u16_at(bytes, 8),
            local_opcodes_len: u16_at(bytes, 10),
        }
    }

    ghost has_size = { lit≤ tt };

    ghost keeps_all = { compressed_page_keeps_all };
}

impl Record for Opcode {
    ghost use Rattle.macho_unwind_info.specs.Format.{opcode_in, opcode_keeps_all};
    ghost use Rattle.std.proofs.Common.{lit≤};

    const SIZE: usize = 4;

    ghost SIZE = { 4 };

    ghost value_of = { opcode_in };

    fn read(bytes: &[u8]) -> Opcode {
        Opcode(U32::read(bytes))
    }

    ghost has_size = { lit≤ tt };

    ghost keeps_all = { opcode_keeps_all };
}

impl Record for RegularFunctionEntry {
    ghost use Rattle.macho_unwind_info.specs.Format.{function_entry_in, function_entry_keeps_all};
    ghost use Rattle.std.proofs.Common.{lit≤};

    const SIZE: usize = 8;

    ghost SIZE = { 8 };

    ghost value_of = { function_entry_in };

    fn read(bytes: &[u8]) -> RegularFunctionEntry {
        RegularFunctionEntry {
            address: u32_at(bytes, 0),
            opcode: Opcode(u32_at(bytes, 4)),
        }
    }

    ghost has_size = { lit≤ tt };

    ghost keeps_all = { function_entry_keeps_all };
}

impl Record for LsdaEntry {
    ghost use Rattle.macho_unwind_info.specs.Format.{lsda_entry_in, lsda_entry_keeps_all};
    ghost use Rattle.std.proofs.Common.{lit≤};

    const SIZE: usize = 8;

    ghost SIZE = { 8 };

    ghost value_of = { lsda_entry_in };

    fn read(bytes: &[u8]) -> LsdaEntry {
        LsdaEntry {
            address: u32_at(bytes, 0),
            lsda_offset: u32_at(bytes, 4),
        }
    }

    ghost has_size = { lit≤ tt };

    ghost keeps_all = { lsda_entry_keeps_all };
}
