// Where the parts of a section lie.
ghost use Rattle.std.specs.Prelude.{◌≡◌};
ghost use Rattle.macho_unwind_info.specs.Unaligned.{u32_number, u16_number};
ghost use Rattle.macho_unwind_info.specs.Parts.{header_of, global_opcodes_of, pages_of, kind_of};
ghost use Rattle.macho_unwind_info.specs.Parts.{regular_page_of, regular_functions_of};
ghost use Rattle.macho_unwind_info.specs.Parts.{compressed_page_of, compressed_functions_of};
ghost use Rattle.macho_unwind_info.specs.Parts.{local_opcodes_of};
ghost use Rattle.macho_unwind_info.specs.Parts.{personality_array_of, lsda_entries_between};
ghost use Rattle.macho_unwind_info.specs.Parts.{lsda_entries_of};

use super::format::{
    CompactUnwindInfoHeader, CompressedPage, LsdaEntry, Opcode, PageEntry, RegularFunctionEntry,
    RegularPage,
};
use super::unaligned::U32;
use crate::error::ReadError;
use crate::reader::{read_at, read_slice_at};
use memory_image::Records;

impl CompactUnwindInfoHeader {
    /// The header at the start of a section's bytes.
    ///
    /// Errors: `Header` where fewer than 28 bytes are there.
    pub fn parse(bytes: &[u8]) -> Result<Self, ReadError>
        ensures { result ≡ header_of bytes.now }
    {
        read_at(bytes, 0).ok_or(ReadError::Header)
    }

    /// Where the global opcodes lie, in bytes from the start of the section.
    pub fn global_opcodes_offset(&self) -> u32
        ensures { result ≡ u32_number self.now.global_opcodes_offset }
    {
        self.global_opcodes_offset.into()
    }

    /// How many global opcodes there are.
    pub fn global_opcodes_len(&self) -> u32
        ensures { result ≡ u32_number self.now.global_opcodes_len }
    {
        self.global_opcodes_len.into()
    }

    /// Where the list of personalities lies, in bytes from the start of the section.
    pub fn personalities_offset(&self) -> u32
        ensures { result ≡ u32_number self.now.personalities_offset }
    {
        self.personalities_offset.into()
    }

    /// How many personalities there are.
    pub fn personalities_len(&self) -> u32
        ensures { result ≡ u32_number self.now.personalities_len }
    {
        self.personalities_len.into()
    }

    /// Where the list of pages lies, in bytes from the start of the section.
    pub fn pages_offset(&self) -> u32
        ensures { result ≡ u32_number self.now.pages_offset }
    {
        self.pages_offset.into()
    }

    /// How many pages there are, the sentinel included.
    pub fn pages_len(&self) -> u32
        ensures { result ≡ u32_number self.now.pages_len }
    {
        self.pages_len.into()
    }

    /// The opcodes that all compressed pages share.
    ///
    /// Errors: `GlobalOpcodes` where they don't fit in the section's bytes.
    pub fn global_opcodes<'d>(&self, bytes: &'d [u8]) -> Result<Records<'d, Opcode>, ReadError>
        ensures { result ≡ global_opcodes_of self.now bytes.now }
    {
        let count = self.global_opcodes_len() as usize;
        read_slice_at(bytes, u64::from(self.global_opcodes_offset()), count).ok_or(
            ReadError::GlobalOpcodes,
        )
    }

    /// The list of personalities: each is the address, relative to the module's base, of the
    /// pointer to a personality routine.
    ///
    /// Errors: `Personalities` where they don't fit in the section's bytes.
    pub fn personalities<'d>(&self, bytes: &'d [u8]) -> Result<Records<'d, U32>, ReadError>
        ensures { result ≡ personality_array_of self.now bytes.now }
    {
        let count = self.personalities_len() as usize;
        read_slice_at(bytes, u64::from(self.personalities_offset()), count).ok_or(
            ReadError::Personalities,
        )
    }

    /// The list of pages. The last one is the sentinel, whose first address ends the section's
    /// range.
    ///
    /// Errors: `Pages` where they don't fit in the section's bytes.
    pub fn pages<'d>(&self, bytes: &'d [u8]) -> Result<Records<'d, PageEntry>, ReadError>
        ensures { result ≡ pages_of self.now bytes.now }
    {
        let count = self.pages_len() as usize;
        read_slice_at(bytes, u64::from(self.pages_offset()), count).ok_or(ReadError::Pages)
    }
}

impl PageEntry {
    /// The first address that the page covers, relative to the module's base.
    pub fn first_address(&self) -> u32
        ensures { result ≡ u32_number self.now.first_address }
    {
        self.first_address.into()
    }

    /// Where the page lies, in bytes from the start of the section.
    pub fn page_offset(&self) -> u32
        ensures { result ≡ u32_number self.now.page_offset }
    {
        self.page_offset.into()
    }

    /// Where the page's part of the list of language tables begins, in bytes from the start of
    /// the section.
    pub fn lsda_index_offset(&self) -> u32
        ensures { result ≡ u32_number self.now.lsda_index_offset }
    {
        self.lsda_index_offset.into()
    }

    /// The page's part of the list of language tables, which ends where the next page's part
    /// begins.
    ///
    /// Errors: `Lsda` where it ends before it begins, its length is no multiple of 8, or it doesn't
    /// fit in the section's bytes.
    pub fn lsda_entries<'d>(
        &self,
        bytes: &'d [u8],
        next: &PageEntry,
    ) -> Result<Records<'d, LsdaEntry>, ReadError>
        ensures { result ≡ lsda_entries_of self.now next.now bytes.now }
    {
        lsda_entries_between(bytes, self.lsda_index_offset(), next.lsda_index_offset())
    }

    /// The word at the page's start, which tells its kind.
    ///
    /// Errors: `PageKind` where it doesn't fit in the section's bytes.
    pub fn page_kind(&self, bytes: &[u8]) -> Result<u32, ReadError>
        ensures { result ≡ kind_of self.now bytes.now }
    {
        let kind: U32 = read_at(bytes, u64::from(self.page_offset())).ok_or(ReadError::PageKind)?;
        Ok(kind.into())
    }
}

impl RegularPage {
    /// The header of the regular page at an offset from the start of the section.
    ///
    /// Errors: `RegularPage` where it doesn't fit in the section's bytes.
    pub fn parse(bytes: &[u8], page_offset: u64) -> Result<Self, ReadError>
        ensures { result ≡ regular_page_of bytes.now page_offset }
    {
        read_at(bytes, page_offset).ok_or(ReadError::RegularPage)
    }

    /// Where the entries lie, in bytes from the start of the page.
    pub fn functions_offset(&self) -> u16
        ensures { result ≡ u16_number self.now.functions_offset }
    {
        self.functions_offset.into()
    }

    /// How many entries there are.
    pub fn functions_len(&self) -> u16
        ensures { result ≡ u16_number self.now.functions_len }
    {
        self.functions_len.into()
    }

    /// The entries of the page at an offset from the start of the section.
    ///
    /// Errors: `RegularPageFunctions` where they don't fit in the section's bytes.
    pub fn functions<'d>(
        &self,
        bytes: &'d [u8],
        page_offset: u32,
    ) -> Result<Records<'d, RegularFunctionEntry>, ReadError>
        ensures { result ≡ regular_functions_of self.now bytes.now page_offset }
    {
        let offset = u64::from(page_offset) + u64::from(self.functions_offset());
        read_slice_at(bytes, offset, usize::from(self.functions_len())).ok_or(
            ReadError::RegularPageFunctions,
        )
    }
}

impl CompressedPage {
    /// The header of the compressed page at an offset from the start of the section.
    ///
    /// Errors: `CompressedPage` where it doesn't fit in the section's bytes.
    pub fn parse(bytes: &[u8], page_offset: u64) -> Result<Self, ReadError>
        ensures { result ≡ compressed_page_of bytes.now page_offset }
    {
        read_at(bytes, page_offset).ok_or(ReadError::CompressedPage)
    }

    /// Where the entries lie, in bytes from the start of the page.
    pub fn functions_offset(&self) -> u16
        ensures { result ≡ u16_number self.now.functions_offset }
    {
        self.functions_offset.into()
    }

    /// How many entries there are.
    pub fn functions_len(&self) -> u16
        ensures { result ≡ u16_number self.now.functions_len }
    {
        self.functions_len.into()
    }

    /// Where the page's own opcodes lie, in bytes from the start of the page.
    pub fn local_opcodes_offset(&self) -> u16
        ensures { result ≡ u16_number self.now.local_opcodes_offset }
    {
        self.local_opcodes_offset.into()
    }

    /// How many opcodes of its own the page has.
    pub fn local_opcodes_len(&self) -> u16
        ensures { result ≡ u16_number self.now.local_opcodes_len }
    {
        self.local_opcodes_len.into()
    }

    /// The entries of the page at an offset from the start of the section. Each word is a
    /// [`CompressedFunctionEntry`](super::CompressedFunctionEntry).
    ///
    /// Errors: `CompressedPageFunctions` where they don't fit in the section's bytes.
    pub fn functions<'d>(
        &self,
        bytes: &'d [u8],
        page_offset: u32,
    ) -> Result<Records<'d, U32>, ReadError>
        ensures { result ≡ compressed_functions_of self.now bytes.now page_offset }
    {
        let offset = u64::from(page_offset) + u64::from(self.functions_offset());
        read_slice_at(bytes, offset, usize::from(self.functions_len())).ok_or(
            ReadError::CompressedPageFunctions,
        )
    }

    /// The opcodes of the page's own, of the page at an offset from the start of the section.
    ///
    /// Errors: `LocalOpcodes` where they don't fit in the section's bytes.
    pub fn local_opcodes<'d>(
        &self,
        bytes: &'d [u8],
        page_offset: u32,
    ) -> Result<Records<'d, Opcode>, ReadError>
        ensures { result ≡ local_opcodes_of self.now bytes.now page_offset }
    {
        let offset = u64::from(page_offset) + u64::from(self.local_opcodes_offset());
        read_slice_at(bytes, offset, usize::from(self.local_opcodes_len())).ok_or(
            ReadError::LocalOpcodes,
        )
    }
}

impl Opcode {
    /// The opcode's 32 bits.
    pub fn opcode(&self) -> u32
        ensures { result ≡ u32_number self.now.0 }
    {
        self.0.into()
    }
}

impl RegularFunctionEntry {
    /// Where the function begins, relative to the module's base.
    pub fn address(&self) -> u32
        ensures { result ≡ u32_number self.now.address }
    {
        self.address.into()
    }

    /// The function's opcode.
    pub fn opcode(&self) -> u32
        ensures { result ≡ u32_number self.now.opcode.0 }
    {
        self.opcode.opcode()
    }
}

impl LsdaEntry {
    /// Where the function begins, relative to the module's base.
    pub fn address(&self) -> u32
        ensures { result ≡ u32_number self.now.address }
    {
        self.address.into()
    }

    /// Where the function's language table lies, relative to the module's base.
    pub fn lsda_offset(&self) -> u32
        ensures { result ≡ u32_number self.now.lsda_offset }
    {
        self.lsda_offset.into()
    }
}

/// The entries of the list of language tables from one offset up to another.
fn lsda_entries_between(
    bytes: &[u8],
    start: u32,
    end: u32,
) -> Result<Records<'_, LsdaEntry>, ReadError>
    ensures { result ≡ lsda_entries_between bytes.now start end }
{
    let Some(length) = end.checked_sub(start) else {
        return Err(ReadError::Lsda);
    };
    if length % 8 != 0 {
        return Err(ReadError::Lsda);
    }
    read_slice_at(bytes, u64::from(start), (length / 8) as usize).ok_or(ReadError::Lsda)
}
