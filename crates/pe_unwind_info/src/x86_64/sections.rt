// The section table of an image.
ghost use Rattle.std.specs.Prelude.{◌≡◌, None};
ghost use Rattle.std.specs.Option.{option_map};
ghost use Rattle.pe_unwind_info.specs.Sections.{image_of, headers_of, section_table, sections_in};
ghost use Rattle.pe_unwind_info.specs.Sections.{IsMemoryAt, virtual_size, virtual_address};
ghost use Rattle.pe_unwind_info.specs.Sections.{raw_pointer, memory_by};

use crate::x86_64::little_endian::{u16_at, u32_at};
use crate::x86_64::search::boundary;
use memory_image::{Keyed, Record, Records};

// where the offset of the signature stands, the bytes of the signature and those of the COFF
// header, and where in that header the count and the optional header's size stand
const SIGNATURE_OFFSET: usize = 0x3c;

const SIGNATURE_SIZE: usize = 4;

const COFF_HEADER_SIZE: usize = 20;

const SECTION_COUNT_OFFSET: usize = 2;

const OPTIONAL_HEADER_SIZE_OFFSET: usize = 16;

#[derive(Clone, Copy, Debug)]
pub(crate) struct Section {
    header: [u8; 40],
}

impl Section {
    fn virtual_size(&self) -> u32
        ensures { result ≡ virtual_size self.now }
    {
        u32_at(&self.header, 8)
    }

    fn virtual_address(&self) -> u32
        ensures { result ≡ virtual_address self.now }
    {
        u32_at(&self.header, 12)
    }

    fn raw_pointer(&self) -> u32
        ensures { result ≡ raw_pointer self.now }
    {
        u32_at(&self.header, 20)
    }
}

impl Record for Section {
    ghost use Rattle.pe_unwind_info.specs.Sections.{section_of};
    ghost use Rattle.pe_unwind_info.specs.SectionBytes.{section_keeps_all};
    ghost use Rattle.std.proofs.Common.{lit≤};

    const SIZE: usize = 40;

    ghost SIZE = { 40 };

    ghost value_of = { section_of };

    fn read(bytes: &[u8]) -> Section {
        let mut header = [0; 40];
        header.copy_from_slice(&bytes[..40]);
        Section { header }
    }

    ghost has_size = { lit≤ tt };

    ghost keeps_all = { section_keeps_all };
}

impl Keyed for Section {
    ghost key = { virtual_address };

    fn read_key(bytes: &[u8]) -> u32 {
        u32_at(bytes, 12)
    }
}

/// The sections of an image in its file layout.
#[derive(Clone, Copy, Debug)]
pub struct Sections<'a> {
    image: &'a [u8],
    headers: &'a [u8],
}

impl<'a> Sections<'a> {
    /// The sections that the image's COFF header states; `None` exactly where the number at 0x3c,
    /// the COFF header of 20 bytes or the section headers don't fit in the image.
    pub fn parse(image: &'a [u8]) -> Option<Sections<'a>>
        ensures headers { option_map headers_of result ≡ section_table image.now }
        ensures image { option_map image_of result ≡ option_map (λ _. image.now) result }
    {
        if image.len() < SIGNATURE_OFFSET + 4 {
            return None;
        }
        let coff = u32_at(image, SIGNATURE_OFFSET) as usize + SIGNATURE_SIZE;
        if image.len() < coff + COFF_HEADER_SIZE {
            return None;
        }
        let count = usize::from(u16_at(image, coff + SECTION_COUNT_OFFSET));
        let optional = usize::from(u16_at(image, coff + OPTIONAL_HEADER_SIZE_OFFSET));
        let start = coff + COFF_HEADER_SIZE + optional;
        let size = Section::SIZE * count;
        if image.len() < start + size {
            return None;
        }
        Some(Sections {
            image,
            headers: &image[start..start + size],
        })
    }

    /// The image's bytes from a relative virtual address on, up to the image's end. `None` where
    /// no section's extent holds the address and none begins at it, and where the bytes would
    /// begin past the image's end. Where sections are out of order, the one to which halving comes
    /// counts: it begins at or below the address, and its successor begins above it.
    pub fn memory_at_rva(&self, rva: u32) -> Option<&'a [u8]>
        ensures memory { IsMemoryAt (image_of self.now) (sections_in (headers_of self.now)) rva
            (option_map (λ bytes. bytes.now) result) }
        // Which section counts is determined, also where they are out of order.
        ensures repeats { option_map (λ bytes. bytes.now) result ≡ memory_by (image_of self.now)
            (sections_in (headers_of self.now)) rva }
    {
        let sections = Records::<Section>::over(
            self.headers,
            0,
            self.headers.len() / Section::SIZE,
        )?;
        let section = boundary(&sections, rva)?;
        let address = section.virtual_address();
        if address != rva
            && u64::from(rva) >= u64::from(address) + u64::from(section.virtual_size())
        {
            return None;
        }
        let offset = u64::from(section.raw_pointer()) + u64::from(rva - address);
        if offset > self.image.len() as u64 {
            return None;
        }
        Some(&self.image[offset as usize..])
    }
}
