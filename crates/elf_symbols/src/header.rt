// The ELF header. System V gABI, chapter "Object Files", part "ELF Header".
ghost use Rattle.std.specs.Prelude.{◌≡◌, ◌+◌, ◌≤◌, length, IsTrue};
ghost use Rattle.memory_image.specs.Words.{u16_at};
ghost use Rattle.elf_symbols.specs.Header.{has_header, section_table};

use crate::part::FilePart;
use memory_image::u64_at;

// the magic number, the class of 64 bits, and the form whose numbers have their lowest byte first
const IDENTIFICATION: [u8; 6] = [0x7f, b'E', b'L', b'F', 2, 1];

const HEADER_SIZE: usize = 64;

const SECTION_HEADER_SIZE: u16 = 64;

// where e_shoff, e_shentsize and e_shnum stand
const SECTIONS_OFFSET: usize = 40;

const ENTRY_SIZE_OFFSET: usize = 58;

const COUNT_OFFSET: usize = 60;

/// The little-endian number of the two bytes from an offset on.
pub(crate) fn u16_at(bytes: &[u8], offset: usize) -> u16
    requires { offset + 2 ≤ length bytes.now }
    ensures { result ≡ u16_at bytes.now offset }
{
    u16::from_le_bytes([bytes[offset], bytes[offset + 1]])
}

/// Whether bytes begin with the header of an ELF file of 64 bits that has section headers of 64 bytes.
fn has_header(front: &[u8]) -> bool
    ensures value { result ≡ has_header front.now }
    ensures size { IsTrue result → 64 ≤ length front.now }
{
    front.len() >= HEADER_SIZE
        && front.starts_with(&IDENTIFICATION)
        && u16_at(front, ENTRY_SIZE_OFFSET) == SECTION_HEADER_SIZE
}

/// Where the section headers lie in a file that begins so, with at least its 64 first bytes. `None`
/// where that is no ELF file of 64 bits whose numbers have their lowest byte first, or its section
/// headers aren't said to have 64 bytes each. Where it has none, the size is 0.
pub fn section_table(front: &[u8]) -> Option<FilePart>
    ensures { result ≡ section_table front.now }
{
    if !has_header(front) {
        return None;
    }
    Some(FilePart {
        offset: u64_at(front, SECTIONS_OFFSET),
        size: u64::from(u16_at(front, COUNT_OFFSET)) * 64,
    })
}
