// The ELF header. System V gABI, chapter "Object Files", part "ELF Header".
ghost use Rattle.std.specs.Prelude.{◌≡◌, ◌+◌, ◌≤◌, length, IsTrue};
ghost use Rattle.memory_image.specs.Words.{u16_at};
ghost use Rattle.core_file.specs.ElfHeader.{has_core_header, headers_offset, header_count};

use memory_image::u64_at;

// the magic number, the class of 64 bits, and the form whose numbers have their lowest byte first
const IDENTIFICATION: [u8; 6] = [0x7f, b'E', b'L', b'F', 2, 1];

pub(crate) const HEADER_SIZE: usize = 64;

pub(crate) const PROGRAM_HEADER_SIZE: u16 = 56;

const ET_CORE: u16 = 4;

const EM_X86_64: u16 = 62;

/// The count that says that the number of program headers stands elsewhere.
pub(crate) const PN_XNUM: u16 = 0xffff;

// where e_type, e_machine, e_phoff, e_phentsize and e_phnum stand
const TYPE_OFFSET: usize = 16;

const MACHINE_OFFSET: usize = 18;

const HEADERS_OFFSET: usize = 32;

const ENTRY_SIZE_OFFSET: usize = 54;

const COUNT_OFFSET: usize = 56;

/// The little-endian number of the two bytes from an offset on.
fn u16_at(bytes: &[u8], offset: usize) -> u16
    requires { offset + 2 ≤ length bytes.now }
    ensures { result ≡ u16_at bytes.now offset }
{
    u16::from_le_bytes([bytes[offset], bytes[offset + 1]])
}

/// Whether bytes begin with the ELF header of a core file of x86-64.
pub(crate) fn has_core_header(bytes: &[u8]) -> bool
    ensures value { result ≡ has_core_header bytes.now }
    ensures size { IsTrue result → 64 ≤ length bytes.now }
{
    bytes.len() >= HEADER_SIZE
        && bytes.starts_with(&IDENTIFICATION)
        && u16_at(bytes, TYPE_OFFSET) == ET_CORE
        && u16_at(bytes, MACHINE_OFFSET) == EM_X86_64
        && u16_at(bytes, ENTRY_SIZE_OFFSET) == PROGRAM_HEADER_SIZE
}

/// Where the program headers begin in the file.
pub(crate) fn headers_offset(bytes: &[u8]) -> u64
    requires { 64 ≤ length bytes.now }
    ensures { result ≡ headers_offset bytes.now }
{
    u64_at(bytes, HEADERS_OFFSET)
}

/// How many program headers there are, or [`PN_XNUM`].
pub(crate) fn header_count(bytes: &[u8]) -> u16
    requires { 64 ≤ length bytes.now }
    ensures { result ≡ header_count bytes.now }
{
    u16_at(bytes, COUNT_OFFSET)
}
