// The front of an ELF file: its header and its program headers. System V gABI, chapter "Object Files", part "ELF Header".
ghost use Rattle.std.specs.Prelude.{◌≡◌, ◌+◌, ◌≤◌, length, IsTrue};
ghost use Rattle.memory_image.specs.Words.{u16_at};
ghost use Rattle.mapped_files.specs.Front.{has_elf_header, program_headers};

use fde_finders::Phdr;
use memory_image::{Records, u64_at};

// the magic number, the class of 64 bits, and the form whose numbers have their lowest byte first
const IDENTIFICATION: [u8; 6] = [0x7f, b'E', b'L', b'F', 2, 1];

/// How many bytes of a file are read for its ELF header and its program headers.
pub const FRONT_SIZE: u64 = 4096;

const HEADER_SIZE: usize = 64;

const PROGRAM_HEADER_SIZE: u16 = 56;

const EM_X86_64: u16 = 62;

// where e_machine, e_phoff, e_phentsize and e_phnum stand
const MACHINE_OFFSET: usize = 18;

const HEADERS_OFFSET: usize = 32;

const ENTRY_SIZE_OFFSET: usize = 54;

const COUNT_OFFSET: usize = 56;

/// The little-endian number of the two bytes from an offset on.
fn u16_at(bytes: &[u8], offset: usize) -> u16
    requires { offset + 2 ≤ length bytes.now }
    ensures { result ≡ u16_at bytes.now offset }
{
    u16::from_le_bytes([bytes[offset], bytes[offset + 1]])
}

/// Whether a file that begins so is an ELF file of x86-64.
fn has_elf_header(front: &[u8]) -> bool
    ensures value { result ≡ has_elf_header front.now }
    ensures size { IsTrue result → 64 ≤ length front.now }
{
    front.len() >= HEADER_SIZE
        && front.starts_with(&IDENTIFICATION)
        && u16_at(front, MACHINE_OFFSET) == EM_X86_64
        && u16_at(front, ENTRY_SIZE_OFFSET) == PROGRAM_HEADER_SIZE
}

/// The program headers of a file that begins so. `None` where it is no ELF file of x86-64, they
/// aren't said to have 56 bytes each, or they don't lie within the front.
pub fn program_headers(front: &[u8]) -> Option<Records<'_, Phdr>>
    ensures { result ≡ program_headers front.now }
{
    if !has_elf_header(front) {
        return None;
    }
    let count = usize::from(u16_at(front, COUNT_OFFSET));
    Records::over(front, u64_at(front, HEADERS_OFFSET), count)
}
