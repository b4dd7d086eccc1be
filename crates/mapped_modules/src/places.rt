// Where the code of a mapped part of a file lies, and the frame table that belongs to it.
ghost use Rattle.std.specs.Prelude.{◌≡◌};
ghost use Rattle.core_file.specs.MappedViews.{part_of};
ghost use Rattle.mapped_modules.specs.Places.{first_such, is_sought, page_of, place_of};

use core_file::MappedPart;
use fde_finders::{FrameInfo, FrameInfoKind, Phdr};
use memory_image::Records;
use stack_steps::{Module, ModuleTables};

const PT_LOAD: u32 = 1;

const PT_GNU_EH_FRAME: u32 = 0x6474_e550;

const PAGE_SIZE: u64 = 4096;

/// Which program header is looked for.
#[derive(Clone, Copy)]
pub(crate) enum Sought {
    /// That of code in the page at this offset of the file.
    Code { offset: u64 },
    /// That of the frame table's header.
    FrameHeader,
    /// That of the segment whose bytes in the file hold this address.
    Holder { address: u64 },
}

impl Sought {
    fn is(self, header: &Phdr) -> bool
        ensures { result ≡ is_sought self header.now }
    {
        match self {
            Sought::Code { offset } => {
                header.p_type == PT_LOAD
                    && header.p_flags % 2 == 1
                    && page_of(header.p_offset) == offset
            }
            Sought::FrameHeader => header.p_type == PT_GNU_EH_FRAME,
            Sought::Holder { address } => {
                header.p_type == PT_LOAD
                    && header.p_vaddr <= address
                    && address - header.p_vaddr < header.p_filesz
            }
        }
    }
}

/// The first header that is looked for.
fn first_header(headers: &Records<'_, Phdr>, sought: Sought) -> Option<Phdr>
    ensures { result ≡ first_such (is_sought sought) headers.now }
{
    for i in 0..headers.len() {
        let header = headers.at(i);
        if sought.is(&header) {
            return Some(header);
        }
    }
    None
}

/// Where the page begins.
fn page_of(place: u64) -> u64
    ensures { result ≡ page_of place }
{
    place / PAGE_SIZE * PAGE_SIZE
}

/// A module, and where the segment that has its frame table lies in memory and in its file.
#[derive(Clone, Copy)]
pub(crate) struct ModulePlace {
    pub(crate) code: Module,
    pub(crate) address: u64,
    pub(crate) offset: u64,
    pub(crate) size: u64,
}

/// The module whose code a part of a file is. `None` where it is none, or the file names no frame table.
pub(crate) fn place_of(headers: &Records<'_, Phdr>, part: &MappedPart<'_>) -> Option<ModulePlace>
    ensures { result ≡ place_of headers.now (part_of part.now) }
{
    let code = first_header(
        headers,
        Sought::Code {
            offset: part.offset,
        },
    )?;
    let frames = first_header(headers, Sought::FrameHeader)?;
    let holder = first_header(
        headers,
        Sought::Holder {
            address: frames.p_vaddr,
        },
    )?;
    let bias = part.start.wrapping_sub(page_of(code.p_vaddr));
    let start = bias.wrapping_add(code.p_vaddr);
    Some(ModulePlace {
        code: Module {
            start,
            end: start.wrapping_add(code.p_memsz),
            tables: ModuleTables::Elf(FrameInfo {
                text_base: None,
                kind: FrameInfoKind::EhFrameHdr(bias.wrapping_add(frames.p_vaddr)),
            }),
        },
        address: bias.wrapping_add(holder.p_vaddr),
        offset: holder.p_offset,
        size: holder.p_filesz,
    })
}
