// What a caller hands in: memory, modules, and the registers of a stopped thread.
ghost use Rattle.std.specs.Prelude.{◌≡◌, ◌∷◌, [], Err, Ok};
ghost use Rattle.stack_steps.specs.Growing.{Grows};
ghost use Rattle.stack_steps.specs.Modules.{SpaceValue};
ghost use Rattle.kalzurenk_c.specs.Given.{context_of, image_after, module_given, nonzero, spans_of};
ghost use Rattle.kalzurenk_c.specs.Given.{elf_given, pe_given, space_after, space_given};
ghost use Rattle.kalzurenk_c.specs.Given.{start_given};
ghost use Rattle.kalzurenk_c.specs.Given.{GivesUnlessNoMemory, LeavesUnlessNoMemory};
ghost use Rattle.kalzurenk_c.specs.Sizes.{module_size, region_size};
ghost use Rattle.kalzurenk_c.specs.GivenSample.{at_end, at_start, given_module, sized_as, there};

use crate::refusal::{Refusal, module_refusal, region_refusal};
use crate::sizes::{MODULE_SIZE, REGION_SIZE};
use fde_finders::{FrameInfo, FrameInfoKind};
use memory_image::{ImageError, MemoryImage};
use stack_steps::{MachoTables, Module, ModuleTables, PeTables, Space, SpaceError, Stepped};
use std::alloc::Global;
use unwind_arch::x86_64::Context;

/// Bytes at an address and after it.
#[repr(C)]
#[derive(Clone, Copy, Drop)]
pub struct Region<'a> {
    /// How many bytes this struct has.
    pub size: u64,
    /// The address of the first byte.
    pub address: u64,
    /// The bytes.
    pub bytes: &'a [u8],
}

/// A module, by its format.
#[repr(C)]
#[derive(Clone, Copy, Drop)]
pub struct GivenModule {
    /// How many bytes this struct has.
    pub size: u64,
    /// Its first address, which is the base of a Mach-O or a PE module.
    pub start: u64,
    /// The address after its last.
    pub end: u64,
    /// Where its tables lie: an address; or in a PE module, how far its function table is from the
    /// base.
    pub tables: u64,
    /// What else is known of its tables, by the format.
    pub more: u64,
    /// 0: an ELF module, by its frame table; 1: an ELF module, by the header of one. `more` is the
    /// text base of both, or 0. 2: a Mach-O module, by its section of compact unwinding, and `more`
    /// is where its frame data begins, or 0. 3: a PE module, by its function table, of which `more`
    /// is the number of bytes.
    pub format: u64,
}

/// The general registers of a stopped thread.
#[repr(C)]
#[derive(Clone, Copy, Drop)]
pub struct Registers {
    /// How many bytes this struct has.
    pub size: u64,
    /// In the order of the psABI's table of DWARF register numbers: RAX, RDX, RCX, RBX, RSI, RDI,
    /// RBP, RSP, and R8 to R15.
    pub general: [u64; 16],
    /// The instruction pointer.
    pub ip: u64,
}

/// The registers from which a stack is walked.
pub(crate) fn context_of(start: &Registers) -> Context
    ensures { result ≡ context_of start.now }
{
    let mut context = Context::default();
    let general = start.general;
    context.registers = general;
    context.ra = start.ip;
    context
}

/// The state from which a stack is walked.
pub(crate) fn start_of(start: &Registers, interrupted: bool) -> Stepped
    ensures { result ≡ start_given start.now interrupted }
{
    Stepped {
        context: context_of(start),
        signal: interrupted,
    }
}

/// A number, unless it is 0.
fn nonzero(number: u64) -> Option<u64>
    ensures { result ≡ nonzero number }
{
    if number == 0 { None } else { Some(number) }
}

/// The tables of an ELF module.
fn elf_tables(kind: FrameInfoKind, text: u64) -> ModuleTables
    ensures { result ≡ elf_given kind text }
{
    ModuleTables::Elf(FrameInfo {
        text_base: nonzero(text),
        kind,
    })
}

/// The tables of a PE module, if both numbers have 32 bits.
fn pe_tables(tables: u64, size: u64) -> Option<ModuleTables>
    ensures { result ≡ pe_given tables size }
{
    if tables >= 0x1_0000_0000 || size >= 0x1_0000_0000 {
        return None;
    }
    Some(ModuleTables::Pe(PeTables {
        table_rva: tables as u32,
        table_size: size as u32,
    }))
}

/// A module, if its format is known.
fn module_of(given: &GivenModule) -> Option<Module>
    ensures { result ≡ module_given given.now }
{
    let tables = match given.format {
        0 => elf_tables(FrameInfoKind::EhFrame(given.tables), given.more),
        1 => elf_tables(FrameInfoKind::EhFrameHdr(given.tables), given.more),
        2 => ModuleTables::Macho(MachoTables {
            unwind_info: given.tables,
            frames: nonzero(given.more),
        }),
        3 => pe_tables(given.tables, given.more)?,
        _ => return None,
    };
    Some(Module {
        start: given.start,
        end: given.end,
        tables,
    })
}

/// Adds regions to an image, in their order.
pub(crate) fn add_regions<'a>(
    image: &mut MemoryImage<'a>,
    regions: &[Region<'a>],
) -> Result<(), Refusal>
    ensures image { LeavesUnlessNoMemory result image.new
        (image_after 0 image.old (spans_of regions.now)) }
    // What was mapped is as before.
    ensures grown { Grows image.old image.new }
{
    let mut place = 0;
    for region in regions {
        if region.size != REGION_SIZE {
            return Err(Refusal::RegionSize(place));
        }
        if let Err(error) = image.add(region.address, region.bytes) {
            return Err(region_refusal(place, error));
        }
        place += 1;
    }
    Ok(())
}

/// Adds modules to a space, in their order.
fn add_modules(space: &mut Space<'_>, modules: &[GivenModule]) -> Result<(), Refusal>
    ensures { LeavesUnlessNoMemory result space.new (space_after 0 space.old modules.now) }
{
    let mut place = 0;
    for given in modules {
        if given.size != MODULE_SIZE {
            return Err(Refusal::ModuleSize(place));
        }
        let Some(module) = module_of(given) else {
            return Err(Refusal::Format(place));
        };
        if let Err(error) = space.add_module(module) {
            return Err(module_refusal(place, error));
        }
        place += 1;
    }
    Ok(())
}

/// The space of these regions and modules. None of them is prepared.
pub(crate) fn space_of<'a>(
    alloc: Global,
    regions: &[Region<'a>],
    modules: &[GivenModule],
) -> Result<Space<'a>, Refusal>
    ensures { GivesUnlessNoMemory result (space_given regions.now modules.now) }
{
    let mut image = MemoryImage::new(alloc);
    add_regions(&mut image, regions)?;
    let mut space = Space::new(alloc, image);
    add_modules(&mut space, modules)?;
    Ok(space)
}

/// Each refusal of a region and of a module but that of memory can be met; and a region and a module are
/// taken, one byte at 0x1000 and an ELF module there. The function does nothing.
pub fn each_refusal_is_given()
    ensures sized { image_after 0 [] (sized_as 24 (at_start []) ∷ []) ≡ Err (Refusal.RegionSize 0) }
    ensures empty { image_after 0 [] (at_start [] ∷ []) ≡
        Err (Refusal.Region 0 ImageError.Empty) }
    ensures wraps { image_after 0 [] (at_end ∷ []) ≡ Err (Refusal.Region 0 ImageError.Wraps) }
    ensures overlaps { image_after 0 [] (at_start (0 ∷ []) ∷ at_start (0 ∷ []) ∷ []) ≡
        Err (Refusal.Region 1 (ImageError.Overlap 0x1000)) }
    ensures sized_module { space_after 0 there
        (record (given_module 0 0x1001) { size = 40 } ∷ []) ≡ Err (Refusal.ModuleSize 0) }
    ensures format { space_after 0 there (given_module 4 0x1001 ∷ []) ≡ Err (Refusal.Format 0) }
    ensures reversed { space_after 0 there (given_module 0 0x1000 ∷ []) ≡
        Err (Refusal.Module 0 SpaceError.Wraps) }
    ensures shared { space_after 0 there (given_module 0 0x1001 ∷ given_module 1 0x1001 ∷ []) ≡
        Err (Refusal.Module 1 (SpaceError.Overlap 0x1000)) }
    ensures taken { (image_after 0 [] (at_start (0 ∷ []) ∷ []) ≡ Ok there.image) ×
        ((space : SpaceValue) × (space_after 0 there (given_module 0 0x1001 ∷ []) ≡ Ok space)) }
{}
