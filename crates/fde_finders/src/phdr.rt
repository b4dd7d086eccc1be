//! A finder by the program headers of loaded objects.

ghost use Rattle.std.specs.Prelude.{◌≡◌, ◌+◌, ◌≤◌, ℕ, List, [], ◌∷◌, ◌++◌, OnErr, OnOk};
ghost use Rattle.std.specs.Prelude.{Option};
ghost use Rattle.std.specs.Option.{option_map};
ghost use Rattle.unwind_definitions.specs.HeaderSearch.{SearchTakes};
ghost use Rattle.fde_finders.specs.FoundViews.{found_fde_of};
ghost use Rattle.fde_finders.specs.InTurn.{FindsAmong};
ghost use Rattle.fde_finders.specs.TurnCovering.{objects_contain};
ghost use Rattle.fde_finders.specs.ProgramHeaders.{FindsInObject, data_base_of, dynamic_entries};
ghost use Rattle.fde_finders.specs.ProgramHeaders.{found_in_object, in_range};
ghost use Rattle.fde_finders.specs.ProgramHeaders.{last_such, pairs_in_object, plt_got, start_of};
ghost use Rattle.fde_finders.specs.Sought.{is_sought};

use crate::find_fde::{FDEFinder, FDESearchResult};
use crate::tables::{relative_to, search_header};
use memory_image::{Ledger, MemoryImage, Record, Records, Steps, u32_at, u64_at};
use std::alloc::{AllocError, Global};
use std::marker::Model;

/// The type of a header of a part that is loaded.
const PT_LOAD: u32 = 1;
/// The type of the header of the dynamic section.
const PT_DYNAMIC: u32 = 2;
/// The type of the header of `.eh_frame_hdr`.
const PT_GNU_EH_FRAME: u32 = 0x6474_e550;
/// The tag of the last entry of a dynamic section.
const DT_NULL: u64 = 0;
/// The tag of the address that pointers relative to the data are relative to.
const DT_PLTGOT: u64 = 3;

/// A program header of an ELF object of 64 bits: 56 bytes, little-endian.
///
/// Source: System V ABI, section on the program header.
#[derive(Clone, Copy, Debug, PartialEq, Eq)]
pub struct Phdr {
    /// What the header describes.
    pub p_type: u32,
    /// Whether its part may be executed, written and read.
    pub p_flags: u32,
    /// Where its part begins in the file.
    pub p_offset: u64,
    /// Where its part begins in memory, from the object's base on.
    pub p_vaddr: u64,
    /// Its physical address, which has no meaning here.
    pub p_paddr: u64,
    /// How many bytes its part has in the file.
    pub p_filesz: u64,
    /// How many bytes its part has in memory.
    pub p_memsz: u64,
    /// How its part is aligned.
    pub p_align: u64,
}

impl Record for Phdr {
    ghost use Rattle.fde_finders.specs.ProgramHeaders.{phdr_of};
    ghost use Rattle.fde_finders.specs.PhdrBytes.{phdr_keeps_all};
    ghost use Rattle.std.proofs.Common.{lit≤};

    const SIZE: usize = 56;

    ghost SIZE = { 56 };

    ghost value_of = { phdr_of };

    fn read(bytes: &[u8]) -> Phdr {
        Phdr {
            p_type: u32_at(bytes, 0),
            p_flags: u32_at(bytes, 4),
            p_offset: u64_at(bytes, 8),
            p_vaddr: u64_at(bytes, 16),
            p_paddr: u64_at(bytes, 24),
            p_filesz: u64_at(bytes, 32),
            p_memsz: u64_at(bytes, 40),
            p_align: u64_at(bytes, 48),
        }
    }

    ghost has_size = { lit≤ tt };

    ghost keeps_all = { phdr_keeps_all };
}

/// An entry of a dynamic section.
#[derive(Clone, Copy)]
struct DynamicEntry {
    tag: u64,
    value: u64,
}

impl Record for DynamicEntry {
    ghost use Rattle.fde_finders.specs.ProgramHeaders.{dynamic_entry_of};
    ghost use Rattle.fde_finders.specs.PhdrBytes.{dynamic_entry_keeps_all};
    ghost use Rattle.std.proofs.Common.{lit≤};

    const SIZE: usize = 16;

    ghost SIZE = { 16 };

    ghost value_of = { dynamic_entry_of };

    fn read(bytes: &[u8]) -> DynamicEntry {
        DynamicEntry {
            tag: u64_at(bytes, 0),
            value: u64_at(bytes, 8),
        }
    }

    ghost has_size = { lit≤ tt };

    ghost keeps_all = { dynamic_entry_keeps_all };
}

/// A loaded object: the address that its program headers count from, and these.
#[derive(Drop)]
pub struct PhdrObject<'p> {
    /// What the virtual addresses of its headers are added to.
    pub base: u64,
    /// Its program headers.
    pub headers: Records<'p, Phdr>,
}

/// A finder by the program headers of loaded objects, in the order in which they were added.
///
/// An object's text is the last part that is loaded and holds the address. Its frame table is found
/// by the last header of `.eh_frame_hdr`, as [`GnuHdrFinder`] does. What is relative to the text is
/// relative to the start of that part, and what is relative to the data to the first `DT_PLTGOT` of
/// the dynamic section.
///
/// Contracts see the list of its objects.
///
/// [`GnuHdrFinder`]: crate::GnuHdrFinder
#[derive(Drop)]
pub struct PhdrFinder<'p> {
    objects: Vec<PhdrObject<'p>>,
}

impl<'p> Model for PhdrFinder<'p> {
    ghost use Rattle.std.specs.Prelude.{List};
    ghost use Rattle.fde_finders.specs.declared.phdr.PhdrObject.{PhdrObject};

    ghost Value = { List PhdrObject };

    ghost view = { λ f. f.objects.items };
}

impl<'p> PhdrFinder<'p> {
    /// A finder without objects. It takes no memory yet.
    pub fn new(alloc: Global) -> PhdrFinder<'p>
        ensures { result ≡ [] }
    {
        PhdrFinder {
            objects: Vec::new(alloc),
        }
    }

    /// Puts an object last.
    ///
    /// # Errors
    ///
    /// `AllocError` where memory ran out; the finder is then as before.
    pub fn add(&mut self, object: PhdrObject<'p>) -> Result<(), AllocError>
        ensures added { OnOk result (self.new ≡ self.old ++ object.entry ∷ []) }
        ensures unchanged { OnErr result (self.new ≡ self.old) }
    {
        self.objects.push(object)?;
        Ok(())
    }
}

impl<'p> FDEFinder for PhdrFinder<'p> {
    ghost finds = { λ objects image pc. FindsAmong (FindsInObject image pc) objects };

    fn find_fde<'a, L: Ledger>(
        &self,
        image: &MemoryImage<'a>,
        pc: u64,
        steps: &mut Steps<L>,
    ) -> Option<FDESearchResult<'a>> {
        find_among(&self.objects, image, pc, steps)
    }

    ghost contains = { objects_contain };
}

// The description that the first object finds that finds one.
fn find_among<'a, L: Ledger>(
    objects: &[PhdrObject<'_>],
    image: &MemoryImage<'a>,
    pc: u64,
    steps: &mut Steps<L>,
) -> Option<FDESearchResult<'a>>
    ensures { (ticks : ℕ) × (steps.new.number ≡ steps.old.number + ticks)
        × FindsAmong (FindsInObject image.now pc) objects.now (option_map found_fde_of result) ticks }
{
    for object in objects {
        if let Some(found) = find_in_object(object, image, pc, steps) {
            return Some(found);
        }
    }
    None
}

// The description that an object's header of a frame table leads to.
fn find_in_object<'a, L: Ledger>(
    object: &PhdrObject<'_>,
    image: &MemoryImage<'a>,
    pc: u64,
    steps: &mut Steps<L>,
) -> Option<FDESearchResult<'a>>
    ensures found { option_map found_fde_of result ≡ found_in_object image.now pc object.now }
    ensures ticks { (taken : ℕ) × (steps.new.number ≡ steps.old.number + taken)
        × SearchTakes (pairs_in_object image.now pc object.now) taken }
{
    let base = object.base;
    let text = last_header(&object.headers, Sought::Text { base, pc })?;
    let header = last_header(&object.headers, Sought::OfType(PT_GNU_EH_FRAME))?;
    let known = relative_to(Some(start_of(base, &text)), data_base(image, object));
    search_header(image, pc, &known, start_of(base, &header), steps)
}

// Which program header is looked for.
#[derive(Clone, Copy)]
enum Sought {
    // of a type
    OfType(u32),
    // a part that is loaded and holds an address
    Text { base: u64, pc: u64 },
}

impl Sought {
    fn is(self, header: &Phdr) -> bool
        ensures { result ≡ is_sought self header.now }
    {
        match self {
            Sought::OfType(kind) => header.p_type == kind,
            Sought::Text { base, pc } => {
                header.p_type == PT_LOAD && holds(start_of(base, header), header.p_memsz, pc)
            }
        }
    }
}

// The last header that is looked for.
fn last_header(headers: &Records<'_, Phdr>, sought: Sought) -> Option<Phdr>
    ensures { result ≡ last_such (is_sought sought) headers.now }
{
    let mut left = headers.len();
    while left > 0 {
        left -= 1;
        let header = headers.get(left)?;
        if sought.is(&header) {
            return Some(header);
        }
    }
    None
}

// Where a header's part begins in memory.
fn start_of(base: u64, header: &Phdr) -> u64
    ensures { result ≡ start_of base header.now }
{
    base.wrapping_add(header.p_vaddr)
}

// Whether so many bytes from a start on hold an address, and don't pass the last one.
fn holds(start: u64, size: u64, pc: u64) -> bool
    ensures { result ≡ in_range start size pc }
{
    start <= pc && pc - start < size && size - 1 <= u64::MAX - start
}

// What the pointers of an object that are relative to its data are relative to.
fn data_base(image: &MemoryImage<'_>, object: &PhdrObject<'_>) -> Option<u64>
    ensures { result ≡ data_base_of image.now object.now }
{
    let dynamic = last_header(&object.headers, Sought::OfType(PT_DYNAMIC))?;
    plt_got(image.bytes_from(start_of(object.base, &dynamic)))
}

// The first `DT_PLTGOT` of a dynamic section, which ends with its bytes or at `DT_NULL`.
fn plt_got(bytes: &[u8]) -> Option<u64>
    ensures { result ≡ plt_got (dynamic_entries bytes.now) }
{
    let entries = Records::<DynamicEntry>::over(bytes, 0, bytes.len() / 16)?;
    for i in 0..entries.len() {
        let entry = entries.get(i)?;
        if entry.tag == DT_NULL {
            return None;
        }
        if entry.tag == DT_PLTGOT {
            return Some(entry.value);
        }
    }
    None
}
