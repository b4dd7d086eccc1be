// The functions that frame tables describe.
ghost use Rattle.std.specs.Prelude.{◌≡◌, List};
ghost use Rattle.std.specs.Option.{option_map};
ghost use Rattle.memory_image.specs.Image.{Span, IsLaidOut};
ghost use Rattle.fde_finders.specs.declared.custom.FrameInfo.{FrameInfo as Tables};
ghost use Rattle.fde_finders.specs.Named.{found_by};
ghost use Rattle.stack_steps.specs.AddedModule.{IsAddedModule, IsTableOf};
ghost use Rattle.stack_steps.specs.Functions.{described_function, described_in, function_of};

use crate::prepared::PreparedTable;
use crate::space::{AddedModule, ModuleTables, Space};
use fde_finders::{FrameInfo, find_by_tables};
use memory_image::{MemoryImage, NoLedger, Steps};

/// A function as the frame table of an ELF module describes it.
#[derive(Clone, Copy, Debug, PartialEq, Eq)]
pub struct DescribedFunction {
    /// Where it begins.
    pub start: u64,
    /// Whether its frame is a signal's, so that where it returns to was interrupted.
    pub signal: bool,
}

impl<'a> Space<'a> {
    /// The function that the frame table of an ELF module describes at an address: that of the
    /// description by which a step from there finds the caller. `None` where no ELF module holds the
    /// address, or no description is found for it. A prepared module is asked by its index, and answers
    /// the same. Whether its row can be read isn't asked.
    pub fn described_function(&self, address: u64) -> Option<DescribedFunction>
        ensures { result ≡ described_function self.now address }
    {
        self.described_near(address, &mut 0)
    }

    /// The same. The module at the place `near` in the order of adding is tried first, and the place
    /// becomes that of the module that is found by a search.
    #[tactic(auto, unfolding(crate::specs::Functions::described_function))]
    pub(crate) fn described_near(&self, address: u64, near: &mut usize) -> Option<DescribedFunction>
        ensures { result ≡ described_function self.now address }
    {
        // Its regions are laid out, as the image's type says.
        let image = self.image();
        match self.added_near(address, near) {
            Some(added_module) => function_in(image, added_module, address),
            None => None,
        }
    }
}

/// The function that a module's frame table describes at an address.
fn function_in(
    image: &MemoryImage<'_>,
    added_module: &AddedModule<'_>,
    address: u64,
) -> Option<DescribedFunction>
    requires laid_out { IsLaidOut 0 image.now }
    requires added { IsAddedModule image.now added_module.now }
    ensures { result ≡ described_in image.now address added_module.now.holder.tables }
{
    match &added_module.table {
        Some(shared) => indexed_function(shared.table(), address),
        None => searched_function(image, added_module.holder.tables, address),
    }
}

/// The same by the index of a prepared module.
fn indexed_function(table: &PreparedTable<'_>, address: u64) -> Option<DescribedFunction>
    ensures { (image : List Span) (tables : Tables) → IsLaidOut 0 image →
        IsTableOf image tables table.now →
        result ≡ option_map function_of (found_by tables image address) }
{
    let steps = &mut Steps::new(NoLedger);
    match table.index.frame(address, steps) {
        Some(frame) => Some(DescribedFunction {
            start: frame.fde().initial_address(),
            signal: frame.is_signal_trampoline(),
        }),
        None => None,
    }
}

/// The same by the tables that a module names.
#[inline(never)]
fn searched_function(
    image: &MemoryImage<'_>,
    tables: ModuleTables,
    address: u64,
) -> Option<DescribedFunction>
    ensures { result ≡ described_in image.now address tables }
{
    match tables {
        ModuleTables::Elf(frame) => found_function(image, frame, address),
        ModuleTables::Macho(_) | ModuleTables::Pe(_) => None,
    }
}

/// The same by a frame table or the header of one.
fn found_function(
    image: &MemoryImage<'_>,
    frame: FrameInfo,
    address: u64,
) -> Option<DescribedFunction>
    ensures { result ≡ option_map function_of (found_by frame image.now address) }
{
    let steps = &mut Steps::new(NoLedger);
    match find_by_tables(image, address, frame, steps) {
        Some(found) => Some(DescribedFunction {
            start: found.fde.initial_address(),
            signal: found.fde.is_signal_trampoline(),
        }),
        None => None,
    }
}
