//! A finder by whichever finders a program has.

ghost use Rattle.std.specs.Prelude.{◌≡◌, ◌+◌, ℕ};
ghost use Rattle.std.specs.Option.{option_map};
ghost use Rattle.fde_finders.specs.FoundViews.{found_fde_of};
ghost use Rattle.fde_finders.specs.InTurn.{FindsIfThere};
ghost use Rattle.fde_finders.specs.Globally.{FindsInObjects, FindsInTurn};
ghost use Rattle.fde_finders.specs.GlobalCovering.{in_turn_contains};

use crate::custom::{CustomFinder, EhFrameFinder};
use crate::find_fde::{FDEFinder, FDESearchResult};
use crate::fixed::StaticFinder;
use crate::gnu_eh_frame_hdr::GnuHdrFinder;
use crate::phdr::PhdrFinder;
use crate::registry::Registry;
use memory_image::{Ledger, MemoryImage, Steps};

/// A finder by the first of its finders, in the order of its fields, that finds a description.
#[derive(Drop)]
pub struct GlobalFinder<'p, E: EhFrameFinder> {
    /// By tables that another value names.
    pub custom: Option<CustomFinder<E>>,
    /// By frame tables that are registered.
    pub registry: Option<Registry>,
    /// By the header of one module's frame table.
    pub gnu: Option<GnuHdrFinder>,
    /// By the program headers of loaded objects.
    pub phdr: Option<PhdrFinder<'p>>,
    /// By the frame table of one module.
    pub fixed: Option<StaticFinder>,
}

impl<'p, E: EhFrameFinder> FDEFinder for GlobalFinder<'p, E> {
    ghost finds = { λ f image pc. FindsInTurn E.names f.custom f.registry f.gnu f.phdr f.fixed image
        pc };

    fn find_fde<'a, L: Ledger>(
        &self,
        image: &MemoryImage<'a>,
        pc: u64,
        steps: &mut Steps<L>,
    ) -> Option<FDESearchResult<'a>> {
        if let Some(found) = ask(&self.custom, image, pc, steps) {
            return Some(found);
        }
        if let Some(found) = ask(&self.registry, image, pc, steps) {
            return Some(found);
        }
        find_in_objects(&self.gnu, &self.phdr, &self.fixed, image, pc, steps)
    }

    ghost contains = { λ f image pc found ticks finds. in_turn_contains image pc E.names f.custom
        f.registry f.gnu f.phdr f.fixed found ticks finds };
}

// The description that the finders find that know where their tables lie.
fn find_in_objects<'a, L: Ledger>(
    gnu: &Option<GnuHdrFinder>,
    phdr: &Option<PhdrFinder<'_>>,
    fixed: &Option<StaticFinder>,
    image: &MemoryImage<'a>,
    pc: u64,
    steps: &mut Steps<L>,
) -> Option<FDESearchResult<'a>>
    ensures { (ticks : ℕ) × (steps.new.number ≡ steps.old.number + ticks)
        × FindsInObjects gnu.now phdr.now fixed.now image.now pc (option_map found_fde_of result)
        ticks }
{
    if let Some(found) = ask(gnu, image, pc, steps) {
        return Some(found);
    }
    if let Some(found) = ask(phdr, image, pc, steps) {
        return Some(found);
    }
    ask(fixed, image, pc, steps)
}

// The description that a finder finds, where it is there.
fn ask<'a, F: FDEFinder, L: Ledger>(
    finder: &Option<F>,
    image: &MemoryImage<'a>,
    pc: u64,
    steps: &mut Steps<L>,
) -> Option<FDESearchResult<'a>>
    ensures { (ticks : ℕ) × (steps.new.number ≡ steps.old.number + ticks)
        × FindsIfThere (λ f. F.finds f image.now pc) finder.now (option_map found_fde_of result) ticks }
{
    finder.as_ref()?.find_fde(image, pc, steps)
}
