//! Finders: which description holds an address.

ghost use Rattle.std.specs.Prelude.{◌≡◌, ◌+◌, ℕ, List, Option, Some, IsTrue};
ghost use Rattle.std.specs.Option.{option_map};
ghost use Rattle.memory_image.specs.Image.{Span};
ghost use Rattle.unwind_definitions.specs.Row.{covers_pc, row_at};
ghost use Rattle.frame_rows.specs.Rows.{GivesRow, row_in_place};
ghost use Rattle.fde_finders.specs.Finding.{FoundFde};
ghost use Rattle.fde_finders.specs.FoundViews.{found_fde_of};

use eh_frame::{Bases, EhFrame, Error, Fde, RowRoom};
use memory_image::{Ledger, MemoryImage, Steps};
use std::fmt;

/// The description of the function at an address, as a finder answers it.
#[derive(Clone, Copy)]
pub struct FDESearchResult<'a> {
    /// The description, which contains the address.
    pub fde: Fde<'a>,
    /// What the pointers of its table may be relative to.
    pub bases: Bases,
    /// The table that it stands in.
    pub eh_frame: EhFrame<'a>,
}

impl<'a> FDESearchResult<'a> {
    /// Makes the row at an address of the function in `rows`, in place of the one that was made
    /// there before.
    ///
    /// # Errors
    ///
    /// The first fault of the row: those of [`Fde::unwind_info_for_address`].
    pub fn make_row(&self, address: u64, rows: &mut RowRoom<'a>) -> Result<(), Error>
        ensures row { GivesRow (row_in_place result rows.new)
            (row_at (found_fde_of self.now).bases (found_fde_of self.now).fde address) }
    {
        self.fde
            .make_row(&self.eh_frame, &self.bases, address, rows)
    }
}

impl fmt::Debug for FDESearchResult<'_> {
    /// The addresses of the function, and what the pointers of its table may be relative to. The
    /// table's bytes, which may be many, are left out.
    fn fmt<W: fmt::Write>(&self, f: &mut fmt::Formatter<W>) -> fmt::Result {
        let start = self.fde.initial_address();
        let len = self.fde.len();
        write!(
            f,
            "FDESearchResult {{ start: {start:#x}, len: {len:#x}, bases: {:?} }}",
            self.bases
        )
    }
}

/// What finds the description of the function at an address.
///
/// Contracts see which answers a finder may give for an image and an address, each with a number
/// of counted steps. A finder gives one of these.
pub trait FDEFinder {
    /// Whether the finder may give an answer, in so many counted steps.
    ghost finds: { Self → List Span → ℕ → Option FoundFde → ℕ → Type 0 };

    /// The description of the function that holds the address `pc`, `None` where none is found.
    ///
    /// The finders of this crate count a step where they read an entry of a header's table, and
    /// nowhere else.
    fn find_fde<'a, L: Ledger>(
        &self,
        image: &MemoryImage<'a>,
        pc: u64,
        steps: &mut Steps<L>,
    ) -> Option<FDESearchResult<'a>>
        ensures found { (ticks : ℕ) × (steps.new.number ≡ steps.old.number + ticks) ×
            finds self.now image.now pc (option_map found_fde_of result) ticks };

    /// A description that is found contains the address.
    ghost contains: { (finder : Self) (image : List Span) (pc : ℕ) (found : FoundFde) (ticks : ℕ) →
        finds finder image pc (Some found) ticks → IsTrue (covers_pc found.fde pc) };
}
