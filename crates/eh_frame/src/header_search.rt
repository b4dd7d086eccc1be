//! The search of a header's table for an address.

ghost use Rattle.std.specs.Prelude.{◌≡◌, ◌≢◌, ◌+◌, ◌⊎◌, ℕ, IfErr, IfOk};
ghost use Rattle.unwind_definitions.specs.HeaderSearch.{SearchTakes, IsNamed, IsNamedElsewhere};
ghost use Rattle.unwind_definitions.specs.HeaderSearch.{IsTableAnswer, IsUnreadableNamed};
ghost use Rattle.unwind_definitions.specs.HeaderSearch.{IsUnreadablePair};
ghost use Rattle.unwind_definitions.specs.HeaderSearch.{StartsAbove, boundary_in, containing};
ghost use Rattle.unwind_definitions.specs.HeaderSearch.{found_by};
ghost use Rattle.unwind_definitions.specs.HeaderSearch.{table_answer};
ghost use Rattle.encoded_pointers.specs.Readers.{Answers};
ghost use Rattle.encoded_pointers.specs.PointerViews.{bases_of};
ghost use Rattle.eh_frame.specs.EntryViews.{fde_of, table_of};
ghost use Rattle.eh_frame.specs.HeaderViews.{answer_of, pairs_of};

use crate::entries::EhFrame;
use crate::fde::Fde;
use crate::header::HdrTable;
use encoded_pointers::Bases;
use memory_image::{Ledger, Steps};
use unwind_definitions::Error;

impl<'a> HdrTable<'a> {
    /// The description of the function that contains the address `pc`, by a search that halves.
    ///
    /// The search finds a boundary: an entry that starts at or before `pc`, and the next one, if
    /// there is one, after it. In an ascending table there is one at most; in another the one that
    /// halving leads to is found. Its description is the answer where it contains `pc`. `frame` is
    /// the frame table, and `bases` what its pointers may be relative to.
    ///
    /// Each entry that is read takes one counted step, and there are no more of these than binary
    /// digits in `len`.
    ///
    /// # Errors
    ///
    /// - `NoUnwindInfoForAddress` where there is no boundary, or its description doesn't contain
    ///   `pc`;
    /// - the error of an entry that the search reads;
    /// - that of the boundary's description: `UnexpectedEof` where its address is below the frame
    ///   table's, and else that of [`EhFrame::fde_at`].
    pub fn fde_for_address<L: Ledger>(
        &self,
        frame: &EhFrame<'a>,
        bases: &Bases,
        pc: u64,
        steps: &mut Steps<L>,
    ) -> Result<Fde<'a>, Error>
        ensures exact { Answers fde_of result
            (table_answer (bases_of bases.now) (table_of frame.now) (pairs_of self.now) pc) }
        ensures answer { IsTableAnswer (bases_of bases.now) (table_of frame.now) (pairs_of self.now)
            pc (answer_of result) }
        ensures named { IfOk result (λ fde.
            IsNamed (bases_of bases.now) (table_of frame.now) (pairs_of self.now) pc (fde_of fde)) }
        ensures none { result ≡ Err Error.NoUnwindInfoForAddress →
            StartsAbove (pairs_of self.now) pc
            ⊎ IsNamedElsewhere (bases_of bases.now) (table_of frame.now) (pairs_of self.now) pc }
        ensures fault { IfErr result (λ e. e ≢ Error.NoUnwindInfoForAddress →
            IsUnreadablePair (pairs_of self.now) e
            ⊎ IsUnreadableNamed (bases_of bases.now) (table_of frame.now) (pairs_of self.now) pc
            e) }
        ensures ticks { (taken : ℕ) × (steps.new.number ≡ steps.old.number + taken)
            × SearchTakes (pairs_of self.now).count taken }
    {
        self.search(frame, bases, pc, steps)
    }

    // The description that a boundary names.
    fn search<L: Ledger>(
        &self,
        frame: &EhFrame<'a>,
        bases: &Bases,
        pc: u64,
        steps: &mut Steps<L>,
    ) -> Result<Fde<'a>, Error>
        ensures exact { Answers fde_of result
            (table_answer (bases_of bases.now) (table_of frame.now) (pairs_of self.now) pc) }
        ensures ticks { (taken : ℕ) × (steps.new.number ≡ steps.old.number + taken)
            × SearchTakes (pairs_of self.now).count taken }
    {
        let entry = self.boundary(pc, steps)?;
        named_fde(entry, frame, bases, pc)
    }

    // The boundary for an address that halving leads to.
    fn boundary<L: Ledger>(
        &self,
        pc: u64,
        steps: &mut Steps<L>,
    ) -> Result<Option<(u64, u64)>, Error>
        ensures exact { Answers (λ x. x) result (boundary_in (pairs_of self.now) pc) }
        ensures ticks { (taken : ℕ) × (steps.new.number ≡ steps.old.number + taken)
            × SearchTakes (pairs_of self.now).count taken }
    {
        let mut low = 0;
        let mut high = self.len();
        let mut found = None;
        while low < high {
            let middle = low + (high - low) / 2;
            let entry = self.entry(middle, steps)?;
            if entry.0 <= pc {
                found = Some(entry);
                low = middle + 1;
            } else {
                high = middle;
            }
        }
        Ok(found)
    }
}

// The description that an entry names, where there is one and it contains an address.
fn named_fde<'a>(
    entry: Option<(u64, u64)>,
    frame: &EhFrame<'a>,
    bases: &Bases,
    pc: u64,
) -> Result<Fde<'a>, Error>
    ensures { Answers fde_of result
        (found_by (bases_of bases.now) (table_of frame.now) pc (Ok entry)) }
{
    match entry {
        None => Err(Error::NoUnwindInfoForAddress),
        Some((_, address)) => containing(frame.fde_at_address(bases, address)?, pc),
    }
}

// A description, where it contains an address.
fn containing<'a>(fde: Fde<'a>, pc: u64) -> Result<Fde<'a>, Error>
    ensures { Answers fde_of result (containing pc (fde_of fde.entry)) }
{
    if fde.contains(pc) {
        Ok(fde)
    } else {
        Err(Error::NoUnwindInfoForAddress)
    }
}
