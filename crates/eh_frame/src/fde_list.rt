//! Descriptions, with a list of the common information entries that they name.

ghost use Rattle.std.specs.Prelude.{◌≡◌, ◌↔◌, ◌++◌, ◌∷◌, ◌<◌, [], IfOk, IfSome, OnOk, length, true};
ghost use Rattle.unwind_definitions.specs.Entries.{fde_body};
ghost use Rattle.encoded_pointers.specs.CursorViews.{at};
ghost use Rattle.encoded_pointers.specs.PointerViews.{bases_of};
ghost use Rattle.eh_frame.specs.FdeLists.{AddsFde, cie_in};

use crate::cie::Cie;
use crate::indexed_fde::IndexedFde;
use crate::prepared::PreparedFunction;
use encoded_pointers::{Bases, Cursor};
use std::alloc::{AllocError, Global};

// How many bytes most descriptions have at least, with what stands before them.
const FDE_SIZE: usize = 32;

/// Descriptions, each with place for its rows, and the common information entries that they name:
/// each once where they ascend in the table, as in most, and else again where it isn't found.
#[derive(Drop)]
pub(crate) struct FdeList<'a> {
    pub(crate) cies: Vec<Cie<'a>>,
    pub(crate) fdes: Vec<PreparedFunction<'a>>,
    /// The indexes of the last two common information entries that were found.
    pub(crate) last: usize,
    pub(crate) before: usize,
}

impl<'a> FdeList<'a> {
    /// An empty list, with room for as many descriptions as most tables of so many bytes have.
    ///
    /// # Errors
    ///
    /// Where memory runs out.
    pub(crate) fn for_table(alloc: Global, size: usize) -> Result<FdeList<'a>, AllocError>
        ensures cies { IfOk result (λ list. list.cies.items ≡ []) }
        ensures fdes { IfOk result (λ list. list.fdes.items ≡ []) }
    {
        Ok(FdeList {
            cies: Vec::new(alloc),
            fdes: Vec::with_capacity(alloc, size / FDE_SIZE)?,
            last: 0,
            before: 0,
        })
    }

    /// The index of the common information entry at an offset, where it is one of the last two that
    /// were found.
    #[inline(always)]
    pub(crate) fn recent(&mut self, offset: u64) -> Option<usize>
        ensures index { IfSome result (λ i. (i < length self.old.cies.items) ×
            ((cie_in self.old.cies.items i).offset ≡ offset)) }
        ensures cies { self.new.cies ≡ self.old.cies }
        ensures fdes { self.new.fdes ≡ self.old.fdes }
    {
        if self.stands_at(self.last, offset) {
            return Some(self.last);
        }
        let index = self.before;
        if !self.stands_at(index, offset) {
            return None;
        }
        self.move_to(index);
        Some(index)
    }

    /// The same where one is found. They ascend in most tables, in which it is found if it is listed.
    pub(crate) fn search(&mut self, offset: u64) -> Option<usize>
        ensures index { IfSome result (λ i. (i < length self.old.cies.items) ×
            ((cie_in self.old.cies.items i).offset ≡ offset)) }
        ensures cies { self.new.cies ≡ self.old.cies }
        ensures fdes { self.new.fdes ≡ self.old.fdes }
    {
        let index = self.cies_up_to(offset).checked_sub(1)?;
        if !self.stands_at(index, offset) {
            return None;
        }
        self.move_to(index);
        Some(index)
    }

    // Makes a common information entry the last that was found.
    fn move_to(&mut self, index: usize)
        ensures cies { self.new.cies ≡ self.old.cies }
        ensures fdes { self.new.fdes ≡ self.old.fdes }
    {
        self.before = self.last;
        self.last = index;
    }

    // Whether a common information entry of the list is the one at an offset.
    fn stands_at(&self, index: usize, offset: u64) -> bool
        ensures { (result ≡ true) ↔ ((index < length self.now.cies.items) ×
            ((cie_in self.now.cies.items index).offset ≡ offset)) }
    {
        match self.cies.get(index) {
            Some(cie) => cie.offset() == offset,
            None => false,
        }
    }

    // How many common information entries stand at or before an offset, where they ascend.
    fn cies_up_to(&self, offset: u64) -> usize {
        let mut low = 0;
        let mut high = self.cies.len();
        while low < high {
            let middle = low + (high - low) / 2;
            if self.cies[middle].offset() <= offset {
                low = middle + 1;
            } else {
                high = middle;
            }
        }
        low
    }

    /// Adds a common information entry, and answers its index.
    pub(crate) fn push_cie(&mut self, cie: Cie<'a>) -> Result<usize, AllocError>
        ensures index { IfOk result (λ index. index ≡ length self.old.cies.items) }
        ensures cies { OnOk result (self.new.cies.items ≡ self.old.cies.items ++ cie.entry ∷ []) }
        ensures fdes { self.new.fdes ≡ self.old.fdes }
    {
        let index = self.cies.len();
        self.cies.push(cie)?;
        Ok(index)
    }

    /// Adds the description of the entry at `offset` where its range isn't empty. `body` is what
    /// stands after its first four bytes, and its common information entry stands at `cie`.
    /// `false` where it can't be read.
    #[inline(always)]
    pub(crate) fn push_fde(
        &mut self,
        cie: usize,
        offset: u64,
        body: Cursor<'a>,
        bases: &Bases,
    ) -> Result<bool, AllocError>
        requires { cie < length self.old.cies.items }
        ensures adds { IfOk result (λ readable. AddsFde
            (fde_body (bases_of bases.now) (cie_in self.old.cies.items cie) offset (at body.entry))
            self.old.cies.items self.old.fdes.items readable self.new.fdes.items) }
        ensures cies { self.new.cies ≡ self.old.cies }
    {
        match IndexedFde::read(&self.cies[cie], cie, offset, body, bases) {
            Ok(fde) => {
                if fde.len > 0 {
                    self.fdes.push(PreparedFunction::without_rows(fde))?;
                }
                Ok(true)
            }
            Err(_) => Ok(false),
        }
    }
}
