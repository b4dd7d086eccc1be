//! A finder that is told where the frame tables lie.

ghost use Rattle.std.specs.Prelude.{◌≡◌, ◌≢◌, ◌+◌, ℕ, Option, Some, None, OnOk, OnErr};
ghost use Rattle.std.specs.Option.{option_map};
ghost use Rattle.fde_finders.specs.declared.custom.FrameInfo.{FrameInfo};
ghost use Rattle.fde_finders.specs.FoundViews.{found_fde_of};
ghost use Rattle.unwind_definitions.specs.HeaderSearch.{SearchTakes};
ghost use Rattle.fde_finders.specs.Named.{found_by, pairs_by, FindsBy};
ghost use Rattle.fde_finders.specs.HeaderCovering.{named_contains};

use crate::find_fde::{FDEFinder, FDESearchResult};
use crate::tables::{relative_to, scan, search_header};
use memory_image::{Ledger, MemoryImage, Steps};
use std::marker::Model;

/// Which of its frame tables a module names, by the table's address.
#[derive(Clone, Copy, Debug, PartialEq, Eq)]
pub enum FrameInfoKind {
    /// A `.eh_frame_hdr`, which leads to the frame table and sorts its descriptions.
    EhFrameHdr(u64),
    /// A `.eh_frame`.
    EhFrame(u64),
}

/// Where the frame tables of a module lie.
#[derive(Clone, Copy, Debug, PartialEq, Eq)]
pub struct FrameInfo {
    /// The base of pointers that are relative to the text, where it is known.
    pub text_base: Option<u64>,
    /// The table that is named.
    pub kind: FrameInfoKind,
}

/// What knows where the frame tables of the code at an address lie.
///
/// Contracts see which tables may be named for an address.
pub trait EhFrameFinder: Drop {
    /// Whether these tables, or none, may be named for an address.
    ghost names: { Self → ℕ → Option FrameInfo → Type 0 };

    /// The frame tables of the code at the address `pc`, `None` where none are known.
    fn find(&self, pc: u64) -> Option<FrameInfo>
        ensures { names self.now pc result };
}

/// A finder is set already.
#[derive(Clone, Copy, Debug, PartialEq, Eq, thiserror::Error)]
#[error("a finder is set already")]
pub struct SetCustomEhFrameFinderError;

/// A finder by the tables that another value names: by a `.eh_frame_hdr` as [`GnuHdrFinder`] does,
/// and by a `.eh_frame` by a scan. It finds nothing until that value is set.
///
/// [`GnuHdrFinder`]: crate::GnuHdrFinder
#[derive(Drop)]
pub struct CustomFinder<E: EhFrameFinder> {
    finder: Option<E>,
}

impl<E: EhFrameFinder> Model for CustomFinder<E> {
    ghost use Rattle.std.specs.Prelude.{Option};

    ghost Value = { Option E };

    ghost view = { λ f. f.finder };
}

impl<E: EhFrameFinder> CustomFinder<E> {
    /// A finder that nothing is set in.
    pub fn new() -> CustomFinder<E>
        ensures { result ≡ None }
    {
        CustomFinder { finder: None }
    }

    /// Sets what names the frame tables, once and for all.
    ///
    /// # Errors
    ///
    /// `SetCustomEhFrameFinderError` exactly where it is set already, and then it stays.
    pub fn set_custom_eh_frame_finder(
        &mut self,
        finder: E,
    ) -> Result<(), SetCustomEhFrameFinderError>
        ensures set { OnOk result ((self.old ≡ None) × (self.new ≡ Some finder)) }
        ensures refused { OnErr result ((self.old ≢ None) × (self.new ≡ self.old)) }
    {
        if self.finder.is_some() {
            return Err(SetCustomEhFrameFinderError);
        }
        self.finder = Some(finder);
        Ok(())
    }
}

impl<E: EhFrameFinder> FDEFinder for CustomFinder<E> {
    ghost finds = { FindsBy E.names };

    fn find_fde<'a, L: Ledger>(
        &self,
        image: &MemoryImage<'a>,
        pc: u64,
        steps: &mut Steps<L>,
    ) -> Option<FDESearchResult<'a>> {
        let info = self.finder.as_ref()?.find(pc)?;
        find_by_tables(image, pc, info, steps)
    }

    ghost contains = { λ finder image pc found ticks. named_contains E.names finder image pc found
        ticks };
}

/// The description that a table of a module finds: a frame table by a scan, a header by its table.
pub fn find_by_tables<'a, L: Ledger>(
    image: &MemoryImage<'a>,
    pc: u64,
    info: FrameInfo,
    steps: &mut Steps<L>,
) -> Option<FDESearchResult<'a>>
    ensures found { option_map found_fde_of result ≡ found_by info image.now pc }
    ensures ticks { (taken : ℕ) × (steps.new.number ≡ steps.old.number + taken)
        × SearchTakes (pairs_by info image.now) taken }
{
    let known = relative_to(info.text_base, None);
    match info.kind {
        FrameInfoKind::EhFrame(table) => scan(image, pc, &known, table),
        FrameInfoKind::EhFrameHdr(header) => search_header(image, pc, &known, header, steps),
    }
}
