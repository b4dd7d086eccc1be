//! A finder that is told where one module's frame table lies.

ghost use Rattle.std.specs.Prelude.{◌≡◌};
ghost use Rattle.fde_finders.specs.Placed.{FindsPlaced};
ghost use Rattle.fde_finders.specs.HeaderCovering.{placed_contains};

use crate::find_fde::{FDEFinder, FDESearchResult};
use crate::tables::{relative_to, scan};
use memory_image::{Ledger, MemoryImage, Steps};
use std::marker::Model;

/// A finder by a scan of the frame table of one module, whose text begins at one address and ends
/// before another.
///
/// Pointers that are relative to the text are relative to its start. Contracts see the three
/// addresses.
#[derive(Drop)]
pub struct StaticFinder {
    text_start: u64,
    text_end: u64,
    eh_frame: u64,
}

impl Model for StaticFinder {
    ghost use Rattle.fde_finders.specs.Placed.{Placed};

    ghost Value = { Placed };

    ghost view = { λ f. record { start = f.text_start; end = f.text_end; table = f.eh_frame } };
}

impl StaticFinder {
    /// A finder for the text from `text_start` to before `text_end`, by the `.eh_frame` at
    /// `eh_frame`.
    pub fn new(text_start: u64, text_end: u64, eh_frame: u64) -> StaticFinder
        ensures { result ≡ record { start = text_start; end = text_end; table = eh_frame } }
    {
        StaticFinder {
            text_start,
            text_end,
            eh_frame,
        }
    }
}

impl FDEFinder for StaticFinder {
    ghost finds = { FindsPlaced };

    fn find_fde<'a, L: Ledger>(
        &self,
        image: &MemoryImage<'a>,
        pc: u64,
        steps: &mut Steps<L>,
    ) -> Option<FDESearchResult<'a>> {
        let _ = steps;
        if self.text_start <= pc && pc < self.text_end {
            scan(
                image,
                pc,
                &relative_to(Some(self.text_start), None),
                self.eh_frame,
            )
        } else {
            None
        }
    }

    ghost contains = { placed_contains };
}
