//! A finder that is told where the header of one module's frame table lies.

ghost use Rattle.std.specs.Prelude.{◌≡◌};
ghost use Rattle.fde_finders.specs.Placed.{FindsByPlacedHeader};
ghost use Rattle.fde_finders.specs.HeaderCovering.{placed_header_contains};

use crate::find_fde::{FDEFinder, FDESearchResult};
use crate::tables::{relative_to, search_header};
use memory_image::{Ledger, MemoryImage, Steps};
use std::marker::Model;

/// A finder by the header of the frame table of one module, whose text begins at one address and
/// ends before another.
///
/// The header's table is searched, and where it gives an error or isn't there, the frame table is
/// scanned. Pointers that are relative to the text are relative to its start. Contracts see the
/// three addresses.
#[derive(Drop)]
pub struct GnuHdrFinder {
    text_start: u64,
    text_end: u64,
    eh_frame_hdr: u64,
}

impl Model for GnuHdrFinder {
    ghost use Rattle.fde_finders.specs.Placed.{Placed};

    ghost Value = { Placed };

    ghost view = { λ f. record { start = f.text_start; end = f.text_end; table = f.eh_frame_hdr } };
}

impl GnuHdrFinder {
    /// A finder for the text from `text_start` to before `text_end`, by the `.eh_frame_hdr` at
    /// `eh_frame_hdr`.
    pub fn new(text_start: u64, text_end: u64, eh_frame_hdr: u64) -> GnuHdrFinder
        ensures { result ≡ record { start = text_start; end = text_end; table = eh_frame_hdr } }
    {
        GnuHdrFinder {
            text_start,
            text_end,
            eh_frame_hdr,
        }
    }
}

impl FDEFinder for GnuHdrFinder {
    ghost finds = { FindsByPlacedHeader };

    fn find_fde<'a, L: Ledger>(
        &self,
        image: &MemoryImage<'a>,
        pc: u64,
        steps: &mut Steps<L>,
    ) -> Option<FDESearchResult<'a>> {
        if self.text_start <= pc && pc < self.text_end {
            let known = relative_to(Some(self.text_start), None);
            search_header(image, pc, &known, self.eh_frame_hdr, steps)
        } else {
            None
        }
    }

    ghost contains = { placed_header_contains };
}
