//! Descriptions of the code of claimed functions. LSB, section on `.eh_frame`.

ghost use Rattle.std.specs.Prelude.{◌≡◌, ◌+◌};
ghost use Rattle.std.specs.Bool.{Decides};
ghost use Rattle.unwind_definitions.specs.Prologue.{SystemV};
ghost use Rattle.unwind_definitions.specs.Function.{IsFunction};
ghost use Rattle.unwind_definitions.specs.FrameTable.{DescribesCode};
ghost use Rattle.encoded_pointers.specs.PointerViews.{bases_of};
ghost use Rattle.eh_frame.specs.EntryViews.{fde_of};
ghost use Rattle.table_check.specs.ClaimViews.{function_of};

use crate::cies::is_emitted_cie;
use crate::claims::Claim;
use crate::programs::has_rows;
use eh_frame::{Bases, Fde, RowWalk};
use memory_image::MemoryImage;

/// Whether a description that has a claimed function's range describes its code: its common
/// information entry is of the form that compilers emit and stands before it, and its rows are
/// those of the function's steps and bodies.
pub(crate) fn describes_code<'a>(
    image: &MemoryImage<'_>,
    claim: &Claim,
    fde: &Fde<'a>,
    bases: &Bases,
    walk: &mut RowWalk<'a>,
) -> bool
    requires function { IsFunction SystemV (function_of claim.now) }
    requires start { (fde_of fde.now).start ≡ claim.now.start }
    requires end { (fde_of fde.now).start + (fde_of fde.now).size ≡ claim.now.end }
    ensures { Decides result (DescribesCode image.now (bases_of bases.now)
        (function_of claim.now) (fde_of fde.now)) }
{
    let cie = fde.cie();
    is_emitted_cie(image, &cie) && cie.offset() < fde.offset() && has_rows(claim, fde, bases, walk)
}
