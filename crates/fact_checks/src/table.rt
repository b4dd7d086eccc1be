//! The descriptions of a module's frame table by their addresses.

ghost use Rattle.std.specs.Prelude.{◌≡◌, true, IfOk, IfSome};
ghost use Rattle.std.specs.Option.{option_map};
ghost use Rattle.unwind_definitions.specs.Row.{covers_pc};
ghost use Rattle.eh_frame.specs.EntryViews.{fde_of};
ghost use Rattle.fde_finders.specs.NamedTables.{named_of};
ghost use Rattle.fact_checks.specs.Looking.{IsIndexOf, description_at};

use eh_frame::{Fde, Prepared};
use fde_finders::NamedTable;
use memory_image::{NoLedger, Steps};
use std::alloc::{AllocError, Global};

/// An index of a frame table that no header's table lists, if it can be prepared.
pub(crate) fn index_of<'a>(
    alloc: Global,
    table: &NamedTable<'a>,
) -> Result<Option<Prepared<'a>>, AllocError>
    ensures { IfOk result (λ index. IsIndexOf (named_of table.now) index) }
{
    match table.pairs {
        Some(_) => Ok(None),
        None => Prepared::build(alloc, &table.frames, &table.bases, u32::MAX, u32::MAX),
    }
}

/// The description whose range contains an address: by a search of the header's table, or else of
/// the index, or where there is none, by a scan.
pub(crate) fn description_at<'a>(
    table: &NamedTable<'a>,
    index: &Option<Prepared<'a>>,
    pc: u64,
) -> Option<Fde<'a>>
    requires { IsIndexOf (named_of table.now) index.now }
    ensures found { option_map fde_of result ≡ description_at (named_of table.now) pc }
    ensures covers { IfSome result (λ fde. covers_pc (fde_of fde) pc ≡ true) }
{
    let mut steps = Steps::new(NoLedger);
    if let Some(pairs) = table.pairs {
        return pairs
            .fde_for_address(&table.frames, &table.bases, pc, &mut steps)
            .ok();
    }
    match index {
        Some(index) => match index.find(pc, &mut steps) {
            Some(found) => Some(found.fde),
            None => None,
        },
        None => table.frames.fde_for_address(&table.bases, pc).ok(),
    }
}
