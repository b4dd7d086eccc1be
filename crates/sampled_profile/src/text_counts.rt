// The counts of stacks by their texts.
ghost use Rattle.std.specs.Prelude.{◌≡◌, ◌<◌, ◌^◌, IfOk, List, ℕ};
ghost use Rattle.folded_stacks.specs.Counts.{counts_of};
ghost use Rattle.sampled_profile.specs.Tables.{ShowsStacks, total_of};

use crate::counts::StackCounts;
use crate::frame_texts::FrameTexts;
use crate::stack_table::StackTable;
use stack_report::Report;
use stack_snapshot::Origins;
use std::alloc::{AllocError, Global};

/// The texts of stacks, by the files of their frames, with the number of the samples that show each.
///
/// # Errors
///
/// `AllocError` where memory ran out.
pub(crate) fn counts_by_text(
    alloc: Global,
    origins: &Origins,
    table: &StackTable,
) -> Result<StackCounts, AllocError>
    requires { total_of table.now.counts.entries < 2 ^ 64 }
    ensures { IfOk result (λ counts. (stacks : List (List ℕ)) →
        ShowsStacks origins.now table.now.counts.entries stacks → counts ≡ counts_of stacks) }
{
    let mut texts = FrameTexts::new(alloc, origins)?;
    let mut counts = StackCounts::new(alloc);
    let mut text = Report::new(alloc);
    for (stack, count) in &table.counts {
        text.clear();
        texts.put_stack(&mut text, stack)?;
        counts.add(text.bytes(), *count)?;
    }
    Ok(counts)
}
