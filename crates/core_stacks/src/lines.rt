// The lines in the report's place.
ghost use Rattle.std.specs.Prelude.{◌≡◌, IfOk};
ghost use Rattle.core_stacks.specs.Lines.{usage_line};

use stack_report::{Report, line_of};
use std::alloc::{AllocError, Global};

/// Says what the words may be, in a line.
pub(crate) fn usage_line(alloc: Global) -> Result<Report, AllocError>
    ensures { IfOk result (λ report. report ≡ usage_line) }
{
    line_of(alloc, "usage: core_stacks [--names] CORE")
}
