// The summary of a delivery.
ghost use Rattle.std.specs.Prelude.{◌≡◌, ◌++◌, IfOk, OnOk};
ghost use Rattle.stack_report.specs.Summary.{count_line, summary_in};

use crate::buffer::Report;
use crate::delivery::put_outcome;
use stack_deliver::Outcome;
use std::alloc::{AllocError, Global};

/// How large a delivery over generated functions was.
#[derive(Clone, Copy, Debug, PartialEq, Eq)]
pub struct Summary {
    /// How many functions there are.
    pub functions: u32,
    /// How many states the search visited.
    pub frames: usize,
    /// How many cleanups ran.
    pub cleanups: usize,
    /// How the delivery ended.
    pub outcome: Outcome,
    /// How many entries of tables were looked at.
    pub probes: u64,
}

/// Puts what is counted, and its number.
#[tactic(auto, unfolding(crate::specs::Summary::count_line))]
pub(crate) fn put_count_line(
    report: &mut Report,
    label: &str,
    count: usize,
) -> Result<(), AllocError>
    ensures { OnOk result (report.new ≡ report.old ++ count_line label.now count) }
{
    report.put_count(label, count)?;
    report.end_line()
}

/// A line for each part of the summary.
///
/// # Errors
///
/// `AllocError` where memory ran out.
pub fn summary_of(alloc: Global, summary: &Summary) -> Result<Report, AllocError>
    ensures { IfOk result (λ report. report ≡ summary_in summary.now) }
{
    let mut report = Report::new(alloc);
    put_count_line(&mut report, "functions ", summary.functions as usize)?;
    put_count_line(&mut report, "frames ", summary.frames)?;
    put_count_line(&mut report, "cleanups ", summary.cleanups)?;
    put_outcome(&mut report, summary.outcome)?;
    put_count_line(&mut report, "probes ", summary.probes as usize)?;
    Ok(report)
}
