// The report of folded samples.
ghost use Rattle.std.specs.Prelude.{◌≡◌, ◌++◌, IfOk, OnOk};
ghost use Rattle.folded_stacks.specs.Counts.{stack_count};
ghost use Rattle.stack_report.specs.Folds.{fold_line, fold_lines, fold_report_of};
ghost use Rattle.stack_report.specs.Folds.{other_addresses, stack_text};

use crate::buffer::Report;
use crate::summary::put_count_line;
use folded_stacks::Folded;
use std::alloc::{AllocError, Global};

/// Puts the addresses after the first.
fn put_others(report: &mut Report, others: &[u64]) -> Result<(), AllocError>
    ensures { OnOk result (report.new ≡ report.old ++ other_addresses others.now) }
{
    for address in others {
        report.put_field(";", *address)?;
    }
    Ok(())
}

/// Puts the return addresses of a stack, the outermost first, or that there are none.
fn put_stack(report: &mut Report, stack: &[u64]) -> Result<(), AllocError>
    ensures { OnOk result (report.new ≡ report.old ++ stack_text stack.now) }
{
    let Some((first, others)) = stack.split_first() else {
        return report.put("[end]");
    };
    report.put_field("", *first)?;
    put_others(report, others)
}

/// Puts the line of a stack and of how many samples show it.
#[tactic(auto, unfolding(crate::specs::Folds::fold_line))]
fn put_fold(report: &mut Report, stack: &[u64], count: u64) -> Result<(), AllocError>
    ensures { OnOk result (report.new ≡ report.old ++ fold_line (stack_count stack.now count)) }
{
    put_stack(report, stack)?;
    report.put_count(" ", count as usize)?;
    report.end_line()
}

/// Puts a line for each stack.
fn put_folds(report: &mut Report, folded: &Folded) -> Result<(), AllocError>
    ensures { OnOk result (report.new ≡ report.old ++ fold_lines folded.now.lines) }
{
    for index in 0..folded.len() {
        let stack = folded.stack(index).unwrap();
        let count = folded.count(index).unwrap();
        put_fold(report, stack, count)?;
    }
    Ok(())
}

/// The report of folded samples: a line for each stack, with its return addresses, the outermost
/// first, and how many samples show it; and how many samples were refused.
///
/// # Errors
///
/// `AllocError` where memory ran out.
pub fn fold_report_of(alloc: Global, folded: &Folded) -> Result<Report, AllocError>
    ensures { IfOk result (λ report. report ≡ fold_report_of folded.now) }
{
    let mut report = Report::new(alloc);
    put_folds(&mut report, folded)?;
    put_count_line(&mut report, "refused ", folded.refused() as usize)?;
    Ok(report)
}
