// Why a core file isn't walked.
ghost use Rattle.std.specs.Prelude.{◌≡◌, IfOk};
ghost use Rattle.core_walks.specs.Lines.{cause_name, core_refused_line, region_refused_line};

use core_file::CoreError;
use stack_report::{Report, labelled_line_of};
use std::alloc::{AllocError, Global};

/// Why bytes are no core file, in words.
fn cause_name(error: CoreError) -> &'static str
    ensures { result.now ≡ cause_name error }
{
    match error {
        CoreError::Header => "header",
        CoreError::ManySegments => "many segments",
        CoreError::Segments => "segments",
        CoreError::Notes => "notes",
    }
}

/// Says why bytes are no core file, in a line.
///
/// # Errors
///
/// `AllocError` where memory ran out.
pub fn core_refused_line(alloc: Global, error: CoreError) -> Result<Report, AllocError>
    ensures { IfOk result (λ report. report ≡ core_refused_line error) }
{
    labelled_line_of(alloc, "refused: core ", cause_name(error))
}

/// Says which segment of a core file an image refuses, in a line.
///
/// # Errors
///
/// `AllocError` where memory ran out.
pub fn region_refused_line(alloc: Global, index: usize) -> Result<Report, AllocError>
    ensures { IfOk result (λ report. report ≡ region_refused_line index) }
{
    let mut report = Report::new(alloc);
    report.put_count("refused: core region ", index)?;
    report.end_line()?;
    Ok(report)
}
