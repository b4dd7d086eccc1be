// The lines in the profile's place.
ghost use Rattle.std.specs.Prelude.{◌≡◌, ◌++◌, IfOk, OnOk};
ghost use Rattle.profile.specs.Lines.{at_text, cause_text, refused_line, usage_line};

use perf_data::PerfError;
use stack_report::{Report, line_of};
use std::alloc::{AllocError, Global};

/// Puts a word and the offset of a record last.
fn put_at(report: &mut Report, word: &str, offset: u64) -> Result<(), AllocError>
    ensures { OnOk result (report.new ≡ report.old ++ at_text word.now offset) }
{
    report.put(word)?;
    report.put_field(" record at ", offset)
}

/// Puts why a perf.data file isn't read last.
fn put_cause(report: &mut Report, error: PerfError) -> Result<(), AllocError>
    ensures { OnOk result (report.new ≡ report.old ++ cause_text error) }
{
    match error {
        PerfError::ByteOrder => report.put("byte order"),
        PerfError::Pipe => report.put("pipe"),
        PerfError::Header => report.put("header"),
        PerfError::Unfinished => report.put("unfinished"),
        PerfError::Attributes => report.put("attributes"),
        PerfError::Layouts => report.put("layouts"),
        PerfError::Machine => report.put("machine"),
        PerfError::Records => report.put("records"),
        PerfError::Cut(offset) => put_at(report, "cut", offset),
        PerfError::Size(offset) => put_at(report, "small", offset),
        PerfError::Body(offset) => put_at(report, "short", offset),
        PerfError::Compressed(offset) => put_at(report, "compressed", offset),
        PerfError::Trailing(offset) => put_at(report, "trailed", offset),
    }
}

/// Says why a perf.data file isn't read.
///
/// # Errors
///
/// `AllocError` where memory ran out.
pub fn refused_line(alloc: Global, error: PerfError) -> Result<Report, AllocError>
    ensures { IfOk result (λ report. report ≡ refused_line error) }
{
    let mut report = Report::new(alloc);
    report.put("refused: perf.data ")?;
    put_cause(&mut report, error)?;
    report.end_line()?;
    Ok(report)
}

/// Says which words there are.
///
/// # Errors
///
/// `AllocError` where memory ran out.
pub fn usage_line(alloc: Global) -> Result<Report, AllocError>
    ensures { IfOk result (λ report. report ≡ usage_line) }
{
    line_of(alloc, "usage: profile [--script] TABLES")
}
