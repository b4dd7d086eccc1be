// What a check answers, as a line.
ghost use Rattle.std.specs.Prelude.{◌≡◌, ◌++◌, IfOk, OnOk};
ghost use Rattle.claim_checks.specs.Lines.{reason_text, verdict_line, verdict_text};

use stack_report::Report;
use std::alloc::{AllocError, Global};
use table_check::{Reason, Verdict};

/// Puts the part that fails first.
fn put_reason(report: &mut Report, reason: Reason) -> Result<(), AllocError>
    ensures { OnOk result (report.new ≡ report.old ++ reason_text reason) }
{
    match reason {
        Reason::Claim(i) => report.put_count("claim ", i),
        Reason::Range(i) => report.put_count("range ", i),
        Reason::Header => report.put("header"),
        Reason::Entry(offset) => report.put_field("entry ", offset),
        Reason::Extra(start) => report.put_field("extra ", start),
        Reason::Missing(i) => report.put_count("missing ", i),
        Reason::Program(i) => report.put_count("program ", i),
        Reason::Sites(i) => report.put_count("sites ", i),
        Reason::HeaderTable => report.put("header table"),
    }
}

/// Puts what a check answers.
fn put_verdict(report: &mut Report, verdict: Verdict) -> Result<(), AllocError>
    ensures { OnOk result (report.new ≡ report.old ++ verdict_text verdict) }
{
    match verdict {
        Verdict::Yes => report.put("yes"),
        Verdict::No(reason) => {
            report.put("no ")?;
            put_reason(report, reason)
        }
    }
}

/// Says what a check answers, in a line.
///
/// # Errors
///
/// `AllocError` where memory ran out.
pub fn verdict_line(alloc: Global, verdict: Verdict) -> Result<Report, AllocError>
    ensures { IfOk result (λ report. report ≡ verdict_line verdict) }
{
    let mut report = Report::new(alloc);
    put_verdict(&mut report, verdict)?;
    report.end_line()?;
    Ok(report)
}
