// What an audit finds, as lines.
ghost use Rattle.std.specs.Prelude.{◌≡◌, ◌≤◌, ◌++◌, ◌∷◌, [], None, length, slice_get, IfOk, OnOk};
ghost use Rattle.std.specs.Fmt.{decimal};
ghost use Rattle.stack_report.specs.Report.{line};
ghost use Rattle.fact_checks.specs.declared.auditing.AuditError.TheVariants as Refusal;
ghost use Rattle.fact_claims.specs.Lines.{audit_report, claim_text, difference_line};
ghost use Rattle.fact_claims.specs.Lines.{difference_lines, differing_after, disorder_at};
ghost use Rattle.fact_claims.specs.Lines.{disorder_text, is_claim, is_without_row, refused_line};
ghost use Rattle.fact_claims.specs.Lines.{start_before, without_row};

use crate::claimed::put_claimed;
use crate::said::put_mismatch;
use fact_checks::{AuditError, ClaimedFacts, Difference, Mismatch};
use stack_report::{Report, line_of};
use std::alloc::{AllocError, Global};

/// Puts what is claimed at a place of the list.
fn put_claim(report: &mut Report, claims: &[ClaimedFacts], place: usize) -> Result<(), AllocError>
    ensures { OnOk result
        (report.new ≡ report.old ++ claim_text (slice_get claims.now place)) }
{
    match claims.get(place) {
        Some(claim) => put_claimed(report, claim),
        None => Ok(()),
    }
}

/// Puts the line of a difference from one of the claims.
#[tactic(auto, unfolding(crate::specs::Lines::difference_line))]
fn put_difference(
    report: &mut Report,
    claims: &[ClaimedFacts],
    difference: &Difference,
) -> Result<(), AllocError>
    ensures { OnOk result (report.new ≡ report.old ++ difference_line claims.now difference.now) }
{
    report.put_field("differ ", difference.address)?;
    report.put_count(" claim ", difference.claim)?;
    put_mismatch(report, difference.mismatch)?;
    put_claim(report, claims, difference.claim)?;
    report.end_line()
}

/// Puts the lines of differences from claims.
fn put_differences(
    report: &mut Report,
    claims: &[ClaimedFacts],
    differences: &[Difference],
) -> Result<(), AllocError>
    ensures { OnOk result
        (report.new ≡ report.old ++ difference_lines claims.now differences.now) }
{
    for difference in differences {
        put_difference(report, claims, difference)?;
    }
    Ok(())
}

/// Whether none of the rows of a claim was looked at.
fn is_without_row(mismatch: Mismatch) -> bool
    ensures { result ≡ is_without_row mismatch }
{
    matches!(mismatch, Mismatch::NoDescription | Mismatch::SignalFrame)
}

/// Whether this is the claim.
fn is_claim(last: Option<usize>, claim: usize) -> bool
    ensures { result ≡ is_claim last claim }
{
    match last {
        Some(before) => before == claim,
        None => false,
    }
}

/// How many claims have no row.
fn without_row(differences: &[Difference]) -> usize
    ensures count { result ≡ without_row differences.now }
    ensures few { result ≤ length differences.now }
{
    let mut count = 0;
    for difference in differences {
        if is_without_row(difference.mismatch) {
            count += 1;
        }
    }
    count
}

/// How many claims have a row that differs.
fn differing(differences: &[Difference]) -> usize
    ensures { result ≡ differing_after None differences.now }
{
    let mut count = 0;
    let mut last = None;
    for difference in differences {
        if !is_without_row(difference.mismatch) && !is_claim(last, difference.claim) {
            count += 1;
        }
        last = Some(difference.claim);
    }
    count
}

/// Puts a number after a label, in a line.
fn put_number(report: &mut Report, label: &str, number: usize) -> Result<(), AllocError>
    ensures { OnOk result (report.new ≡ report.old ++ line (label.now ++ decimal number)) }
{
    report.put_count(label, number)?;
    report.end_line()
}

/// Says what an audit of claims finds: a line for each difference, with what is claimed there, and
/// how many claims there are, how many differ, and how many have no row.
///
/// # Errors
///
/// `AllocError` where memory ran out.
pub fn audit_report(
    alloc: Global,
    claims: &[ClaimedFacts],
    differences: &[Difference],
) -> Result<Report, AllocError>
    ensures { IfOk result (λ report. report ≡ audit_report claims.now differences.now) }
{
    let mut report = Report::new(alloc);
    put_differences(&mut report, claims, differences)?;
    put_number(&mut report, "claims ", claims.len())?;
    put_number(&mut report, "differ ", differing(differences))?;
    put_number(&mut report, "without a row ", without_row(differences))?;
    Ok(report)
}

/// Where the range before a place of the list begins, 0 before the first.
fn start_before(claims: &[ClaimedFacts], place: usize) -> u64
    ensures { result ≡ start_before claims.now place }
{
    if place == 0 {
        return 0;
    }
    match claims.get(place - 1) {
        Some(claim) => claim.from,
        None => 0,
    }
}

/// Puts how a claim is wrong whose range is empty, or begins below the end of the one before, which
/// begins at an address.
#[tactic(auto, unfolding(crate::specs::Lines::disorder_text))]
fn put_disorder(report: &mut Report, before: u64, claim: &ClaimedFacts) -> Result<(), AllocError>
    ensures { OnOk result (report.new ≡ report.old ++ disorder_text before claim.now) }
{
    if claim.to <= claim.from {
        return report.put(" empty");
    }
    if claim.from < before {
        return report.put(" out of order");
    }
    report.put(" overlaps")
}

/// Puts how the claim at a place is wrong.
fn put_disorder_at(
    report: &mut Report,
    claims: &[ClaimedFacts],
    place: usize,
) -> Result<(), AllocError>
    ensures { OnOk result (report.new ≡ report.old ++
        disorder_at (start_before claims.now place) (slice_get claims.now place)) }
{
    match claims.get(place) {
        Some(claim) => put_disorder(report, start_before(claims, place), claim),
        None => Ok(()),
    }
}

/// Says that the claim at a place is wrong, and how.
fn disorder_line(alloc: Global, claims: &[ClaimedFacts], place: usize) -> Result<Report, AllocError>
    ensures { IfOk result (λ report. report ≡ refused_line claims.now (Refusal.Claim place)) }
{
    let mut report = Report::new(alloc);
    report.put_count("refused: claim ", place)?;
    put_disorder_at(&mut report, claims, place)?;
    report.end_line()?;
    Ok(report)
}

/// Says why claims aren't audited, in a line; nothing where memory ran out.
///
/// # Errors
///
/// `AllocError` where memory ran out.
pub fn refused_line(
    alloc: Global,
    claims: &[ClaimedFacts],
    error: AuditError,
) -> Result<Report, AllocError>
    ensures { IfOk result (λ report. report ≡ refused_line claims.now error) }
{
    match error {
        AuditError::Claim(place) => disorder_line(alloc, claims, place),
        AuditError::Tables => line_of(alloc, "refused: no frame table"),
        AuditError::NoMemory => Ok(Report::new(alloc)),
    }
}
