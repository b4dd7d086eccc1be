// The answers of checks and audits.
ghost use Rattle.std.specs.Prelude.{◌≡◌, List};
ghost use Rattle.table_check.specs.declared.verdict.Verdict.{Verdict as Check};
ghost use Rattle.command_ends.specs.Answers.{AnswersBytes};
ghost use Rattle.claim_checks.specs.Claimed.{IsTheVerdictOn};
ghost use Rattle.fact_checks.specs.declared.stretches.Difference.{Difference};
ghost use Rattle.fact_claims.specs.Code.{AreDifferencesIn};
ghost use Rattle.unwind_cli.specs.Due.{AreFoundFor, Findings, audited_due, checked_due};
ghost use Rattle.unwind_cli.specs.Due.{claims_fault_due, task_due, unaudited_due};

use crate::command::Task;
use crate::lines::{claim_line, claims_line};
use claim_checks::{ClaimedModule, read_claims, verdict_line};
use command_ends::{Answer, Status, fault_answer, silent_answer, text_answer};
use fact_checks::{AuditError, ClaimedFacts};
use fact_claims::{ClaimedCode, ClaimsError, audit_report, read_code, refused_line};
use std::alloc::{AllocError, Global};

/// The answer for functions that a module is claimed to have.
fn verdict_answer(alloc: Global, claimed: ClaimedModule) -> Answer
    ensures { (check : Check) ×
        AnswersBytes (checked_due check) result.status result.text ×
        (result.status ≡ Status.Done → IsTheVerdictOn claimed check) }
{
    match claimed.check(alloc) {
        Ok(verdict) => text_answer(alloc, Status::Done, verdict_line(alloc, verdict)),
        Err(AllocError) => silent_answer(alloc, Status::Memory),
    }
}

/// The answer to bytes of a module whose tables are to be checked. They are let go before that.
pub fn checked_answer(alloc: Global, bytes: Vec<u8>) -> Answer
    ensures { (found : Findings) ×
        AnswersBytes (task_due Task.Check bytes.items found) result.status result.text ×
        (result.status ≡ Status.Done → AreFoundFor Task.Check bytes.items found) }
{
    let claimed = read_claims(alloc, &bytes);
    drop(bytes);
    match claimed {
        Ok(claimed) => verdict_answer(alloc, claimed),
        Err(error) => fault_answer(alloc, error),
    }
}

/// The answer where claims aren't audited.
fn unaudited_answer(alloc: Global, claims: &[ClaimedFacts], error: AuditError) -> Answer
    ensures { AnswersBytes (unaudited_due claims.now error) result.status result.text }
{
    match error {
        AuditError::NoMemory => silent_answer(alloc, Status::Memory),
        error => text_answer(alloc, Status::Refused, refused_line(alloc, claims, error)),
    }
}

/// The answer for claims of a module's code.
fn differences_answer(alloc: Global, code: &ClaimedCode) -> Answer
    ensures { (differences : List Difference) ×
        AnswersBytes (audited_due code.now differences) result.status result.text ×
        (result.status ≡ Status.Done → AreDifferencesIn code.now differences) }
{
    match code.audit(alloc) {
        Ok(differences) => text_answer(
            alloc,
            Status::Done,
            audit_report(alloc, code.claims(), &differences),
        ),
        Err(error) => unaudited_answer(alloc, code.claims(), error),
    }
}

/// The answer to bytes that say no claims.
fn claims_fault_answer(alloc: Global, error: ClaimsError) -> Answer
    ensures { AnswersBytes (claims_fault_due error) result.status result.text }
{
    match error {
        ClaimsError::Snapshot(error) => fault_answer(alloc, error),
        ClaimsError::Claims => text_answer(alloc, Status::BadSnapshot, claims_line(alloc)),
        ClaimsError::Claim(place) => {
            text_answer(alloc, Status::BadSnapshot, claim_line(alloc, place))
        }
    }
}

/// The answer to bytes of a module whose tables are to be audited. They are let go before that.
pub fn audited_answer(alloc: Global, bytes: Vec<u8>) -> Answer
    ensures { (found : Findings) ×
        AnswersBytes (task_due Task.Audit bytes.items found) result.status result.text ×
        (result.status ≡ Status.Done → AreFoundFor Task.Audit bytes.items found) }
{
    let code = read_code(alloc, &bytes);
    drop(bytes);
    match code {
        Ok(code) => differences_answer(alloc, &code),
        Err(error) => claims_fault_answer(alloc, error),
    }
}
