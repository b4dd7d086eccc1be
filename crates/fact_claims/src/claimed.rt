// What is claimed, in the words in which it is told what a row says. Columns are those of the System V
// x86-64 psABI.
ghost use Rattle.std.specs.Prelude.{◌≡◌, ◌++◌, OnOk};
ghost use Rattle.fact_claims.specs.Claimed.{claimed_text, found_text, known_cfa_text, known_text};
ghost use Rattle.fact_claims.specs.Claimed.{registers_text, return_text, slot_text};

use crate::said::{put_above, put_rule};
use fact_checks::{ClaimedFacts, KnownRegister, KnownRegisters, SaidRule};
use stack_report::Report;
use std::alloc::AllocError;

/// Puts where the CFA is known to be.
fn put_known_cfa(report: &mut Report, claim: &ClaimedFacts) -> Result<(), AllocError>
    ensures { OnOk result
        (report.new ≡ report.old ++ known_cfa_text claim.now.rsp claim.now.rbp) }
{
    match (claim.rsp, claim.rbp) {
        (Some(rsp), Some(rbp)) => {
            put_above(report, 7, rsp)?;
            report.put(" or")?;
            put_above(report, 6, rbp)
        }
        (Some(rsp), None) => put_above(report, 7, rsp),
        (None, Some(rbp)) => put_above(report, 6, rbp),
        (None, None) => report.put(" unknown"),
    }
}

/// Puts how a row finds what is saved so far below the CFA.
#[tactic(auto, unfolding(crate::specs::Said::offset_text))]
fn put_slot(report: &mut Report, distance: u64) -> Result<(), AllocError>
    ensures { OnOk result (report.new ≡ report.old ++ slot_text distance) }
{
    if distance <= 1 << 63 {
        return report.put_field(" c-", distance);
    }
    report.put_field(" c+", u64::MAX - distance + 1)
}

/// Puts the rules that find a register where it is known to be.
fn put_found(report: &mut Report, register: KnownRegister) -> Result<(), AllocError>
    ensures { OnOk result
        (report.new ≡ report.old ++ found_text register.slot register.is_kept) }
{
    match (register.slot, register.is_kept) {
        (Some(distance), true) => {
            put_slot(report, distance)?;
            report.put(" or")?;
            put_rule(report, SaidRule::SameValue)
        }
        (Some(distance), false) => put_slot(report, distance),
        (None, true) => put_rule(report, SaidRule::SameValue),
        (None, false) => report.put(" unknown"),
    }
}

/// Puts what is known of the register of a column.
#[tactic(auto, unfolding(crate::specs::Claimed::known_text))]
fn put_known(report: &mut Report, column: usize, register: KnownRegister) -> Result<(), AllocError>
    ensures { OnOk result (report.new ≡ report.old ++ known_text column register) }
{
    report.put_count(", rule ", column)?;
    put_found(report, register)
}

/// Puts what is known of the callee-saved registers.
#[tactic(auto, unfolding(crate::specs::Claimed::registers_text))]
fn put_registers(report: &mut Report, registers: &KnownRegisters) -> Result<(), AllocError>
    ensures { OnOk result (report.new ≡ report.old ++ registers_text registers.now) }
{
    put_known(report, 3, registers.rbx)?;
    put_known(report, 6, registers.rbp)?;
    put_known(report, 12, registers.r12)?;
    put_known(report, 13, registers.r13)?;
    put_known(report, 14, registers.r14)?;
    put_known(report, 15, registers.r15)
}

/// Puts the rule of the return address.
fn put_return(report: &mut Report, is_outermost: bool) -> Result<(), AllocError>
    ensures { OnOk result (report.new ≡ report.old ++ return_text is_outermost) }
{
    if is_outermost {
        return put_rule(report, SaidRule::Undefined);
    }
    put_slot(report, 8)
}

/// Puts what is claimed: the CFA, the callee-saved registers and the return address.
#[tactic(auto, unfolding(crate::specs::Claimed::claimed_text))]
pub(crate) fn put_claimed(report: &mut Report, claim: &ClaimedFacts) -> Result<(), AllocError>
    ensures { OnOk result (report.new ≡ report.old ++ claimed_text claim.now) }
{
    report.put("; claimed cfa")?;
    put_known_cfa(report, claim)?;
    put_registers(report, &claim.registers)?;
    report.put_count(", rule ", 16)?;
    put_return(report, claim.is_outermost)
}
