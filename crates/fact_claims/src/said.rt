// What a row says, in words.
ghost use Rattle.std.specs.Prelude.{◌≡◌, ◌++◌, OnOk};
ghost use Rattle.fact_claims.specs.Said.{above_text, cfa_text, mismatch_text, offset_text, rule_text};

use fact_checks::{Mismatch, SaidCfa, SaidRule};
use stack_report::Report;
use std::alloc::AllocError;

/// Puts an offset, a word: one from 2^63 on is below 0.
#[tactic(auto, unfolding(crate::specs::Said::offset_text))]
fn put_offset(report: &mut Report, offset: u64) -> Result<(), AllocError>
    ensures { OnOk result (report.new ≡ report.old ++ offset_text offset) }
{
    if offset < 1 << 63 {
        return report.put_field("+", offset);
    }
    report.put_field("-", u64::MAX - offset + 1)
}

/// Puts how far an address lies above the register of a column.
pub(crate) fn put_above(report: &mut Report, column: usize, offset: u64) -> Result<(), AllocError>
    ensures { OnOk result (report.new ≡ report.old ++ above_text column offset) }
{
    report.put_count(" r", column)?;
    put_offset(report, offset)
}

/// Puts where the CFA is by a row.
fn put_cfa(report: &mut Report, cfa: SaidCfa) -> Result<(), AllocError>
    ensures { OnOk result (report.new ≡ report.old ++ cfa_text cfa) }
{
    match cfa {
        SaidCfa::Above(register, offset) => put_above(report, usize::from(register.0), offset),
        SaidCfa::Expression => report.put(" expression"),
    }
}

/// Puts an offset after a label.
fn put_offset_from(report: &mut Report, label: &str, offset: u64) -> Result<(), AllocError>
    ensures { OnOk result (report.new ≡ report.old ++ label.now ++ offset_text offset) }
{
    report.put(label)?;
    put_offset(report, offset)
}

/// Puts how a register's value in the caller is found by a row.
pub(crate) fn put_rule(report: &mut Report, rule: SaidRule) -> Result<(), AllocError>
    ensures { OnOk result (report.new ≡ report.old ++ rule_text rule) }
{
    match rule {
        SaidRule::Nothing => report.put(" none"),
        SaidRule::Undefined => report.put(" undefined"),
        SaidRule::SameValue => report.put(" same value"),
        SaidRule::Offset(offset) => put_offset_from(report, " c", offset),
        SaidRule::ValOffset(offset) => put_offset_from(report, " v", offset),
        SaidRule::Register(register) => report.put_count(" r", usize::from(register.0)),
        SaidRule::Expression => report.put(" expression"),
        SaidRule::ValExpression => report.put(" value expression"),
    }
}

/// Puts why a row doesn't say what is claimed: that there is none, or what it says instead.
pub(crate) fn put_mismatch(report: &mut Report, mismatch: Mismatch) -> Result<(), AllocError>
    ensures { OnOk result (report.new ≡ report.old ++ mismatch_text mismatch) }
{
    match mismatch {
        Mismatch::NoDescription => report.put(" no description"),
        Mismatch::SignalFrame => report.put(" signal frame"),
        Mismatch::Fault(_) => report.put(" fault"),
        Mismatch::Cfa(cfa) => {
            report.put(" cfa")?;
            put_cfa(report, cfa)
        }
        Mismatch::Rule(register, rule) => {
            report.put_count(" rule ", usize::from(register.0))?;
            put_rule(report, rule)
        }
    }
}
