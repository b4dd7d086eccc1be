//! What a row says, without the bytes of expressions. DWARF 5 section 6.4.1.

ghost use Rattle.std.specs.Prelude.{◌≡◌, Some};
ghost use Rattle.frame_rows.specs.Rules.{cfa_meaning, rule_meaning};
ghost use Rattle.fact_checks.specs.Said.{said_cfa, said_rule};

use eh_frame::{CfaRule, Register, RegisterRule};

/// Where the CFA is by a row.
#[derive(Clone, Copy, Debug, PartialEq, Eq)]
pub enum SaidCfa {
    /// So far above a register, as a word.
    Above(Register, u64),
    /// Where an expression says.
    Expression,
}

/// How a register's value in the caller is found by a row. Offsets are words that wrap.
#[derive(Clone, Copy, Debug, PartialEq, Eq)]
pub enum SaidRule {
    /// The row has no rule.
    Nothing,
    /// The value isn't known.
    Undefined,
    /// It is unchanged.
    SameValue,
    /// The word at the CFA plus this offset.
    Offset(u64),
    /// The CFA plus this offset.
    ValOffset(u64),
    /// The value of a register.
    Register(Register),
    /// The word where an expression says.
    Expression,
    /// The value of an expression.
    ValExpression,
}

/// Where the CFA is by a row.
pub(crate) fn said_cfa(cfa: CfaRule<'_>) -> SaidCfa
    ensures { result ≡ said_cfa (cfa_meaning cfa.entry) }
{
    match cfa {
        CfaRule::RegisterAndOffset { register, offset } => SaidCfa::Above(register, offset),
        CfaRule::Expression(_) => SaidCfa::Expression,
    }
}

/// How a register's value is found by its rule.
pub(crate) fn said_rule(rule: RegisterRule<'_>) -> SaidRule
    ensures { result ≡ said_rule (Some (rule_meaning rule.entry)) }
{
    match rule {
        RegisterRule::Undefined => SaidRule::Undefined,
        RegisterRule::SameValue => SaidRule::SameValue,
        RegisterRule::Offset(offset) => SaidRule::Offset(offset),
        RegisterRule::ValOffset(offset) => SaidRule::ValOffset(offset),
        RegisterRule::Register(register) => SaidRule::Register(register),
        RegisterRule::Expression(_) => SaidRule::Expression,
        RegisterRule::ValExpression(_) => SaidRule::ValExpression,
    }
}
