//! Rows beside what is known. DWARF 5 section 6.4.1; System V x86-64 psABI for the registers.

ghost use Rattle.std.specs.Prelude.{◌≡◌, ◌≤◌, ◌↔◌, ℕ, MatchOption, None, Ok, Option, Result, Some};
ghost use Rattle.std.specs.Prelude.{false};
ghost use Rattle.std.specs.Prelude.{is_some};
ghost use Rattle.std.specs.Bool.{Decides};
ghost use Rattle.unwind_definitions.specs.declared.error.Error.{Error as Fault};
ghost use Rattle.unwind_definitions.specs.Instructions.{Coding, Rule};
ghost use Rattle.unwind_definitions.specs.Row.{RowInstructions};
ghost use Rattle.unwind_definitions.specs.DescribedRows.{may_have_rule, negative};
ghost use Rattle.frame_rows.specs.Rows.{GivesRow};
ghost use Rattle.frame_rows.specs.Rules.{cfa_meaning, rule_in, rule_meaning};
ghost use Rattle.frame_rows.specs.Walks.{IsBefore, IsWalking, end_of};
ghost use Rattle.frame_facts.specs.FactRows.{IsKnownCfa, return_rule};
ghost use Rattle.fact_checks.specs.ClaimViews.{facts_of};
ghost use Rattle.fact_checks.specs.RowFacts.{Differs, IsAsDue, IsAsked, IsFound, IsOtherRule};
ghost use Rattle.fact_checks.specs.Said.{said_rule};
ghost use Rattle.fact_checks.specs.RowFacts.{LacksNone, RulesSay, SaysDue, known_distance, lacks};

use crate::facts::{ClaimedFacts, KnownRegister};
use crate::said::{SaidCfa, SaidRule, said_cfa, said_rule};
use eh_frame::{CfaRule, Error, Register, RegisterRule, RowRef, RowWalk};

const RBX: Register = Register(3);

const RBP: Register = Register(6);

const R12: Register = Register(12);

const R13: Register = Register(13);

const R14: Register = Register(14);

const R15: Register = Register(15);

const RETURN_ADDRESS: Register = Register(16);

// How many words of 64 bits there are.
const WORDS: u128 = 1 << 64;

/// Why what is known isn't said.
#[derive(Clone, Copy, Debug, PartialEq, Eq)]
pub enum Mismatch {
    /// No description contains the range.
    NoDescription,
    /// The description that contains the range is one of a signal's frame.
    SignalFrame,
    /// There is no row, for this fault.
    Fault(Error),
    /// The row's CFA, which is this one, isn't one that is known.
    Cfa(SaidCfa),
    /// The rule of this column is another, which is this one: of the return address, which is column
    /// 16, of a callee-saved register, or of a column that may have none.
    Rule(Register, SaidRule),
}

/// A column whose rule is another than what is known asks, and its rule.
#[derive(Clone, Copy)]
struct Other {
    column: Register,
    rule: SaidRule,
}

/// What the rule of a column has to be.
#[derive(Clone, Copy)]
enum Due {
    /// That there is no value.
    Undefined,
    /// What finds a register where it is known to be.
    Found(KnownRegister),
}

/// Why the row that a walk has gone to, or the fault in its place, doesn't say what is known. `None`
/// exactly where it says it.
pub(crate) fn mismatch_at(walk: &RowWalk<'_>, known: &ClaimedFacts) -> Option<Mismatch>
    ensures { (coding : Coding) (from a : ℕ) (due : ℕ → Result RowInstructions Fault) →
        IsWalking walk.now coding from due → from ≤ a → IsBefore a (end_of walk.now) →
        MatchOption result (SaysDue (facts_of known.now) (due a))
        (λ m. Differs (facts_of known.now) (due a) m) }
{
    match walk.row() {
        Ok(row) => row_mismatch(&row, known),
        Err(fault) => Some(Mismatch::Fault(fault)),
    }
}

// Why a row doesn't say what is known.
fn row_mismatch(row: &RowRef<'_, '_>, known: &ClaimedFacts) -> Option<Mismatch>
    ensures { (due : Result RowInstructions Fault) → GivesRow (Ok row.now) due →
        MatchOption result (SaysDue (facts_of known.now) due)
        (λ m. Differs (facts_of known.now) due m) }
{
    let cfa = row.cfa();
    if !is_known_cfa(cfa, known) {
        return Some(Mismatch::Cfa(said_cfa(cfa)));
    }
    match first_other_rule(row, known) {
        Some(other) => Some(Mismatch::Rule(other.column, other.rule)),
        None => None,
    }
}

// Whether a CFA is one that is known.
fn is_known_cfa(cfa: CfaRule<'_>, known: &ClaimedFacts) -> bool
    ensures { Decides result (IsKnownCfa (facts_of known.now) (cfa_meaning cfa.entry)) }
{
    match cfa {
        CfaRule::RegisterAndOffset { register, offset } => {
            is_distance(known_distance(known, register), offset)
        }
        CfaRule::Expression(_) => false,
    }
}

// How far the CFA is known to lie above a register.
fn known_distance(known: &ClaimedFacts, register: Register) -> Option<u64>
    ensures { result ≡ known_distance (facts_of known.now) register.0 }
{
    match register.0 {
        6 => known.rbp,
        7 => known.rsp,
        _ => None,
    }
}

fn is_distance(known: Option<u64>, distance: u64) -> bool
    ensures { Decides result (known ≡ Some distance) }
{
    match known {
        Some(number) => number == distance,
        None => false,
    }
}

// The first column whose rule is another than what is known asks, or has none and has to have one.
fn first_other_rule(row: &RowRef<'_, '_>, known: &ClaimedFacts) -> Option<Other>
    ensures { MatchOption result (RulesSay (facts_of known.now) row.now.rules)
        (λ other. IsOtherRule (facts_of known.now) other.column.0
        (rule_in row.now.rules other.column.0)
        × (other.rule ≡ said_rule (rule_in row.now.rules other.column.0))) }
{
    for (column, rule) in row.registers() {
        if !is_asked(known, column, rule) {
            let rule = said_rule(rule);
            return Some(Other { column, rule });
        }
    }
    other_lacking(row, known)
}

// Whether the rule of a column is one that what is known asks.
fn is_asked(known: &ClaimedFacts, column: Register, rule: RegisterRule<'_>) -> bool
    ensures { Decides result (IsAsked (facts_of known.now) column.0 (Some (rule_meaning rule.entry))) }
{
    match due_of(known, column) {
        Some(due) => is_rule_due(rule, due),
        None => false,
    }
}

// What the rule of a column has to be: of the return address or a callee-saved register.
fn due_of(known: &ClaimedFacts, column: Register) -> Option<Due>
    ensures { MatchOption result (may_have_rule column.0 ≡ false)
        (λ due. (rule : Option Rule) →
        IsAsDue due rule ↔ IsAsked (facts_of known.now) column.0 rule) }
{
    let registers = &known.registers;
    match column.0 {
        3 => Some(Due::Found(registers.rbx)),
        6 => Some(Due::Found(registers.rbp)),
        12 => Some(Due::Found(registers.r12)),
        13 => Some(Due::Found(registers.r13)),
        14 => Some(Due::Found(registers.r14)),
        15 => Some(Due::Found(registers.r15)),
        16 => Some(due_return(known.is_outermost)),
        _ => None,
    }
}

// What the rule of the return address has to be.
fn due_return(is_outermost: bool) -> Due
    ensures { (rule : Option Rule) →
        IsAsDue result rule ↔ (rule ≡ Some (return_rule is_outermost)) }
{
    if is_outermost {
        return Due::Undefined;
    }
    Due::Found(KnownRegister {
        slot: Some(8),
        is_kept: false,
    })
}

fn is_rule_due(rule: RegisterRule<'_>, due: Due) -> bool
    ensures { Decides result (IsAsDue due (Some (rule_meaning rule.entry))) }
{
    match due {
        Due::Undefined => matches!(rule, RegisterRule::Undefined),
        Due::Found(register) => finds(rule, register),
    }
}

// Whether a rule finds a register where it is known to be.
fn finds(rule: RegisterRule<'_>, register: KnownRegister) -> bool
    ensures { Decides result (IsFound register (Some (rule_meaning rule.entry))) }
{
    match rule {
        RegisterRule::SameValue => register.is_kept,
        RegisterRule::Offset(offset) => is_slot(register.slot, offset),
        _ => false,
    }
}

// Whether an offset from the CFA, which is that below it as a word, is that of a slot.
fn is_slot(slot: Option<u64>, offset: u64) -> bool
    ensures { Decides result ((d : ℕ) × (slot ≡ Some d) × (offset ≡ negative d)) }
{
    match slot {
        Some(distance) => u128::from(offset) + u128::from(distance) == WORDS,
        None => false,
    }
}

// The first column that has to have a rule and has none.
fn other_lacking(row: &RowRef<'_, '_>, known: &ClaimedFacts) -> Option<Other>
    ensures { MatchOption result (LacksNone (facts_of known.now) row.now.rules)
        (λ other. IsOtherRule (facts_of known.now) other.column.0
        (rule_in row.now.rules other.column.0)
        × (other.rule ≡ said_rule (rule_in row.now.rules other.column.0))) }
{
    match first_lacking(row, known) {
        Some(column) => Some(Other {
            column,
            rule: SaidRule::Nothing,
        }),
        None => None,
    }
}

// The first column that has to have a rule and has none: the return address, or a callee-saved
// register that isn't kept.
fn first_lacking(row: &RowRef<'_, '_>, known: &ClaimedFacts) -> Option<Register>
    ensures { MatchOption result (LacksNone (facts_of known.now) row.now.rules)
        (λ column. IsOtherRule (facts_of known.now) column.0
        (rule_in row.now.rules column.0)
        × (rule_in row.now.rules column.0 ≡ None)) }
{
    let registers = &known.registers;
    if !has_rule(row, RETURN_ADDRESS) {
        return Some(RETURN_ADDRESS);
    }
    if lacks(row, RBX, registers.rbx) {
        return Some(RBX);
    }
    if lacks(row, RBP, registers.rbp) {
        return Some(RBP);
    }
    if lacks(row, R12, registers.r12) {
        return Some(R12);
    }
    if lacks(row, R13, registers.r13) {
        return Some(R13);
    }
    if lacks(row, R14, registers.r14) {
        return Some(R14);
    }
    if lacks(row, R15, registers.r15) {
        return Some(R15);
    }
    None
}

// Whether a register that isn't kept has no rule.
fn lacks(row: &RowRef<'_, '_>, column: Register, register: KnownRegister) -> bool
    ensures { result ≡ lacks register (rule_in row.now.rules column.0) }
{
    !register.is_kept && !has_rule(row, column)
}

fn has_rule(row: &RowRef<'_, '_>, column: Register) -> bool
    ensures { result ≡ is_some (rule_in row.now.rules column.0) }
{
    for (register, _) in row.registers() {
        if register.0 == column.0 {
            return true;
        }
    }
    false
}
