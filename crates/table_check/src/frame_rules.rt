//! The rules of a row that say where a function's caller has its registers. DWARF 5 section 6.4.1.

ghost use Rattle.std.specs.Prelude.{◌≡◌, ◌||◌, ◌==◌, is_some, false, true};
ghost use Rattle.std.specs.Bool.{Decides};
ghost use Rattle.std.specs.List.{AllByRecursion};
ghost use Rattle.unwind_definitions.specs.Columns as column;
ghost use Rattle.unwind_definitions.specs.Instructions.{Offset};
ghost use Rattle.unwind_definitions.specs.State.{CalleeSaved as Kept, column_of};
ghost use Rattle.frame_rows.specs.Rules.{AscendsFrom, rule_in, rule_meaning};
ghost use Rattle.table_check.specs.Frames.{callee_saved_of};
ghost use Rattle.table_check.specs.FrameRules.{FitsRule, IsKeptRule, has_rule, return_rule};

use crate::prologue::{CalleeSaved, FrameSoFar};
use eh_frame::{Register, RegisterRule, RowRef};

// The word of the offset of -8.
const BELOW: u64 = 0xffff_ffff_ffff_fff8;

/// What a row of a frame says of the return address.
#[derive(Clone, Copy)]
pub(crate) enum ReturnRule {
    /// It stands just below the CFA.
    Saved,
    /// There is none, as the frame has no caller.
    Undefined,
}

/// Which registers that functions keep have a rule in a row, and whether the return address has.
#[derive(Clone, Copy)]
pub(crate) struct RuledRegisters {
    rbx: bool,
    rbp: bool,
    r12: bool,
    r13: bool,
    r14: bool,
    r15: bool,
    return_address: bool,
}

impl RuledRegisters {
    /// None of them.
    pub(crate) fn none() -> RuledRegisters
        ensures saved { (r : Kept) → has_rule r result ≡ false }
        ensures ret { result.return_address ≡ false }
    {
        RuledRegisters {
            rbx: false,
            rbp: false,
            r12: false,
            r13: false,
            r14: false,
            r15: false,
            return_address: false,
        }
    }

    /// Goes through the rules of a row, whether each may be one of a frame. Where one may not, it is
    /// unspecified which registers have a rule.
    #[inline(always)]
    pub(crate) fn read(
        &mut self,
        row: &RowRef<'_, '_>,
        frame: &FrameSoFar,
        expected: ReturnRule,
    ) -> bool
        requires saved { (r : Kept) → has_rule r self.old ≡ false }
        requires ret { self.old.return_address ≡ false }
        ensures fits { Decides result
            (AllByRecursion (FitsRule frame.now (return_rule expected)) row.now.rules) }
        ensures saved { result ≡ true → (r : Kept) →
            has_rule r self.new ≡ is_some (rule_in row.now.rules (column_of r)) }
        ensures ret { result ≡ true →
            self.new.return_address ≡ is_some (rule_in row.now.rules column.ra) }
        ensures ascending { AscendsFrom 0 row.now.rules }
    {
        for entry in row.registers() {
            if !self.take(entry.0, &entry.1, frame, expected) {
                return false;
            }
        }
        true
    }

    // Takes the rule of a register, whether it may be one of a frame.
    #[inline(always)]
    fn take(
        &mut self,
        register: Register,
        rule: &RegisterRule<'_>,
        frame: &FrameSoFar,
        expected: ReturnRule,
    ) -> bool
        ensures fits { Decides result (FitsRule frame.now (return_rule expected)
            (register.0, rule_meaning rule.now)) }
        ensures saved { result ≡ true → (r : Kept) →
            has_rule r self.new ≡ (has_rule r self.old || (register.0 == column_of r)) }
        ensures ret { result ≡ true →
            self.new.return_address ≡ (self.old.return_address || (register.0 == column.ra)) }
    {
        match register.0 {
            3 => take_saved(&mut self.rbx, rule, frame.slot(CalleeSaved::Rbx)),
            6 => take_saved(&mut self.rbp, rule, frame.slot(CalleeSaved::Rbp)),
            12 => take_saved(&mut self.r12, rule, frame.slot(CalleeSaved::R12)),
            13 => take_saved(&mut self.r13, rule, frame.slot(CalleeSaved::R13)),
            14 => take_saved(&mut self.r14, rule, frame.slot(CalleeSaved::R14)),
            15 => take_saved(&mut self.r15, rule, frame.slot(CalleeSaved::R15)),
            16 => take_return(&mut self.return_address, rule, expected),
            _ => false,
        }
    }

    /// Whether the return address has a rule.
    pub(crate) fn has_return_address(&self) -> bool
        ensures { result ≡ self.now.return_address }
    {
        self.return_address
    }

    /// Whether a register has a rule.
    pub(crate) fn has(&self, register: CalleeSaved) -> bool
        ensures { result ≡ has_rule (callee_saved_of register) self.now }
    {
        match register {
            CalleeSaved::Rbx => self.rbx,
            CalleeSaved::Rbp => self.rbp,
            CalleeSaved::R12 => self.r12,
            CalleeSaved::R13 => self.r13,
            CalleeSaved::R14 => self.r14,
            CalleeSaved::R15 => self.r15,
        }
    }
}

// Notes that a register has a rule, and says whether it is that of where the register is saved.
#[inline(always)]
fn take_saved(has: &mut bool, rule: &RegisterRule<'_>, slot: Option<u64>) -> bool
    ensures has { has.new ≡ true }
    ensures fits { Decides result (IsKeptRule slot (rule_meaning rule.now)) }
{
    *has = true;
    match slot {
        Some(offset) => is_offset(rule, offset),
        None => matches!(rule, RegisterRule::SameValue),
    }
}

// The same of the return address.
#[inline(always)]
fn take_return(has: &mut bool, rule: &RegisterRule<'_>, expected: ReturnRule) -> bool
    ensures has { has.new ≡ true }
    ensures fits { Decides result (rule_meaning rule.now ≡ return_rule expected) }
{
    *has = true;
    match expected {
        ReturnRule::Saved => is_offset(rule, BELOW),
        ReturnRule::Undefined => matches!(rule, RegisterRule::Undefined),
    }
}

#[inline(always)]
fn is_offset(rule: &RegisterRule<'_>, offset: u64) -> bool
    ensures { Decides result (rule_meaning rule.now ≡ Offset offset) }
{
    match rule {
        RegisterRule::Offset(own) => *own == offset,
        _ => false,
    }
}
