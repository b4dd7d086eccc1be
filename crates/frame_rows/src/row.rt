//! Rows: how the caller of a frame is found at an address. DWARF 5 section 6.4.1.

ghost use Rattle.std.specs.Prelude.{◌≡◌, ◌≤◌, length, map};
ghost use Rattle.std.specs.Option.{option_map};
ghost use Rattle.frame_rows.specs.Rules.{entry_of, rule_in, rule_meaning, cfa_meaning, AscendsFrom};

use crate::row_ref::RowRef;
use crate::rule::{CfaRule, RegisterRule};
use crate::rules::RegisterRules;
use std::marker::Model;
use unwind_arch::Register;

/// How the caller of a frame is found from the registers at an address: a rule for the canonical
/// frame address (CFA), and rules for registers. A register without a rule keeps its value.
///
/// Source: DWARF 5 section 6.4.1.
#[derive(Drop)]
pub struct Row<'a> {
    cfa: CfaRule<'a>,
    rules: RegisterRules<'a>,
    saved_args_size: u64,
}

impl<'a> Model for Row<'a> {
    ghost use Rattle.frame_rows.specs.RowValue.{RowValue};

    ghost Value = { RowValue };

    ghost use Rattle.frame_rows.specs.Rules.{cfa_meaning};

    ghost view = { λ a. record {
      cfa = cfa_meaning a.cfa;
      rules = a.rules;
      saved_args_size = a.saved_args_size;
    } };
}

impl<'a> Row<'a> {
    ghost use Rattle.frame_rows.specs.Left.{registers_left};

    pub(crate) fn new(cfa: CfaRule<'a>, rules: RegisterRules<'a>, saved_args_size: u64) -> Row<'a>
        ensures { result ≡ record {
          cfa = cfa_meaning cfa.entry;
          rules = rules.entry;
          saved_args_size = saved_args_size;
        } }
    {
        Row {
            cfa,
            rules,
            saved_args_size,
        }
    }

    /// Makes it the row of these in place of its own.
    pub(crate) fn assign(
        &mut self,
        cfa: CfaRule<'a>,
        rules: &RegisterRules<'a>,
        saved_args_size: u64,
    )
        ensures { self.new ≡ record {
          cfa = cfa_meaning cfa.entry;
          rules = rules.now;
          saved_args_size = saved_args_size;
        } }
    {
        self.cfa = cfa;
        self.rules.assign(rules);
        self.saved_args_size = saved_args_size;
    }

    /// How the CFA is found.
    pub fn cfa(&self) -> CfaRule<'a>
        ensures { cfa_meaning result ≡ self.now.cfa }
    {
        self.cfa
    }

    /// The rule of a register, None where it has none.
    pub fn register(&self, register: Register) -> Option<RegisterRule<'a>>
        ensures { option_map rule_meaning result ≡ rule_in self.now.rules register.0 }
    {
        self.rules.get(register)
    }

    /// The registers that have a rule, at most 32, with their rules, by ascending number.
    pub fn registers(&self) -> Registers<'_, 'a>
        ensures rules { map entry_of (registers_left result) ≡ self.now.rules }
        ensures ascending { AscendsFrom 0 self.now.rules }
        ensures count { length self.now.rules ≤ 32 }
    {
        Registers::over(self.rules.entries())
    }

    /// How many bytes of the stack hold arguments that the callee removes.
    pub fn saved_args_size(&self) -> u64
        ensures { result ≡ self.now.saved_args_size }
    {
        self.saved_args_size
    }

    /// The same row, whose rules stand here.
    pub fn as_ref(&self) -> RowRef<'_, 'a>
        ensures { result ≡ self.now }
    {
        RowRef::new(self.cfa, self.rules.entries(), self.saved_args_size)
    }
}

/// The registers of a row that have a rule, with their rules, by ascending number.
#[derive(Drop)]
pub struct Registers<'r, 'a> {
    entries: &'r [(Register, RegisterRule<'a>)],
    passed: usize,
    ghost within: { passed ≤ length entries.now },
}

impl<'r, 'a> Registers<'r, 'a> {
    ghost use Rattle.frame_rows.specs.Left.{registers_left};

    // All of these.
    pub(crate) fn over(entries: &'r [(Register, RegisterRule<'a>)]) -> Registers<'r, 'a>
        ensures { registers_left result ≡ entries.now }
    {
        Registers { entries, passed: 0 }
    }
}

impl<'r, 'a> Iterator for Registers<'r, 'a> {
    type Item = (Register, RegisterRule<'a>);

    ghost use Rattle.std.specs.Iterator.{YieldsFirst, item_count};
    ghost use Rattle.frame_rows.specs.Left.{registers_left};

    ghost next_gives = { YieldsFirst registers_left };

    ghost remaining = { item_count registers_left };

    fn next(&mut self) -> Option<(Register, RegisterRule<'a>)> {
        if self.passed == self.entries.len() {
            return None;
        }
        let entry = self.entries[self.passed];
        self.passed += 1;
        Some(entry)
    }
}
