//! Rows whose rules stand elsewhere. DWARF 5 section 6.4.1.

ghost use Rattle.std.specs.Prelude.{◌≡◌, ◌≤◌, length, map};
ghost use Rattle.frame_rows.specs.Reach.{IsReach};
ghost use Rattle.frame_rows.specs.RoomRow.{no_row};
ghost use Rattle.frame_rows.specs.Rules.{entry_of, cfa_meaning, AscendsFrom};

use crate::row::{Registers, Row};
use crate::rule::{CfaRule, RegisterRule};
use crate::rules::RegisterRules;
use std::marker::Model;
use unwind_arch::Register;

/// A row that is lent: its rules stand in a [`Row`](crate::Row), in a [`RowRoom`](crate::RowRoom) or
/// in a [`RowTable`](crate::RowTable).
///
/// It is made in a few instructions, where a row of its own has place for 32 rules.
#[derive(Drop)]
pub struct RowRef<'r, 'a> {
    cfa: CfaRule<'a>,
    rules: &'r [(Register, RegisterRule<'a>)],
    saved_args_size: u64,
    // how far below the CFA the rules reach, 0 where that isn't known
    reach: u64,
}

impl<'r, 'a> Model for RowRef<'r, 'a> {
    ghost use Rattle.std.specs.Prelude.{◌≤◌, length, map};
    ghost use Rattle.frame_rows.specs.RowValue.{RowValue};

    ghost Value = { RowValue };

    ghost use Rattle.frame_rows.specs.Rules.{entry_of, cfa_meaning, AscendsFrom};

    ghost view = { λ a. record {
      cfa = cfa_meaning a.cfa;
      rules = map entry_of a.rules.now;
      saved_args_size = a.saved_args_size;
    } };

    ghost use Rattle.frame_rows.specs.Reach.{IsReach};

    ghost invariant = { λ a. AscendsFrom 0 (map entry_of a.rules.now) × (length a.rules.now ≤ 32)
        × IsReach a.reach (map entry_of a.rules.now) };
}

impl<'r, 'a> RowRef<'r, 'a> {
    ghost use Rattle.frame_rows.specs.Left.{registers_left};

    pub(crate) fn new(
        cfa: CfaRule<'a>,
        rules: &'r [(Register, RegisterRule<'a>)],
        saved_args_size: u64,
    ) -> RowRef<'r, 'a>
        requires ascending { AscendsFrom 0 (map entry_of rules.now) }
        requires fits { length rules.now ≤ 32 }
        ensures { result ≡ record {
          cfa = cfa_meaning cfa.entry;
          rules = map entry_of rules.now;
          saved_args_size = saved_args_size;
        } }
    {
        RowRef::with_reach(cfa, rules, saved_args_size, 0)
    }

    /// The same, where it is known how far below the CFA the rules reach.
    pub(crate) fn with_reach(
        cfa: CfaRule<'a>,
        rules: &'r [(Register, RegisterRule<'a>)],
        saved_args_size: u64,
        reach: u64,
    ) -> RowRef<'r, 'a>
        requires ascending { AscendsFrom 0 (map entry_of rules.now) }
        requires fits { length rules.now ≤ 32 }
        requires reach { IsReach reach (map entry_of rules.now) }
        ensures { result ≡ record {
          cfa = cfa_meaning cfa.entry;
          rules = map entry_of rules.now;
          saved_args_size = saved_args_size;
        } }
    {
        RowRef {
            cfa,
            rules,
            saved_args_size,
            reach,
        }
    }

    /// That of a room in which none was made: it has no rules, and its CFA is register 0.
    pub(crate) fn unmade() -> RowRef<'r, 'a>
        ensures { result ≡ no_row }
    {
        RowRef {
            cfa: CfaRule::RegisterAndOffset {
                register: Register(0),
                offset: 0,
            },
            rules: &[],
            saved_args_size: 0,
            reach: 0,
        }
    }

    /// How the CFA is found.
    pub fn cfa(&self) -> CfaRule<'a>
        ensures { cfa_meaning result ≡ self.now.cfa }
    {
        self.cfa
    }

    /// The registers that have a rule, at most 32, with their rules, by ascending number.
    pub fn registers(&self) -> Registers<'r, 'a>
        ensures rules { map entry_of (registers_left result) ≡ self.now.rules }
        ensures ascending { AscendsFrom 0 self.now.rules }
        ensures count { length self.now.rules ≤ 32 }
    {
        Registers::over(self.rules)
    }

    /// The same, as they stand.
    pub fn entries(&self) -> &'r [(Register, RegisterRule<'a>)]
        ensures rules { map entry_of result.now ≡ self.now.rules }
        ensures ascending { AscendsFrom 0 self.now.rules }
        ensures count { length result.now ≤ 32 }
    {
        self.rules
    }

    /// How many bytes below the CFA hold all that the rules say is saved, where they say nothing else
    /// and of no register but x86-64's general ones and its return address. 0 where that isn't known.
    pub fn reach(&self) -> u64
        ensures { IsReach result self.now.rules }
    {
        self.reach
    }

    /// How many bytes of the stack hold arguments that the callee removes.
    pub fn saved_args_size(&self) -> u64
        ensures { result ≡ self.now.saved_args_size }
    {
        self.saved_args_size
    }

    /// The same row with rules of its own.
    pub fn to_row(&self) -> Row<'a>
        ensures { result ≡ self.now }
    {
        Row::new(
            self.cfa,
            RegisterRules::of(self.rules),
            self.saved_args_size,
        )
    }
}
