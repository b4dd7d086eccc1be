//! The registers that have a rule, by ascending column.

ghost use Rattle.std.specs.Prelude.{◌≡◌, ◌<◌, ◌≤◌, ◌++◌, ◌∷◌, [], ℕ, List, length, IfErr};
ghost use Rattle.std.specs.List.{insert};

use crate::rule::RegisterRule;
use arrayvec::ArrayVec;
use std::marker::Model;
use unwind_arch::Register;
use unwind_definitions::Error;

// how many registers can have a rule
const CAPACITY: usize = 32;

// what stands in the places that aren't used
const BLANK: [(Register, RegisterRule<'static>); CAPACITY] = [(
    Register(0),
    RegisterRule::Undefined,
); CAPACITY];

/// The registers that have a rule, each with its rule, at most 32.
///
/// They lie in the value itself: rows are made for each frame, and a list of so few is copied in
/// less time than one on the heap.
#[derive(Drop)]
pub(crate) struct RegisterRules<'a> {
    entries: ArrayVec<(Register, RegisterRule<'a>), CAPACITY>,
}

impl<'a> Model for RegisterRules<'a> {
    ghost use Rattle.std.specs.Prelude.{ℕ, List, map};
    ghost use Rattle.unwind_definitions.specs.Instructions.{Rule};

    ghost Value = { List (ℕ × Rule) };

    ghost use Rattle.frame_rows.specs.Rules.{entry_of, AscendsFrom};

    ghost view = { λ a. map entry_of a.entries.items };

    ghost invariant = { λ a. AscendsFrom 0 (map entry_of a.entries.items) };
}

impl<'a> RegisterRules<'a> {
    ghost use Rattle.std.specs.Prelude.{[], IfSome, Some, None, is_some, OnOk, OnErr, true, false, map, ◌≤◌};
    ghost use Rattle.std.specs.Option.{option_map};
    ghost use Rattle.frame_rows.specs.Rules.{entry_of, rule_in, find_in, with_rule, rule_meaning};
    ghost use Rattle.frame_rows.specs.Rules.{AscendsFrom, is_room};

    /// No rules.
    // A list that is full and then cleared, as `ArrayVec::new` makes each place on its own, at
    // several times the instructions. Not inlined: places that are cleared beside others would be
    // cleared byte by byte.
    #[inline(never)]
    pub(crate) fn new() -> RegisterRules<'a>
        ensures { result ≡ [] }
    {
        let mut entries = ArrayVec::from(BLANK);
        entries.clear();
        RegisterRules { entries }
    }

    /// These rules.
    pub(crate) fn of(entries: &[(Register, RegisterRule<'a>)]) -> RegisterRules<'a>
        requires ascending { AscendsFrom 0 (map entry_of entries.now) }
        requires fits { length entries.now ≤ 32 }
        ensures { result ≡ map entry_of entries.now }
    {
        let mut rules = RegisterRules::new();
        let _fits = rules.entries.try_extend_from_slice(entries);
        rules
    }

    /// The registers that have a rule, by ascending column.
    pub(crate) fn entries(&self) -> &[(Register, RegisterRule<'a>)]
        ensures value { map entry_of result.now ≡ self.now }
        ensures ascending { AscendsFrom 0 self.now }
        ensures count { length self.now ≤ 32 }
    {
        self.entries.as_slice()
    }

    // The index of a register's entry, or where one can be put. There are few, and most are put before
    // the others, so that one after another is found in less time than by halves.
    #[inline(always)]
    fn find(&self, register: Register) -> Result<usize, usize>
        ensures { result ≡ find_in register.0 0 self.now }
    {
        let entries = self.entries();
        for i in 0..entries.len() {
            let column = entries[i].0.0;
            if column == register.0 {
                return Ok(i);
            }
            if column > register.0 {
                return Err(i);
            }
        }
        Err(entries.len())
    }

    /// The rule of a register.
    pub(crate) fn get(&self, register: Register) -> Option<RegisterRule<'a>>
        ensures { option_map rule_meaning result ≡ rule_in self.now register.0 }
    {
        match self.find(register) {
            Ok(i) => Some(self.entries[i].1),
            Err(_) => None,
        }
    }

    /// Gives a register a rule, in place of the one that it has.
    pub(crate) fn set(&mut self, register: Register, rule: RegisterRule<'a>) -> Result<(), Error>
        ensures ascending { AscendsFrom 0 self.old }
        ensures ok { OnOk result ((c : ℕ) →
            rule_in self.new c ≡ with_rule register.0 (Some (rule_meaning rule.entry)) self.old c) }
        ensures room { OnOk result (is_room register.0 self.old ≡ true) }
        ensures full { OnErr result (is_room register.0 self.old ≡ false) }
        ensures err { IfErr result (λ e. e ≡ Error.TooManyRegisterRules) }
    {
        match self.find(register) {
            Ok(i) => self.entries[i] = (register, rule),
            Err(i) => {
                if self.entries.is_full() {
                    return Err(Error::TooManyRegisterRules);
                }
                let last = shift_in(self.entries.as_mut_slice(), i, (register, rule));
                self.entries.push(last);
            }
        }
        Ok(())
    }

    /// Takes a register's rule away.
    pub(crate) fn remove(&mut self, register: Register)
        ensures { (c : ℕ) → rule_in self.new c ≡ with_rule register.0 None self.old c }
    {
        match self.find(register) {
            Ok(i) => {
                self.entries.remove(i);
            }
            Err(_) => {}
        }
    }

    /// Gives a register its initial rule, or takes its rule away where there is no initial one.
    pub(crate) fn reset(
        &mut self,
        register: Register,
        rule: Option<RegisterRule<'a>>,
    ) -> Result<(), Error>
        ensures ok { OnOk result ((c : ℕ) → rule_in self.new c ≡
            with_rule register.0 (option_map rule_meaning rule.entry) self.old c) }
        ensures room { OnOk result (IfSome (option_map rule_meaning rule.entry)
            (λ _. is_room register.0 self.old ≡ true)) }
        ensures full { OnErr result (is_room register.0 self.old ≡ false) }
        ensures some { OnErr result (is_some rule.entry ≡ true) }
        ensures err { IfErr result (λ e. e ≡ Error.TooManyRegisterRules) }
    {
        match rule {
            Some(rule) => self.set(register, rule),
            None => {
                self.remove(register);
                Ok(())
            }
        }
    }

    /// Takes all rules away.
    pub(crate) fn clear(&mut self)
        ensures { self.new ≡ [] }
    {
        self.entries.clear();
    }

    /// Puts these rules in place of its own. Places that aren't used aren't written.
    pub(crate) fn put(&mut self, entries: &[(Register, RegisterRule<'a>)])
        requires ascending { AscendsFrom 0 (map entry_of entries.now) }
        requires fits { length entries.now ≤ 32 }
        ensures { self.new ≡ map entry_of entries.now }
    {
        self.entries.clear();
        let _fits = self.entries.try_extend_from_slice(entries);
    }

    /// Puts the rules of another list in place of its own. Places that aren't used aren't written.
    pub(crate) fn assign(&mut self, other: &RegisterRules<'a>)
        ensures { self.new ≡ other.now }
    {
        // mostly there are as many, and no place is cleared first
        if self.entries.len() == other.entries.len() {
            self.entries.copy_from_slice(&other.entries);
        } else {
            self.entries.clear();
            let _fits = self.entries.try_extend_from_slice(&other.entries);
        }
    }
}

// Puts an entry at an index, moves those from there on one place on, and answers the last, for which
// there is no place. There are few, so that this takes less than a rotation.
fn shift_in<'a>(
    entries: &mut [(Register, RegisterRule<'a>)],
    index: usize,
    entry: (Register, RegisterRule<'a>),
) -> (Register, RegisterRule<'a>)
    requires { index ≤ length entries.old }
    ensures { insert entries.old index entry.entry ≡ entries.new ++ result ∷ [] }
{
    let mut carried = entry;
    for i in index..entries.len() {
        let next = entries[i];
        entries[i] = carried;
        carried = next;
    }
    carried
}
