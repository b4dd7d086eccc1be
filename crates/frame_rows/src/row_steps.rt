//! Bodies of rows, and what instructions make of them. DWARF 5 section 6.4.2.

ghost use Rattle.std.specs.Prelude.{[], ◌≡◌, ◌<◌, ◌≤◌, ◌&&◌, IfOk, IfSome, List, None, Ok, Result};
ghost use Rattle.std.specs.Prelude.{false, is_ok, length, map, slice_index_or, true};
ghost use Rattle.std.specs.Option.{option_map};
ghost use Rattle.unwind_definitions.specs.declared.error.Error.{Error as Fault};
ghost use Rattle.unwind_definitions.specs.Instructions.{Cfa, CfaColumn, CfaOffset, Offset, Write};
ghost use Rattle.frame_rows.specs.Bodies.{Grows, Says, kept_answer};
ghost use Rattle.frame_rows.specs.BodySteps.{MakesBody, RestoresBody, SaysWithCfa, has_column_cfa, takes_rule};
ghost use Rattle.frame_rows.specs.KeptRows.{Ascends, answer_rule_count};
ghost use Rattle.frame_rows.specs.RowValue.{RowValue};
ghost use Rattle.frame_rows.specs.Rules.{entry_of, rule_in, rule_meaning, AscendsFrom};
ghost use Rattle.frame_rows.specs.SameRules.{IsBodyWith};

use crate::known_steps::{KnownStep, KnownSteps};
use crate::row_bodies::{KnownBodies, RowBodies};
use crate::row_ref::RowRef;
use crate::rule::{CfaRule, RegisterRule};
use crate::rules::RegisterRules;
use std::alloc::{AllocError, Global};
use std::marker::Model;
use unwind_arch::Register;
use unwind_definitions::Error;

/// The bodies of rows, and which instructions are known to make one of another.
#[derive(Drop)]
pub(crate) struct SteppedBodies<'a> {
    bodies: RowBodies<'a>,
    // what a new offset of the CFA makes of a body: these steps have no register
    offsets: KnownSteps,
    // what a register that is saved at an offset from the CFA makes of it
    saves: KnownSteps,
    // room for the rules of a body that is made
    room: RegisterRules<'a>,
}

impl<'a> Model for SteppedBodies<'a> {
    ghost use Rattle.std.specs.Prelude.{List, Result};
    ghost use Rattle.unwind_definitions.specs.declared.error.Error.{Error as Fault};
    ghost use Rattle.frame_rows.specs.RowValue.{RowValue};
    ghost use Rattle.frame_rows.specs.BodySteps.{AreSteps, offset_step, save_step};

    ghost Value = { List (Result RowValue Fault) };

    ghost view = { λ s. s.bodies };

    ghost invariant = { λ s.
        AreSteps offset_step s.bodies s.offsets × AreSteps save_step s.bodies s.saves };
}

impl<'a> SteppedBodies<'a> {
    /// No bodies.
    pub(crate) fn new(alloc: Global) -> SteppedBodies<'a>
        ensures { result ≡ [] }
    {
        SteppedBodies {
            bodies: RowBodies::new(alloc),
            offsets: KnownSteps::new(alloc),
            saves: KnownSteps::new(alloc),
            room: RegisterRules::new(),
        }
    }

    /// Gives back what memory isn't used, and forgets what instructions make of bodies.
    pub(crate) fn shrink_to_fit(&mut self)
        ensures { self.new ≡ self.old }
    {
        self.bodies.shrink_to_fit();
        self.offsets.free();
        self.saves.free();
    }

    /// The body at a place, lent.
    pub(crate) fn get(&self, place: usize) -> Result<RowRef<'_, 'a>, Error>
        requires { place < length self.now }
        ensures { (d : Result RowValue Fault) → result ≡ slice_index_or self.now place d }
    {
        self.bodies.get(place)
    }

    /// How many rules the body at a place has.
    #[inline(always)]
    pub(crate) fn rule_count(&self, place: usize) -> usize
        requires { place < length self.now }
        ensures count { (d : Result RowValue Fault) →
            result ≡ answer_rule_count (slice_index_or self.now place d) }
        ensures ascends { (d : Result RowValue Fault) → Ascends (slice_index_or self.now place d) }
        ensures few { result ≤ 32 }
    {
        self.bodies.rule_count(place)
    }

    /// Whether the body at a place is a row.
    pub(crate) fn says(&self, place: usize, row: RowRef<'_, 'a>) -> bool
        ensures { result ≡ true → Says self.now place (Ok row.entry) }
    {
        let cfa = Ok(row.cfa());
        self.bodies
            .says(place, cfa, row.entries(), row.saved_args_size(), None)
    }

    /// Where a body stands, as [`RowBodies::keep`] says.
    #[inline(always)]
    pub(crate) fn keep(
        &mut self,
        known: &mut KnownBodies,
        cfa: Result<CfaRule<'a>, Error>,
        rules: &[(Register, RegisterRule<'a>)],
        saved_args_size: u64,
        like: Option<usize>,
    ) -> Result<usize, AllocError>
        requires ascending { AscendsFrom 0 (map entry_of rules.now) }
        requires few { length rules.now ≤ 32 }
        requires like { IsBodyWith self.old like (map entry_of rules.now) }
        ensures grows { Grows self.old self.new }
        ensures says { IfOk result (λ place. Says self.new place
            (kept_answer cfa.entry (map entry_of rules.now) saved_args_size)) }
    {
        self.bodies.keep(known, cfa, rules, saved_args_size, like)
    }

    /// Where the body stands that a new offset of the CFA makes of another, where that is known.
    #[inline(always)]
    pub(crate) fn with_offset(&self, place: usize, offset: u64) -> Option<usize>
        ensures { IfSome result (λ to. MakesBody self.now (CfaOffset offset) place to) }
    {
        match self.offsets.find_offset(place, offset) {
            Some(step) => Some(step.to),
            None => None,
        }
    }

    /// Where the body stands that a saved register makes of another, where that is known.
    #[inline(always)]
    pub(crate) fn with_save(&self, place: usize, register: Register, offset: u64) -> Option<usize>
        ensures { IfSome result (λ to.
            MakesBody self.now (Write register.0 (Offset offset)) place to) }
    {
        match self.saves.find(place, register, offset) {
            Some(step) => Some(step.to),
            None => None,
        }
    }

    /// Where the body stands that a new offset of the CFA makes of another, from now on known.
    /// `None` where it makes none.
    #[inline(never)]
    pub(crate) fn make_offset(
        &mut self,
        known: &mut KnownBodies,
        place: usize,
        offset: u64,
    ) -> Result<Option<usize>, AllocError>
        requires { place < length self.old }
        ensures grows { Grows self.old self.new }
        ensures makes { IfOk result (λ made. IfSome made (λ to.
            MakesBody self.new (CfaOffset offset) place to)) }
        ensures none { result ≡ Ok None → (d : Result RowValue Fault) →
            has_column_cfa (slice_index_or self.old place d) ≡ false }
    {
        let Ok(row) = self.bodies.get(place) else {
            return Ok(None);
        };
        let CfaRule::RegisterAndOffset {
            register,
            offset: _,
        } = row.cfa()
        else {
            return Ok(None);
        };
        let Some(to) = self.with_cfa(known, place, register, offset)? else {
            return Ok(None);
        };
        self.offsets.note(KnownStep {
            from: place,
            register: Register(0),
            offset,
            to,
        })?;
        Ok(Some(to))
    }

    /// The same of a register that is saved.
    #[inline(never)]
    pub(crate) fn make_save(
        &mut self,
        known: &mut KnownBodies,
        place: usize,
        register: Register,
        offset: u64,
    ) -> Result<Option<usize>, AllocError>
        requires { place < length self.old }
        ensures grows { Grows self.old self.new }
        ensures makes { IfOk result (λ made. IfSome made (λ to.
            MakesBody self.new (Write register.0 (Offset offset)) place to)) }
        ensures none { result ≡ Ok None → (d : Result RowValue Fault) →
            takes_rule register.0 (slice_index_or self.old place d) ≡ false }
    {
        let Ok(row) = self.bodies.get(place) else {
            return Ok(None);
        };
        let cfa = row.cfa();
        let size = row.saved_args_size();
        self.room.put(row.entries());
        let Ok(_set) = self.room.set(register, RegisterRule::Offset(offset)) else {
            return Ok(None);
        };
        let to = self
            .bodies
            .keep(known, Ok(cfa), self.room.entries(), size, None)?;
        self.saves.note(KnownStep {
            from: place,
            register,
            offset,
            to,
        })?;
        Ok(Some(to))
    }

    /// Where the body stands that another CFA makes of a body. `None` where it makes none.
    #[inline(never)]
    pub(crate) fn make_cfa(
        &mut self,
        known: &mut KnownBodies,
        place: usize,
        register: Register,
        offset: u64,
    ) -> Result<Option<usize>, AllocError>
        requires { place < length self.old }
        ensures grows { Grows self.old self.new }
        ensures makes { IfOk result (λ made. IfSome made (λ to.
            MakesBody self.new (Cfa register.0 offset) place to)) }
        ensures none { result ≡ Ok None → (d : Result RowValue Fault) →
            is_ok (slice_index_or self.old place d) ≡ false }
    {
        let Some(to) = self.with_cfa(known, place, register, offset)? else {
            return Ok(None);
        };
        Ok(Some(to))
    }

    /// The same of another register of the CFA.
    #[inline(never)]
    pub(crate) fn make_cfa_register(
        &mut self,
        known: &mut KnownBodies,
        place: usize,
        register: Register,
    ) -> Result<Option<usize>, AllocError>
        requires { place < length self.old }
        ensures grows { Grows self.old self.new }
        ensures makes { IfOk result (λ made. IfSome made (λ to.
            MakesBody self.new (CfaColumn register.0) place to)) }
        ensures none { result ≡ Ok None → (d : Result RowValue Fault) →
            has_column_cfa (slice_index_or self.old place d) ≡ false }
    {
        let Ok(row) = self.bodies.get(place) else {
            return Ok(None);
        };
        let CfaRule::RegisterAndOffset {
            register: _,
            offset,
        } = row.cfa()
        else {
            return Ok(None);
        };
        let Some(to) = self.with_cfa(known, place, register, offset)? else {
            return Ok(None);
        };
        Ok(Some(to))
    }

    /// Where the body stands that a register's initial rule makes of a body: the rule that the body has
    /// with which a run began, or none. `None` where it makes none. It isn't noted, as it is of that run
    /// alone.
    #[inline(never)]
    pub(crate) fn make_restore(
        &mut self,
        known: &mut KnownBodies,
        first: usize,
        place: usize,
        register: Register,
    ) -> Result<Option<usize>, AllocError>
        requires first { first < length self.old }
        requires place { place < length self.old }
        ensures grows { Grows self.old self.new }
        ensures makes { IfOk result (λ made. IfSome made (λ to.
            RestoresBody self.new register.0 first place to)) }
        ensures none { result ≡ Ok None → (d : Result RowValue Fault) →
            is_ok (slice_index_or self.old first d) &&
            takes_rule register.0 (slice_index_or self.old place d) ≡ false }
    {
        let Ok(initial) = self.bodies.get(first) else {
            return Ok(None);
        };
        let rule = rule_among(initial.entries(), register);
        let Ok(row) = self.bodies.get(place) else {
            return Ok(None);
        };
        let cfa = row.cfa();
        let size = row.saved_args_size();
        self.room.put(row.entries());
        let Ok(_reset) = self.room.reset(register, rule) else {
            return Ok(None);
        };
        let to = self
            .bodies
            .keep(known, Ok(cfa), self.room.entries(), size, None)?;
        Ok(Some(to))
    }

    // Where the body stands that says what another one does, but for the CFA. `None` where that one is
    // a fault.
    #[inline(always)]
    fn with_cfa(
        &mut self,
        known: &mut KnownBodies,
        place: usize,
        register: Register,
        offset: u64,
    ) -> Result<Option<usize>, AllocError>
        requires { place < length self.old }
        ensures grows { Grows self.old self.new }
        ensures says { IfOk result (λ made. IfSome made (λ to.
            SaysWithCfa self.old self.new register.0 offset place to)) }
        ensures none { result ≡ Ok None → (d : Result RowValue Fault) →
            is_ok (slice_index_or self.old place d) ≡ false }
    {
        self.bodies.with_cfa(known, place, register, offset)
    }
}

// The rule of a register among those of a body.
fn rule_among<'a>(
    entries: &[(Register, RegisterRule<'a>)],
    register: Register,
) -> Option<RegisterRule<'a>>
    ensures { option_map rule_meaning result ≡ rule_in (map entry_of entries.now) register.0 }
{
    match entries {
        [] => None,
        [entry, rest @ ..] => {
            if entry.0.0 == register.0 {
                Some(entry.1)
            } else {
                rule_among(rest, register)
            }
        }
    }
}
