//! Running a frame program from one body of a row to another. DWARF 5 section 6.4.3.

ghost use Rattle.std.specs.Prelude.{[], ◌≡◌, ◌≢◌, ◌<◌, ◌≤◌, ◌^◌, ℕ, IfOk, IfSome, None, Ok, false, length, take};
ghost use Rattle.std.specs.Prelude.{true};
ghost use Rattle.std.specs.List.{AllByRecursion};
ghost use Rattle.unwind_definitions.specs.Instructions.{Program};
ghost use Rattle.unwind_definitions.specs.Row.{RowInstructions};
ghost use Rattle.frame_rows.specs.InstructionViews.{coding_in, short_meaning};
ghost use Rattle.unwind_definitions.specs.Row.{from_common};
ghost use Rattle.frame_rows.specs.Bodies.{Grows};
ghost use Rattle.frame_rows.specs.BodyRuns.{IsRunning, RunsTo};
ghost use Rattle.frame_rows.specs.BodySteps.{HasInitial};
ghost use Rattle.frame_rows.specs.KeptRows.{KeptRows};
ghost use Rattle.frame_rows.specs.Running.{Represents, outcome};
ghost use Rattle.frame_rows.specs.TableRows.{HasBody};
ghost use Rattle.frame_rows.specs.Stepping.{HasRoom, IsLeft, IsWithin, StandsAfter, StandsFor, TakesTurn};
ghost use Rattle.frame_rows.specs.declared.machine.Machine.{Machine};
ghost use Rattle.frame_rows.specs.declared.stretch.Turn.{Turn};

use crate::coding::Coding;
use crate::instruction::{CallFrameInstruction, ShortInstruction, read_instruction, read_short};
use crate::row_bodies::KnownBodies;
use crate::row_steps::SteppedBodies;
use crate::row_table::TableRow;
use crate::stretch::Turn;
use encoded_pointers::Cursor;
use std::alloc::AllocError;

/// A program that runs, where the row so far and the remembered one are bodies that stand in a list.
#[derive(Clone, Copy)]
pub(crate) struct BodyRun<'a> {
    /// The bytes that are left.
    pub(crate) rest: &'a [u8],
    pub(crate) location: u64,
    pub(crate) place: usize,
    /// Where the body of the row stands that the run began with: it has the initial rules.
    pub(crate) first: usize,
    pub(crate) remembered: Option<usize>,
    /// How many rules the rows so far have, with those of all others.
    pub(crate) rule_count: u64,
}

impl<'a> BodyRun<'a> {
    /// Reads an instruction, and runs it where it is known what it makes, unless it leads on. `None`
    /// where it isn't, or can't be read: then it isn't read.
    #[inline(always)]
    pub(crate) fn turn(&mut self, bodies: &SteppedBodies<'a>, coding: Coding) -> Option<Turn>
        requires { coding.code_factor < 2 ^ 32 }
        ensures turns { IfSome result (λ turn. (start : ℕ) (m : Machine) (run : RowInstructions)
            (q : Program) → Represents start m run → StandsFor bodies.now self.old m →
            IsLeft (coding_in coding.entry) self.old.rest.now q →
            TakesTurn bodies.now (coding_in coding.entry) start run q turn self.new) }
        ensures within { IsWithin bodies.now self.old → IsWithin bodies.now self.new }
        ensures fewer { IfSome result (λ _. length self.new.rest.now < length self.old.rest.now) }
        ensures none { result ≡ None → self.new ≡ self.old }
        ensures first { self.new.first ≡ self.old.first }
        ensures location { self.new.location ≡ self.old.location }
        ensures rules { self.new.rule_count ≡ self.old.rule_count }
    {
        let mut input = Cursor::new(self.rest, 0);
        let short = read_short(&mut input, coding)?;
        let rest = input.bytes();
        let turn = self.run(bodies, short)?;
        self.rest = rest;
        Some(turn)
    }

    // Runs an instruction where it is known what it makes, unless it leads on. `None` where it isn't.
    #[inline(always)]
    fn run(&mut self, bodies: &SteppedBodies<'a>, short: ShortInstruction) -> Option<Turn>
        ensures moves { IfSome result (λ turn. (start : ℕ) (m : Machine) (run : RowInstructions) →
            Represents start m run → StandsFor bodies.now self.old m →
            StandsAfter bodies.now start run (short_meaning short) turn self.new) }
        ensures within { IsWithin bodies.now self.old → IsWithin bodies.now self.new }
        ensures none { result ≡ None → self.new ≡ self.old }
        ensures rest { self.new.rest ≡ self.old.rest }
        ensures first { self.new.first ≡ self.old.first }
        ensures location { self.new.location ≡ self.old.location }
        ensures rules { self.new.rule_count ≡ self.old.rule_count }
    {
        match short {
            ShortInstruction::Nop => Some(Turn::Ran),
            ShortInstruction::Advance(delta) => {
                if delta == 0 {
                    return None;
                }
                Some(Turn::LeadsOn(self.location.checked_add(delta)?))
            }
            ShortInstruction::Save { register, offset } => {
                self.place = bodies.with_save(self.place, register, offset)?;
                Some(Turn::Ran)
            }
            ShortInstruction::DefineCfaOffset(offset) => {
                self.place = bodies.with_offset(self.place, offset)?;
                Some(Turn::Ran)
            }
            ShortInstruction::RememberState => {
                if self.remembered.is_some() {
                    return None;
                }
                self.remembered = Some(self.place);
                Some(Turn::Ran)
            }
            ShortInstruction::RestoreState => {
                let place = self.remembered?;
                self.place = place;
                self.remembered = None;
                Some(Turn::Ran)
            }
        }
    }
}

/// Where a run from body to body ends.
#[derive(Clone, Copy)]
pub(crate) enum RunEnd {
    /// An instruction leads past the range.
    Past,
    /// It isn't known what an instruction makes, or none is left.
    Stopped,
    /// No instruction is left.
    Ended,
    /// An instruction makes no body.
    GivenUp,
}

impl<'a> BodyRun<'a> {
    // Runs the next instruction where it makes a body. What a new offset of the CFA or a saved register
    // makes is known from then on. `false` where it makes none: then it isn't read.
    #[inline(never)]
    fn learn(
        &mut self,
        bodies: &mut SteppedBodies<'a>,
        known: &mut KnownBodies,
        coding: Coding,
    ) -> Result<bool, AllocError>
        requires within { IsWithin bodies.old self.old }
        requires factor { coding.code_factor < 2 ^ 32 }
        ensures grows { Grows bodies.old bodies.new }
        ensures turns { result ≡ Ok true → (start : ℕ) (m : Machine) (run : RowInstructions)
            (q : Program) → Represents start m run → StandsFor bodies.new self.old m →
            HasInitial bodies.new self.old.first run →
            IsLeft (coding_in coding.entry) self.old.rest.now q →
            TakesTurn bodies.new (coding_in coding.entry) start run q Turn.Ran self.new }
        ensures stays { result ≡ Ok false → self.new ≡ self.old }
        ensures within { IfOk result (λ _. IsWithin bodies.new self.new) }
        ensures fewer { length self.new.rest.now ≤ length self.old.rest.now }
        ensures first { self.new.first ≡ self.old.first }
        ensures location { self.new.location ≡ self.old.location }
        ensures rules { self.new.rule_count ≡ self.old.rule_count }
    {
        let mut input = Cursor::new(self.rest, 0);
        match read_short(&mut input, coding) {
            Some(ShortInstruction::Save { register, offset }) => {
                let made = bodies.make_save(known, self.place, register, offset)?;
                Ok(self.move_to(made, input.bytes()))
            }
            Some(ShortInstruction::DefineCfaOffset(offset)) => {
                let made = bodies.make_offset(known, self.place, offset)?;
                Ok(self.move_to(made, input.bytes()))
            }
            Some(_) => Ok(false),
            None => self.run_other(bodies, known, coding),
        }
    }

    // Goes on to a body, if there is one, with these bytes left. It answers whether there is.
    fn move_to(&mut self, made: Option<usize>, rest: &'a [u8]) -> bool
        ensures moved { IfSome made (λ _. result ≡ true) }
        ensures moves { IfSome made (λ place. (self.new.place ≡ place) ×
            (self.new.rest.now ≡ rest.now)) }
        ensures stays { made ≡ None → (result ≡ false) × (self.new ≡ self.old) }
        ensures remembered { self.new.remembered ≡ self.old.remembered }
        ensures first { self.new.first ≡ self.old.first }
        ensures location { self.new.location ≡ self.old.location }
        ensures rules { self.new.rule_count ≡ self.old.rule_count }
    {
        match made {
            Some(place) => {
                self.place = place;
                self.rest = rest;
                true
            }
            None => false,
        }
    }

    // Runs the next instruction where it defines the CFA's register or restores a register's initial
    // rule, and makes a body. `false` where it doesn't: then it isn't read. What it makes isn't noted.
    #[inline(never)]
    fn run_other(
        &mut self,
        bodies: &mut SteppedBodies<'a>,
        known: &mut KnownBodies,
        coding: Coding,
    ) -> Result<bool, AllocError>
        requires within { IsWithin bodies.old self.old }
        ensures grows { Grows bodies.old bodies.new }
        ensures turns { result ≡ Ok true → (start : ℕ) (m : Machine) (run : RowInstructions)
            (q : Program) → Represents start m run → StandsFor bodies.new self.old m →
            HasInitial bodies.new self.old.first run →
            IsLeft (coding_in coding.entry) self.old.rest.now q →
            TakesTurn bodies.new (coding_in coding.entry) start run q Turn.Ran self.new }
        ensures stays { result ≡ Ok false → self.new ≡ self.old }
        ensures within { IfOk result (λ _. IsWithin bodies.new self.new) }
        ensures fewer { length self.new.rest.now ≤ length self.old.rest.now }
        ensures first { self.new.first ≡ self.old.first }
        ensures location { self.new.location ≡ self.old.location }
        ensures rules { self.new.rule_count ≡ self.old.rule_count }
    {
        let mut input = Cursor::new(self.rest, 0);
        let read = read_instruction(&mut input, coding);
        let rest = input.bytes();
        if rest.len() >= self.rest.len() {
            return Ok(false);
        }
        match read {
            Ok(CallFrameInstruction::DefineCfa { register, offset }) => {
                let made = bodies.make_cfa(known, self.place, register, offset)?;
                Ok(self.move_to(made, rest))
            }
            Ok(CallFrameInstruction::DefineCfaRegister(register)) => {
                let made = bodies.make_cfa_register(known, self.place, register)?;
                Ok(self.move_to(made, rest))
            }
            Ok(CallFrameInstruction::RestoreInitialRule(register)) => {
                let made = bodies.make_restore(known, self.first, self.place, register)?;
                Ok(self.move_to(made, rest))
            }
            _ => Ok(false),
        }
    }
}

// Adds row after row as far as it is known what the instructions make.
#[inline(always)]
fn run_known<'a>(
    bodies: &SteppedBodies<'a>,
    rows: &mut Vec<TableRow>,
    run: &mut BodyRun<'a>,
    coding: Coding,
    start: u64,
    end: u64,
) -> Result<RunEnd, AllocError>
    requires within { IsWithin bodies.now run.old }
    requires factor { coding.code_factor < 2 ^ 32 }
    requires room { HasRoom run.old }
    ensures within { IfOk result (λ _. IsWithin bodies.now run.new) }
    ensures room { IfOk result (λ _. HasRoom run.new) }
    ensures bodied { AllByRecursion (HasBody bodies.now) rows.old.items →
        AllByRecursion (HasBody bodies.now) rows.new.items }
    ensures longer { length rows.old.items ≤ length rows.new.items }
    ensures before { (n : ℕ) → n ≤ length rows.old.items →
        take n rows.new.items ≡ take n rows.old.items }
    ensures runs { (common own : Program) (old : KeptRows) (first : RowInstructions) →
        let coding = coding_in coding.entry in
        outcome 0 None (from_common []) common ≡ Ok first →
        IsRunning start end common own old coding bodies.now rows.old.items run.old →
        RunsTo start end common own old coding bodies.now result rows.new.items run.new }
{
    let mut now = *run;
    loop {
        match now.turn(bodies, coding) {
            Some(Turn::Ran) => {}
            Some(Turn::LeadsOn(next)) => {
                rows.push(TableRow {
                    distance: now.location.wrapping_sub(start),
                    body: now.place,
                })?;
                now.rule_count += bodies.rule_count(now.place) as u64;
                now.location = next;
                if next >= end {
                    *run = now;
                    return Ok(RunEnd::Past);
                }
            }
            Some(Turn::Ended) => {
                *run = now;
                return Ok(RunEnd::GivenUp);
            }
            None => {
                *run = now;
                return Ok(RunEnd::Stopped);
            }
        }
    }
}

// Adds the last row of a run of which no bytes are left.
fn finish<'a>(
    bodies: &SteppedBodies<'a>,
    rows: &mut Vec<TableRow>,
    run: &mut BodyRun<'a>,
    coding: Coding,
    start: u64,
    end: u64,
) -> Result<RunEnd, AllocError>
    requires within { IsWithin bodies.now run.old }
    requires none { run.old.rest.now ≡ [] }
    requires room { HasRoom run.old }
    ensures ended { IfOk result (λ end. end ≡ RunEnd.Ended) }
    ensures bodied { AllByRecursion (HasBody bodies.now) rows.old.items →
        AllByRecursion (HasBody bodies.now) rows.new.items }
    ensures longer { length rows.old.items ≤ length rows.new.items }
    ensures before { (n : ℕ) → n ≤ length rows.old.items →
        take n rows.new.items ≡ take n rows.old.items }
    ensures runs { (common own : Program) (old : KeptRows) (first : RowInstructions) →
        let coding = coding_in coding.entry in
        outcome 0 None (from_common []) common ≡ Ok first →
        IsRunning start end common own old coding bodies.now rows.old.items run.old →
        RunsTo start end common own old coding bodies.now result rows.new.items run.new }
{
    rows.push(TableRow {
        distance: run.location.wrapping_sub(start),
        body: run.place,
    })?;
    run.rule_count += bodies.rule_count(run.place) as u64;
    Ok(RunEnd::Ended)
}

/// Adds the rows of a program that runs from body to body, as far as instructions make bodies. What
/// new offsets of the CFA and saved registers make is known from then on.
#[inline(always)]
pub(crate) fn run_bodies<'a>(
    bodies: &mut SteppedBodies<'a>,
    known: &mut KnownBodies,
    rows: &mut Vec<TableRow>,
    run: &mut BodyRun<'a>,
    coding: Coding,
    start: u64,
    end: u64,
) -> Result<RunEnd, AllocError>
    requires within { IsWithin bodies.old run.old }
    requires bodied { AllByRecursion (HasBody bodies.old) rows.old.items }
    requires factor { coding.code_factor < 2 ^ 32 }
    requires room { HasRoom run.old }
    ensures known { result ≢ Ok RunEnd.Stopped }
    ensures grows { Grows bodies.old bodies.new }
    ensures bodied { AllByRecursion (HasBody bodies.new) rows.new.items }
    ensures longer { length rows.old.items ≤ length rows.new.items }
    ensures before { (n : ℕ) → n ≤ length rows.old.items →
        take n rows.new.items ≡ take n rows.old.items }
    ensures runs { (common own : Program) (old : KeptRows) (first : RowInstructions) →
        let coding = coding_in coding.entry in
        outcome 0 None (from_common []) common ≡ Ok first →
        IsRunning start end common own old coding bodies.old rows.old.items run.old →
        RunsTo start end common own old coding bodies.new result rows.new.items run.new }
{
    for _turn in 0..u64::MAX {
        match run_known(bodies, rows, run, coding, start, end)? {
            RunEnd::Stopped => {}
            ended => return Ok(ended),
        }
        if run.rest.is_empty() {
            return finish(bodies, rows, run, coding, start, end);
        }
        if !run.learn(bodies, known, coding)? {
            return Ok(RunEnd::GivenUp);
        }
    }
    Ok(RunEnd::GivenUp)
}
