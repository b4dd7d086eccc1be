//! Running a frame program from one location to the next. DWARF 5 section 6.4.3.

ghost use Rattle.std.specs.Prelude.{◌≡◌, ◌<◌, ℕ, IfOk, IfSome, List, None};
ghost use Rattle.unwind_definitions.specs.Instructions.{Coding as Operands, program};
ghost use Rattle.unwind_definitions.specs.Row.{RowInstructions};
ghost use Rattle.encoded_pointers.specs.CursorViews.{at};
ghost use Rattle.frame_rows.specs.InstructionViews.{coding_in, meaning, short_meaning};
ghost use Rattle.frame_rows.specs.KeptRows.{Kept};
ghost use Rattle.frame_rows.specs.Running.{Represents};
ghost use Rattle.frame_rows.specs.SameRules.{KnowsRows};
ghost use Rattle.frame_rows.specs.Stretches.{left_of, IsNext, EndsStretch};
ghost use Rattle.frame_rows.specs.Stretches.{BeginsWith, IsReadMoving, MovesOn};
ghost use Rattle.frame_rows.specs.Turns.{IsNoEnd, Moves, TurnMoves, Turns, TurnsFewer};

use crate::coding::Coding;
use crate::instruction::{CallFrameInstruction, ShortInstruction, read_instruction, read_short};
use crate::machine::Machine;
use crate::rule::RegisterRule;
use encoded_pointers::Cursor;
use unwind_definitions::Error;

/// The instructions of a program that are still to be read.
#[derive(Drop)]
pub(crate) struct Instructions<'a> {
    input: Cursor<'a>,
    // how many there can be: each takes a byte at least
    left: usize,
    // whether one of those that were read sets the location
    sets_location: bool,
}

impl<'a> Instructions<'a> {
    /// All instructions of a program.
    pub(crate) fn new(bytes: Cursor<'a>) -> Instructions<'a>
        ensures { (coding : Operands) →
            left_of coding result ≡ program coding (at bytes.entry) }
    {
        Instructions {
            input: bytes,
            left: bytes.len(),
            sets_location: false,
        }
    }

    /// Whether one of the instructions that were read sets the location.
    pub(crate) fn sets_location(&self) -> bool
        ensures { result ≡ self.now.sets_location }
    {
        self.sets_location
    }

    /// The next instruction, `None` at the end.
    #[inline(always)]
    pub(crate) fn next(&mut self, coding: Coding) -> Result<Option<CallFrameInstruction<'a>>, Error>
        ensures reads { let coding = coding_in coding.entry in
            IsNext (left_of coding self.old) result (left_of coding self.new) }
        ensures fewer { IfOk result (λ read. IfSome read (λ _. self.new.left < self.old.left)) }
        ensures moving { IsReadMoving self.old.sets_location result self.new.sets_location }
    {
        if self.left == 0 || self.input.is_empty() {
            return Ok(None);
        }
        self.left -= 1;
        let instruction = read_instruction(&mut self.input, coding)?;
        if let CallFrameInstruction::SetLocation(_) = instruction {
            self.sets_location = true;
        }
        Ok(Some(instruction))
    }

    // The next instruction, where it is one of those that most programs consist of and the code
    // alignment factor has at most 32 bits. It is then read.
    #[inline(always)]
    fn next_short(&mut self, coding: Coding) -> Option<ShortInstruction>
        ensures reads { let coding = coding_in coding.entry in IfSome result (λ short.
            BeginsWith (left_of coding self.old) (short_meaning short) (left_of coding self.new)) }
        ensures fewer { IfSome result (λ _. self.new.left < self.old.left) }
        ensures none { result ≡ None → self.new ≡ self.old }
        ensures moving { self.new.sets_location ≡ self.old.sets_location }
    {
        if self.left == 0 || coding.code_factor >= 0x1_0000_0000 {
            return None;
        }
        let mut rest = self.input;
        let short = read_short(&mut rest, coding)?;
        self.input = rest;
        self.left -= 1;
        Some(short)
    }
}

/// What a turn of running a program does.
#[derive(Clone, Copy)]
pub(crate) enum Turn {
    /// An instruction was read and has run.
    Ran,
    /// One was read that leads on to a location, and hasn't run.
    LeadsOn(u64),
    /// Nothing is left.
    Ended,
}

/// Runs instructions up to the one that leads on from the machine's location, which isn't run, and
/// says where it leads. After a fault the machine is unspecified.
pub(crate) fn run_stretch<'a>(
    machine: &mut Machine<'a>,
    instructions: &mut Instructions<'a>,
    coding: Coding,
) -> Result<Option<u64>, Error>
    ensures ends { (start : ℕ) (run : RowInstructions) → Represents start machine.old run →
        let coding = coding_in coding.entry in
        EndsStretch start run (left_of coding instructions.old) result machine.new
        (left_of coding instructions.new) }
    ensures fewer { IfOk result (λ next.
        IfSome next (λ _. instructions.new.left < instructions.old.left)) }
    ensures moves { let coding = coding_in coding.entry in
        MovesOn result instructions.old.sets_location (left_of coding instructions.old)
        instructions.new.sets_location (left_of coding instructions.new) }
    ensures rows { (rows : List Kept) → KnowsRows rows machine.old → KnowsRows rows machine.new }
{
    loop {
        match take_turn(machine, instructions, coding)? {
            Turn::Ran => {}
            Turn::LeadsOn(next) => return Ok(Some(next)),
            Turn::Ended => return Ok(None),
        }
    }
}

// Reads an instruction, and runs it unless it leads on. Those that most programs consist of are told
// apart by their first bytes, and take two words. After a fault the machine is unspecified.
#[inline(always)]
fn take_turn<'a>(
    machine: &mut Machine<'a>,
    instructions: &mut Instructions<'a>,
    coding: Coding,
) -> Result<Turn, Error>
    ensures turns { (start : ℕ) (run : RowInstructions) → Represents start machine.old run →
        let coding = coding_in coding.entry in
        Turns start run (left_of coding instructions.old) result machine.new
        (left_of coding instructions.new) }
    ensures fewer { TurnsFewer result instructions.old.left instructions.new.left }
    ensures moves { let coding = coding_in coding.entry in
        TurnMoves result instructions.old.sets_location (left_of coding instructions.old)
        instructions.new.sets_location (left_of coding instructions.new) }
    ensures rows { (rows : List Kept) → KnowsRows rows machine.old → KnowsRows rows machine.new }
{
    if let Some(short) = instructions.next_short(coding) {
        return run_short(machine, short);
    }
    match instructions.next(coding)? {
        None => Ok(Turn::Ended),
        Some(instruction) => move_by(machine, instruction),
    }
}

// Runs an instruction unless it leads on.
#[inline(always)]
fn move_by<'a>(
    machine: &mut Machine<'a>,
    instruction: CallFrameInstruction<'a>,
) -> Result<Turn, Error>
    ensures moves { (start : ℕ) (run : RowInstructions) → Represents start machine.old run →
        Moves start run (meaning instruction.entry) result machine.new }
    ensures some { IsNoEnd result }
    ensures rows { (rows : List Kept) → KnowsRows rows machine.old → KnowsRows rows machine.new }
{
    if let Some(next) = machine.leads_on(instruction) {
        return Ok(Turn::LeadsOn(next));
    }
    machine.run(instruction)?;
    Ok(Turn::Ran)
}

// Runs one of the instructions that most programs consist of, unless it leads on.
#[inline(always)]
fn run_short<'a>(machine: &mut Machine<'a>, short: ShortInstruction) -> Result<Turn, Error>
    ensures moves { (start : ℕ) (run : RowInstructions) → Represents start machine.old run →
        Moves start run (short_meaning short) result machine.new }
    ensures some { IsNoEnd result }
    ensures rows { (rows : List Kept) → KnowsRows rows machine.old → KnowsRows rows machine.new }
{
    match short {
        ShortInstruction::Nop => {}
        ShortInstruction::Advance(delta) => {
            let delta = u128::from(delta);
            return move_by(machine, CallFrameInstruction::AdvanceLocation(delta));
        }
        ShortInstruction::Save { register, offset } => {
            machine.set_rule(register, RegisterRule::Offset(offset))?;
        }
        ShortInstruction::DefineCfaOffset(offset) => machine.set_cfa_offset(offset)?,
        ShortInstruction::RememberState => machine.remember_state()?,
        ShortInstruction::RestoreState => machine.restore_state()?,
    }
    Ok(Turn::Ran)
}
