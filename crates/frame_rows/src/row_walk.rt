//! Going through all rows of a description. DWARF 5 sections 6.4.1 and 6.4.3.

ghost use Rattle.std.specs.Prelude.{◌≡◌, ◌<◌, ◌≤◌, ℕ, IfSome, Result, Some};
ghost use Rattle.unwind_definitions.specs.declared.error.Error.{Error as Fault};
ghost use Rattle.unwind_definitions.specs.Instructions.{Coding as Operands, program};
ghost use Rattle.unwind_definitions.specs.Row.{RowInstructions, location, row};
ghost use Rattle.encoded_pointers.specs.CursorViews.{at};
ghost use Rattle.frame_rows.specs.InstructionViews.{coding_in};
ghost use Rattle.frame_rows.specs.Rows.{GivesRow};
ghost use Rattle.frame_rows.specs.Running.{Begins, Represents};
ghost use Rattle.frame_rows.specs.Stretches.{left_of};
ghost use Rattle.frame_rows.specs.Walks.{IsBefore, IsWalking, MakesAll, end_of};

use crate::coding::Coding;
use crate::known_common::KnownCommon;
use crate::machine::Machine;
use crate::program::run_common;
use crate::row_ref::RowRef;
use crate::stretch::{Instructions, run_stretch};
use encoded_pointers::Cursor;
use unwind_definitions::Error;

/// Goes through the rows of a description, each of which holds from one address up to another.
///
/// Each instruction is run once, and the program of a common information entry once for all
/// descriptions in a row that name it, or another with the same program. What the programs need
/// takes some 4 KB, which aren't cleared again for another description.
#[derive(Drop)]
pub struct RowWalk<'a> {
    machine: Machine<'a>,
    instructions: Instructions<'a>,
    // the address from which on another row holds
    end: Option<u64>,
    // what stands in the row's place
    fault: Option<Error>,
    // what the program of a common information entry ended with that was begun before
    common: KnownCommon<'a>,
}

impl<'a> RowWalk<'a> {
    /// A walk that has gone through no rows. Its row has no CFA.
    pub fn new() -> RowWalk<'a> {
        RowWalk {
            machine: Machine::new(),
            instructions: Instructions::new(Cursor::new(&[], 0)),
            end: None,
            fault: None,
            common: KnownCommon::new(),
        }
    }

    /// Goes to the first row of a description whose program begins at `start`. The program of its
    /// common information entry runs first, and whole.
    pub fn begin(&mut self, common: Cursor<'a>, own: Cursor<'a>, coding: Coding, start: u64)
        ensures { let coding = coding_in coding.entry in IsWalking self.new coding start
            (λ pc. row start pc (program coding (at common.entry))
            (program coding (at own.entry))) }
    {
        match self.begin_own(common, coding, start) {
            Ok(()) => {
                self.instructions = Instructions::new(own);
                self.run(coding);
            }
            Err(error) => {
                self.end = None;
                self.fault = Some(error);
            }
        }
    }

    // Begins a description's program at `start`, after that of its common information entry, which
    // runs only where it isn't known what it ends with.
    #[inline(always)]
    fn begin_own(&mut self, common: Cursor<'a>, coding: Coding, start: u64) -> Result<(), Error>
        ensures { Begins start result self.new.machine
            (program (coding_in coding.entry) (at common.entry)) }
    {
        if let Some(state) = self.common.find(common, coding) {
            self.machine.begin_after(state, start);
            return Ok(());
        }
        self.begin_unknown(common, coding, start)
    }

    // The same where that isn't known, and is from now on. Not inlined, as it is for few
    // descriptions of a table.
    #[inline(never)]
    fn begin_unknown(&mut self, common: Cursor<'a>, coding: Coding, start: u64) -> Result<(), Error>
        ensures { Begins start result self.new.machine
            (program (coding_in coding.entry) (at common.entry)) }
    {
        run_common(&mut self.machine, common, coding)?;
        self.common.note(common, coding, &self.machine);
        self.machine.begin(start);
        Ok(())
    }

    /// The row, or the fault, that holds from the address on that the walk has gone to.
    ///
    /// # Errors
    ///
    /// The fault that is met there, or `NoCfaRegister` where the row has no CFA.
    pub fn row(&self) -> Result<RowRef<'_, 'a>, Error>
        ensures { (coding : Operands) (from pc : ℕ) (due : ℕ → Result RowInstructions Fault) →
            IsWalking self.now coding from due → from ≤ pc → IsBefore pc (end_of self.now) →
            GivesRow result (due pc) }
    {
        match self.fault {
            Some(error) => Err(error),
            None => self.machine.row(),
        }
    }

    /// The address from which on another row or fault holds. `None` where this one holds on.
    pub fn end(&self) -> Option<u64>
        ensures end { result ≡ end_of self.now }
        ensures ahead { (coding : Operands) (from : ℕ) (due : ℕ → Result RowInstructions Fault) →
            IsWalking self.now coding from due → IfSome result (λ end. from < end) }
    {
        self.end
    }

    /// Goes to the row after that, if there is one.
    pub fn go_on(&mut self, coding: Coding)
        ensures { (from end : ℕ) (due : ℕ → Result RowInstructions Fault) →
            IsWalking self.old (coding_in coding.entry) from due → end_of self.old ≡ Some end →
            IsWalking self.new (coding_in coding.entry) end due }
    {
        if let Some(end) = self.end {
            self.machine.go_on(end);
            self.run(coding);
        }
    }

    // Runs the instructions that are left up to where the row ends.
    fn run(&mut self, coding: Coding)
        ensures { let coding = coding_in coding.entry in
            (start : ℕ) (run : RowInstructions) (due : ℕ → Result RowInstructions Fault) →
            Represents start self.old.machine run →
            MakesAll start run (left_of coding self.old.instructions) due →
            IsWalking self.new coding (location start run.own) due }
    {
        match run_stretch(&mut self.machine, &mut self.instructions, coding) {
            Ok(end) => {
                self.end = end;
                self.fault = None;
            }
            Err(error) => {
                self.end = None;
                self.fault = Some(error);
            }
        }
    }
}
