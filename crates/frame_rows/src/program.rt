//! Running frame programs: that of a common information entry, and a description's own up to an
//! address. DWARF 5 sections 6.4.1 and 6.4.3.

ghost use Rattle.std.specs.Prelude.{ℕ};
ghost use Rattle.unwind_definitions.specs.Instructions.{program};
ghost use Rattle.unwind_definitions.specs.Row.{RowInstructions, row};
ghost use Rattle.encoded_pointers.specs.CursorViews.{at};
ghost use Rattle.frame_rows.specs.InstructionViews.{coding_in};
ghost use Rattle.frame_rows.specs.Rows.{GivesRow};
ghost use Rattle.frame_rows.specs.Running.{Represents, outcome, Ends, MakesRow, Begins, RunsCommon};

use crate::coding::Coding;
use crate::instruction::read_instruction;
use crate::machine::Machine;
use crate::row::Row;
use encoded_pointers::Cursor;
use unwind_definitions::Error;

/// The row at an address of a description whose program begins at `start`. The program of its
/// common information entry runs first, and whole.
///
/// Where one row after another is made, [`RowRoom`](crate::RowRoom) takes fewer instructions.
pub fn row_at<'a>(
    common: Cursor<'a>,
    own: Cursor<'a>,
    coding: Coding,
    start: u64,
    pc: u64,
) -> Result<Row<'a>, Error>
    ensures { let coding = coding_in coding.entry in
        GivesRow result (row start pc (program coding (at common.entry))
        (program coding (at own.entry))) }
{
    let mut machine = Machine::new();
    run_programs(&mut machine, common, own, coding, start, pc)?;
    machine.into_row()
}

/// Runs the program of a common information entry, whole, and then a description's own, which
/// begins at `start`, up to the instruction that leads past an address. What the machine ran before
/// doesn't matter, and after a fault it is unspecified.
pub(crate) fn run_programs<'a>(
    machine: &mut Machine<'a>,
    common: Cursor<'a>,
    own: Cursor<'a>,
    coding: Coding,
    start: u64,
    pc: u64,
) -> Result<(), Error>
    ensures { let coding = coding_in coding.entry in
        MakesRow start result machine.new (row start pc
        (program coding (at common.entry)) (program coding (at own.entry))) }
{
    begin_own(machine, common, coding, start)?;
    run_program(machine, own, coding, Some(pc))
}

/// Runs the program of a common information entry, whole, and begins a description's own at
/// `start`. What the machine ran before doesn't matter, and after a fault it is unspecified.
pub(crate) fn begin_own<'a>(
    machine: &mut Machine<'a>,
    common: Cursor<'a>,
    coding: Coding,
    start: u64,
) -> Result<(), Error>
    ensures { Begins start result machine.new
        (program (coding_in coding.entry) (at common.entry)) }
{
    run_common(machine, common, coding)?;
    machine.begin(start);
    Ok(())
}

/// Runs the program of a common information entry, whole. What the machine ran before doesn't
/// matter, and after a fault it is unspecified.
pub(crate) fn run_common<'a>(
    machine: &mut Machine<'a>,
    common: Cursor<'a>,
    coding: Coding,
) -> Result<(), Error>
    ensures { RunsCommon result machine.new (program (coding_in coding.entry) (at common.entry)) }
{
    machine.restart();
    run_program(machine, common, coding, None)
}

// Runs a program, whole or up to the instruction that leads past an address. After a fault the
// machine is unspecified.
fn run_program<'a>(
    machine: &mut Machine<'a>,
    bytes: Cursor<'a>,
    coding: Coding,
    pc: Option<u64>,
) -> Result<(), Error>
    ensures { (start : ℕ) (run : RowInstructions) → Represents start machine.old run →
        let coding = coding_in coding.entry in
        Ends start result machine.new (outcome start pc run (program coding (at bytes.entry))) }
{
    let mut input = bytes;
    for _turn in 0..bytes.len() {
        if input.is_empty() {
            return Ok(());
        }
        let instruction = read_instruction(&mut input, coding)?;
        if machine.stops_before(instruction, pc) {
            return Ok(());
        }
        machine.run(instruction)?;
    }
    Ok(())
}
