//! Room for one row after another. DWARF 5 sections 6.4.1 and 6.4.3.

ghost use Rattle.std.specs.Prelude.{◌≡◌, []};
ghost use Rattle.unwind_definitions.specs.Instructions.{program};
ghost use Rattle.unwind_definitions.specs.Row.{row, ColumnAndOffset};
ghost use Rattle.encoded_pointers.specs.CursorViews.{at};
ghost use Rattle.frame_rows.specs.InstructionViews.{coding_in};
ghost use Rattle.frame_rows.specs.Rows.{GivesRow, row_in_place};

use crate::coding::Coding;
use crate::machine::Machine;
use crate::program::run_programs;
use crate::row::Row;
use crate::row_ref::RowRef;
use crate::rules::RegisterRules;
use encoded_pointers::Cursor;
use std::marker::Model;
use unwind_definitions::Error;

/// A row, and the machine that makes it.
#[derive(Drop)]
struct Making<'a> {
    machine: Machine<'a>,
    row: Row<'a>,
}

impl<'a> Making<'a> {
    fn new() -> Making<'a> {
        Making {
            machine: Machine::new(),
            row: Row::new(RowRef::unmade().cfa(), RegisterRules::new(), 0),
        }
    }

    fn make(
        &mut self,
        common: Cursor<'a>,
        own: Cursor<'a>,
        coding: Coding,
        start: u64,
        pc: u64,
    ) -> Result<(), Error>
        ensures { let coding = coding_in coding.entry in
            GivesRow (row_in_place result self.new.row) (row start pc
            (program coding (at common.entry)) (program coding (at own.entry))) }
    {
        run_programs(&mut self.machine, common, own, coding, start, pc)?;
        self.machine.put_row(&mut self.row)
    }
}

/// Room in which one row after another is made.
///
/// A row and what its programs need take some 4 KB, which are cleared when the first row is made and
/// not again for each row. Contracts see the row that was made last.
#[derive(Drop)]
pub struct RowRoom<'a> {
    // none before the first row
    making: Option<Making<'a>>,
}

impl<'a> Model for RowRoom<'a> {
    ghost use Rattle.frame_rows.specs.RowValue.{RowValue};
    ghost use Rattle.frame_rows.specs.RoomRow.{row_in};

    ghost Value = { RowValue };

    ghost view = { λ r. row_in r.making };
}

impl<'a> RowRoom<'a> {
    /// Room in which no row was made yet: its row has no rules, and its CFA is register 0.
    pub fn new() -> RowRoom<'a>
        ensures { result ≡ record { cfa = ColumnAndOffset 0 0; rules = []; saved_args_size = 0 } }
    {
        RowRoom { making: None }
    }

    /// The row that was made last. After a fault it is unspecified.
    pub fn row(&self) -> RowRef<'_, 'a>
        ensures { result ≡ self.now }
    {
        let Some(making) = &self.making else {
            return RowRef::unmade();
        };
        making.row.as_ref()
    }

    /// Makes the row at an address of a description whose program begins at `start`, as
    /// [`row_at`](crate::row_at) does.
    pub fn make(
        &mut self,
        common: Cursor<'a>,
        own: Cursor<'a>,
        coding: Coding,
        start: u64,
        pc: u64,
    ) -> Result<(), Error>
        ensures { let coding = coding_in coding.entry in
            GivesRow (row_in_place result self.new) (row start pc
            (program coding (at common.entry)) (program coding (at own.entry))) }
    {
        if let Some(making) = &mut self.making {
            return making.make(common, own, coding, start, pc);
        }
        let mut making = Making::new();
        let made = making.make(common, own, coding, start, pc);
        self.making = Some(making);
        made
    }
}
