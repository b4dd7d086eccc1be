//! What the programs of common information entries ended with. DWARF 5 section 6.4.1.

ghost use Rattle.std.specs.Prelude.{[], ◌≡◌, None, Some};
ghost use Rattle.frame_rows.specs.BegunPrograms.{before_last, last};
ghost use Rattle.frame_rows.specs.KnownRows.{Notes};

use crate::known_programs::{KnownProgram, KnownPrograms};
use crate::machine::{Machine, RowState};
use std::alloc::{AllocError, Global};
use unwind_definitions::Error;

/// What the program of a common information entry ended with: a row, or a fault. And which programs
/// of descriptions that name it are known.
#[derive(Drop)]
pub(crate) struct BegunProgram<'a> {
    pub(crate) state: RowState<'a>,
    pub(crate) fault: Option<Error>,
    /// The index of a row of the table that says what it ended with, if one is known.
    pub(crate) first_row: Option<usize>,
    pub(crate) known: KnownPrograms<'a>,
}

impl<'a> BegunProgram<'a> {
    // The row of no instructions.
    fn new(alloc: Global) -> BegunProgram<'a> {
        BegunProgram {
            state: RowState::new(),
            fault: None,
            first_row: None,
            known: KnownPrograms::new(alloc),
        }
    }

    // Puts what a machine ended with in place of it.
    fn put(&mut self, machine: &Machine<'a>, fault: Option<Error>)
        ensures state { self.new.state ≡ machine.now.state }
        ensures fault { self.new.fault ≡ fault }
        ensures first { self.new.first_row ≡ None }
        ensures blank { self.new.known ≡ [] }
    {
        machine.put_state(&mut self.state);
        self.fault = fault;
        self.first_row = None;
        self.known.clear();
    }
}

/// What the last two programs of common information entries ended with. Functions of two languages
/// often stand by turns, and so do the entries that their descriptions name.
#[derive(Drop)]
pub(crate) struct BegunPrograms<'a> {
    first: BegunProgram<'a>,
    second: BegunProgram<'a>,
    // whether the second is the last
    is_swapped: bool,
}

impl<'a> BegunPrograms<'a> {
    /// Two programs without instructions.
    pub(crate) fn new(alloc: Global) -> BegunPrograms<'a> {
        BegunPrograms {
            first: BegunProgram::new(alloc),
            second: BegunProgram::new(alloc),
            is_swapped: false,
        }
    }

    /// What the last one ended with.
    pub(crate) fn last(&self) -> &BegunProgram<'a>
        ensures { result.now ≡ last self.now }
    {
        if self.is_swapped {
            &self.second
        } else {
            &self.first
        }
    }

    /// Makes the one before the last the last, and that the one before it.
    pub(crate) fn turn(&mut self)
        ensures last { last self.new ≡ before_last self.old }
        ensures before { before_last self.new ≡ last self.old }
    {
        self.is_swapped = !self.is_swapped;
    }

    /// Puts what a machine ended with in place of the last one.
    pub(crate) fn put(&mut self, machine: &Machine<'a>, fault: Option<Error>)
        ensures state { (last self.new).state ≡ machine.now.state }
        ensures fault { (last self.new).fault ≡ fault }
        ensures first { (last self.new).first_row ≡ None }
        ensures blank { (last self.new).known ≡ [] }
        ensures before { before_last self.new ≡ before_last self.old }
    {
        if self.is_swapped {
            self.second.put(machine, fault);
        } else {
            self.first.put(machine, fault);
        }
    }

    /// Notes the index of a row of the table that says what the last one ended with.
    pub(crate) fn note_first(&mut self, row: usize)
        ensures first { (last self.new).first_row ≡ Some row }
        ensures state { (last self.new).state ≡ (last self.old).state }
        ensures fault { (last self.new).fault ≡ (last self.old).fault }
        ensures known { (last self.new).known ≡ (last self.old).known }
        ensures before { before_last self.new ≡ before_last self.old }
    {
        if self.is_swapped {
            self.second.first_row = Some(row);
        } else {
            self.first.first_row = Some(row);
        }
    }

    /// Notes a program of a description that names the last one.
    ///
    /// # Errors
    ///
    /// Where memory runs out.
    pub(crate) fn note(&mut self, known: KnownProgram<'a>) -> Result<(), AllocError>
        ensures state { (last self.new).state ≡ (last self.old).state }
        ensures fault { (last self.new).fault ≡ (last self.old).fault }
        ensures first { (last self.new).first_row ≡ (last self.old).first_row }
        ensures notes { Notes (last self.old).known known.entry (last self.new).known }
        ensures before { before_last self.new ≡ before_last self.old }
    {
        if self.is_swapped {
            self.second.known.note(known)
        } else {
            self.first.known.note(known)
        }
    }
}
