//! Making the rows of several descriptions. DWARF 5 sections 6.4.1 and 6.4.3.

ghost use Rattle.std.specs.Prelude.{◌≡◌, ◌<◌, ℕ, [], Err, None, Ok, Some, true};
ghost use Rattle.unwind_definitions.specs.Instructions.{program, Program};
ghost use Rattle.unwind_definitions.specs.Row.{RowInstructions, from_common};
ghost use Rattle.encoded_pointers.specs.CursorViews.{at};
ghost use Rattle.frame_rows.specs.InstructionViews.{coding_in};
ghost use Rattle.frame_rows.specs.KeptRows.{Adds, IsLonger};
ghost use Rattle.frame_rows.specs.Begun.{HasBegun, HasBegunBefore};
ghost use Rattle.frame_rows.specs.BegunPrograms.{before_last, last};
ghost use Rattle.frame_rows.specs.BodyRuns.{AddsOrNot};
ghost use Rattle.frame_rows.specs.FirstRows.{IsFirstRow};
ghost use Rattle.frame_rows.specs.KnownRows.{AreKnown, NotesUnless};
ghost use Rattle.frame_rows.specs.Running.{IsEndOf, Represents, outcome};
ghost use Rattle.frame_rows.specs.TableRows.{Keeps};
ghost use Rattle.frame_rows.specs.SameRules.{KeepsRules, KnowsRows};

use crate::begun::BegunPrograms;
use crate::coding::Coding;
use crate::known_programs::KnownProgram;
use crate::machine::Machine;
use crate::program::run_common;
use crate::row_bodies::KnownBodies;
use crate::row_table::{Added, RowLimits, RowRange, RowTable};
use crate::stretch::{Instructions, run_stretch};
use encoded_pointers::Cursor;
use std::alloc::{AllocError, Global};
use unwind_definitions::Error;

/// Makes a [`RowTable`], one description after another, within limits.
///
/// Each program that isn't known is run over all the locations that it reaches: from body to body or,
/// as where an instruction makes no body, on a machine, from its start.
#[derive(Drop)]
pub struct RowTableBuilder<'a> {
    table: RowTable<'a>,
    limits: RowLimits,
    known: KnownBodies,
    machine: Machine<'a>,
    begun: BegunPrograms<'a>,
}

impl<'a> RowTableBuilder<'a> {
    /// A builder of a table without rows.
    pub fn new(alloc: Global, limits: RowLimits) -> RowTableBuilder<'a>
        ensures table { result.table ≡ record { rows = []; row_count = 0; rule_count = 0 } }
        ensures limits { result.limits ≡ limits }
    {
        RowTableBuilder {
            table: RowTable::new(alloc),
            limits,
            known: KnownBodies::new(alloc),
            machine: Machine::new(),
            begun: BegunPrograms::new(alloc),
        }
    }

    /// Adds the rows of a description that ranges from `start` to `end`: one row or fault for each
    /// location that its program reaches there, its start included. It answers which these are,
    /// `None` where they would be too many; then the table is unspecified.
    ///
    /// A fault is kept from the location at which it is met. Descriptions whose programs have the
    /// same bytes share their rows, which are counted for each.
    pub fn add(
        &mut self,
        common: Cursor<'a>,
        own: Cursor<'a>,
        coding: Coding,
        start: u64,
        end: u64,
    ) -> Result<Option<RowRange>, AllocError>
        requires { start < end }
        ensures rows { let coding = coding_in coding.entry in
            Adds self.old.limits start end (program coding (at common.entry))
            (program coding (at own.entry)) self.old.table result self.new.table }
        ensures limits { self.new.limits ≡ self.old.limits }
        ensures begun { HasBegun self.new (program (coding_in coding.entry) (at common.entry)) }
        ensures before { (before : Program) → HasBegun self.old before →
            HasBegunBefore self.new before }
    {
        self.begin(common, coding);
        self.table.make_room()?;
        self.add_next(own, coding, start, end)
    }

    /// Adds the rows of a description, as [`RowTableBuilder::add`] does, whose common information
    /// entry is that of the one that was added before. Its program isn't run again.
    #[inline(always)]
    pub fn add_next(
        &mut self,
        own: Cursor<'a>,
        coding: Coding,
        start: u64,
        end: u64,
    ) -> Result<Option<RowRange>, AllocError>
        requires { start < end }
        ensures rows { (common : Program) → HasBegun self.old common →
            Adds self.old.limits start end common
            (program (coding_in coding.entry) (at own.entry)) self.old.table result self.new.table }
        ensures limits { self.new.limits ≡ self.old.limits }
        ensures begun { (common : Program) → HasBegun self.old common → HasBegun self.new common }
        ensures before { (before : Program) → HasBegunBefore self.old before →
            HasBegunBefore self.new before }
    {
        let common = self.begun.last();
        match common.fault {
            Some(e) => self.add_fault(e),
            None => match common.known.find(own, coding, end - start) {
                Some(known) => Ok(self.table.count_again(known, self.limits)),
                None => self.add_unknown(own, coding, start, end),
            },
        }
    }

    /// Makes the common information entry that was begun before the last one that whose descriptions
    /// [`RowTableBuilder::add_next`] adds, and the last one the one before it.
    pub fn turn(&mut self)
        ensures begun { (common : Program) → HasBegunBefore self.old common →
            HasBegun self.new common }
        ensures before { (before : Program) → HasBegun self.old before →
            HasBegunBefore self.new before }
        ensures table { self.new.table ≡ self.old.table }
        ensures limits { self.new.limits ≡ self.old.limits }
    {
        self.begun.turn();
    }

    // Runs the program of a common information entry, which those of its descriptions follow. Not
    // inlined, as it is for few descriptions of a table.
    #[inline(never)]
    fn begin(&mut self, common: Cursor<'a>, coding: Coding)
        ensures begun { HasBegun self.new (program (coding_in coding.entry) (at common.entry)) }
        ensures before { (before : Program) → HasBegun self.old before →
            HasBegunBefore self.new before }
        ensures table { self.new.table ≡ self.old.table }
        ensures limits { self.new.limits ≡ self.old.limits }
    {
        self.begun.turn();
        let fault = run_common(&mut self.machine, common, coding).err();
        self.begun.put(&self.machine, fault);
    }

    /// The table.
    pub fn finish(self) -> RowTable<'a>
        ensures { result ≡ self.entry.table }
    {
        let mut table = self.table;
        table.shrink_to_fit();
        table
    }

    // Adds the one fault of a description whose common information entry's program can't be run.
    fn add_fault(&mut self, e: Error) -> Result<Option<RowRange>, AllocError>
        ensures rows { (start end : ℕ) (common own : Program) →
            outcome 0 None (from_common []) common ≡ Err e →
            Adds self.old.limits start end common own self.old.table result self.new.table }
        ensures grows { IsLonger self.old.table.rows self.new.table.rows }
        ensures begun { self.new.begun ≡ self.old.begun }
        ensures limits { self.new.limits ≡ self.old.limits }
    {
        let first = self.table.end();
        if !self
            .table
            .push(&mut self.known, 0, Err(e), None, self.limits)?
        {
            return Ok(None);
        }
        Ok(Some(RowRange {
            first,
            end: self.table.end(),
        }))
    }

    // Adds the rows of a description whose own program isn't known, after what the common
    // information entry's ended with.
    #[inline(never)]
    fn add_unknown(
        &mut self,
        own: Cursor<'a>,
        coding: Coding,
        start: u64,
        end: u64,
    ) -> Result<Option<RowRange>, AllocError>
        requires { start < end }
        ensures rows { (common : Program) →
            IsEndOf (last self.old.begun).state None common →
            IsFirstRow self.old.table.rows (last self.old.begun).first_row
            (last self.old.begun).state →
            Adds self.old.limits start end common (program (coding_in coding.entry) (at own.entry))
            self.old.table result self.new.table }
        ensures limits { self.new.limits ≡ self.old.limits }
        ensures state { (last self.new.begun).state ≡ (last self.old.begun).state }
        ensures fault { (last self.new.begun).fault ≡ (last self.old.begun).fault }
        ensures first { IsFirstRow self.old.table.rows (last self.old.begun).first_row
            (last self.old.begun).state → IsFirstRow self.new.table.rows
            (last self.new.begun).first_row (last self.new.begun).state }
        ensures known { (common : Program) →
            IsEndOf (last self.old.begun).state None common →
            IsFirstRow self.old.table.rows (last self.old.begun).first_row
            (last self.old.begun).state →
            AreKnown common self.old.table.rows (last self.old.begun).known →
            AreKnown common self.new.table.rows (last self.new.begun).known }
        ensures before { before_last self.new.begun ≡ before_last self.old.begun }
        ensures grows { IsLonger self.old.table.rows self.new.table.rows }
    {
        if let Some(rows) = self.add_run(own, coding, start, end)? {
            self.note_first(rows);
            return Ok(Some(rows));
        }
        self.add_slowly(own, coding, start, end)
    }

    // The same, by a machine.
    #[inline(never)]
    fn add_slowly(
        &mut self,
        own: Cursor<'a>,
        coding: Coding,
        start: u64,
        end: u64,
    ) -> Result<Option<RowRange>, AllocError>
        requires { start < end }
        ensures rows { (common : Program) →
            IsEndOf (last self.old.begun).state None common →
            Adds self.old.limits start end common (program (coding_in coding.entry) (at own.entry))
            self.old.table result self.new.table }
        ensures limits { self.new.limits ≡ self.old.limits }
        ensures state { (last self.new.begun).state ≡ (last self.old.begun).state }
        ensures fault { (last self.new.begun).fault ≡ (last self.old.begun).fault }
        ensures first { (last self.new.begun).first_row ≡ (last self.old.begun).first_row }
        ensures known { (common : Program) →
            IsEndOf (last self.old.begun).state None common →
            AreKnown common self.old.table.rows (last self.old.begun).known →
            AreKnown common self.new.table.rows (last self.new.begun).known }
        ensures before { before_last self.new.begun ≡ before_last self.old.begun }
        ensures grows { IsLonger self.old.table.rows self.new.table.rows }
    {
        self.machine.begin_after(&self.begun.last().state, start);
        self.add_rows(own, coding, start, end)
    }

    // Adds the rows of a description whose program runs from body to body. `None` where it doesn't:
    // then none is added.
    fn add_run(
        &mut self,
        own: Cursor<'a>,
        coding: Coding,
        start: u64,
        end: u64,
    ) -> Result<Option<RowRange>, AllocError>
        requires { start < end }
        ensures rows { (common : Program) →
            IsEndOf (last self.old.begun).state None common →
            IsFirstRow self.old.table.rows (last self.old.begun).first_row
            (last self.old.begun).state →
            AddsOrNot self.old.limits start end common
            (program (coding_in coding.entry) (at own.entry)) self.old.table result self.new.table }
        ensures machine { self.new.machine ≡ self.old.machine }
        ensures limits { self.new.limits ≡ self.old.limits }
        ensures state { (last self.new.begun).state ≡ (last self.old.begun).state }
        ensures fault { (last self.new.begun).fault ≡ (last self.old.begun).fault }
        ensures first { (last self.new.begun).first_row ≡ (last self.old.begun).first_row }
        ensures known { (common : Program) →
            IsEndOf (last self.old.begun).state None common →
            IsFirstRow self.old.table.rows (last self.old.begun).first_row
            (last self.old.begun).state →
            AreKnown common self.old.table.rows (last self.old.begun).known →
            AreKnown common self.new.table.rows (last self.new.begun).known }
        ensures before { before_last self.new.begun ≡ before_last self.old.begun }
        ensures grows { IsLonger self.old.table.rows self.new.table.rows }
    {
        let (first, first_rule) = (self.table.end(), self.table.rule_count());
        let begun = self.begun.last();
        let Some(row) = begun.state.row() else {
            return Ok(None);
        };
        let first_row = begun.first_row;
        let added = self.table.add_run(
            &mut self.known,
            row,
            first_row,
            own,
            coding,
            start,
            end,
            self.limits,
        )?;
        let rows = RowRange {
            first,
            end: self.table.end(),
        };
        match added {
            Added::Nothing => Ok(None),
            Added::Past => Ok(Some(rows)),
            Added::Ended(location) => {
                let known = KnownProgram {
                    bytes: own.bytes(),
                    code_factor: coding.code_factor,
                    data_factor: coding.data_factor,
                    reach: location.saturating_sub(start),
                    rows,
                    rule_count: self.table.rule_count().saturating_sub(first_rule),
                };
                self.note(known, false)?;
                Ok(Some(rows))
            }
        }
    }

    // Notes the first of some rows as one that says what the common information entry's program ended
    // with, where none is known and it does.
    #[inline(always)]
    fn note_first(&mut self, rows: RowRange)
        ensures table { self.new.table ≡ self.old.table }
        ensures limits { self.new.limits ≡ self.old.limits }
        ensures state { (last self.new.begun).state ≡ (last self.old.begun).state }
        ensures fault { (last self.new.begun).fault ≡ (last self.old.begun).fault }
        ensures known { (last self.new.begun).known ≡ (last self.old.begun).known }
        ensures before { before_last self.new.begun ≡ before_last self.old.begun }
        ensures first { IsFirstRow self.old.table.rows (last self.old.begun).first_row
            (last self.old.begun).state → IsFirstRow self.old.table.rows
            (last self.new.begun).first_row (last self.old.begun).state }
    {
        let index = rows.first as usize;
        if self.begins_at(index) {
            self.begun.note_first(index);
        }
    }

    // Whether no row is known that says what the common information entry's program ended with, and
    // the one at an index does.
    fn begins_at(&self, index: usize) -> bool
        ensures { result ≡ true → IsFirstRow self.now.table.rows (Some index)
            (last self.now.begun).state }
    {
        let begun = self.begun.last();
        if begun.first_row.is_some() {
            return false;
        }
        match begun.state.row() {
            Some(row) => self.table.says(index, row),
            None => false,
        }
    }

    // Adds the rows of a description whose own program is to run.
    fn add_rows(
        &mut self,
        own: Cursor<'a>,
        coding: Coding,
        start: u64,
        end: u64,
    ) -> Result<Option<RowRange>, AllocError>
        requires some { start < end }
        requires knows { KnowsRows self.old.table.rows self.old.machine }
        ensures rows { (common : Program) (run : RowInstructions) →
            outcome 0 None (from_common []) common ≡ Ok run →
            Represents start self.old.machine (from_common common.instructions) →
            Adds self.old.limits start end common (program (coding_in coding.entry) (at own.entry))
            self.old.table result self.new.table }
        ensures limits { self.new.limits ≡ self.old.limits }
        ensures state { (last self.new.begun).state ≡ (last self.old.begun).state }
        ensures fault { (last self.new.begun).fault ≡ (last self.old.begun).fault }
        ensures first { (last self.new.begun).first_row ≡ (last self.old.begun).first_row }
        ensures known { (common : Program) (run : RowInstructions) →
            outcome 0 None (from_common []) common ≡ Ok run →
            Represents start self.old.machine (from_common common.instructions) →
            AreKnown common self.old.table.rows (last self.old.begun).known →
            AreKnown common self.new.table.rows (last self.new.begun).known }
        ensures before { before_last self.new.begun ≡ before_last self.old.begun }
        ensures grows { IsLonger self.old.table.rows self.new.table.rows }
    {
        let (first, first_rule) = (self.table.end(), self.table.rule_count());
        let mut instructions = Instructions::new(own);
        let mut location = start;
        loop {
            let next = run_stretch(&mut self.machine, &mut instructions, coding);
            let distance = location.saturating_sub(start);
            let index = self.table.end();
            if !self.keep(distance, next)? {
                return Ok(None);
            }
            let rows = RowRange {
                first,
                end: self.table.end(),
            };
            match next {
                Ok(Some(next)) => {
                    if next >= end {
                        return Ok(Some(rows));
                    }
                    self.machine.note_row(index as usize);
                    self.machine.go_on(next);
                    location = next;
                }
                Ok(None) => {
                    let known = KnownProgram {
                        bytes: own.bytes(),
                        code_factor: coding.code_factor,
                        data_factor: coding.data_factor,
                        reach: distance,
                        rows,
                        rule_count: self.table.rule_count().saturating_sub(first_rule),
                    };
                    self.note(known, instructions.sets_location())?;
                    return Ok(Some(rows));
                }
                Err(_) => return Ok(Some(rows)),
            }
        }
    }

    // Notes a program that was run to its end, unless it sets the location.
    fn note(&mut self, known: KnownProgram<'a>, sets_location: bool) -> Result<(), AllocError>
        ensures state { (last self.new.begun).state ≡ (last self.old.begun).state }
        ensures fault { (last self.new.begun).fault ≡ (last self.old.begun).fault }
        ensures first { (last self.new.begun).first_row ≡ (last self.old.begun).first_row }
        ensures notes { NotesUnless sets_location (last self.old.begun).known known.entry
            (last self.new.begun).known }
        ensures before { before_last self.new.begun ≡ before_last self.old.begun }
        ensures machine { self.new.machine ≡ self.old.machine }
        ensures table { self.new.table ≡ self.old.table }
        ensures limits { self.new.limits ≡ self.old.limits }
    {
        if sets_location {
            return Ok(());
        }
        self.begun.note(known)
    }

    // Keeps what a stretch ends with that begins so far after the start: its row, or its fault.
    fn keep(&mut self, distance: u64, next: Result<Option<u64>, Error>) -> Result<bool, AllocError>
        requires { KnowsRows self.old.table.rows self.old.machine }
        ensures rows { Keeps self.old.limits distance next self.old.machine self.old.table
            result self.new.table }
        ensures machine { self.new.machine ≡ self.old.machine }
        ensures limits { self.new.limits ≡ self.old.limits }
        ensures begun { self.new.begun ≡ self.old.begun }
        ensures grows { IsLonger self.old.table.rows self.new.table.rows }
        ensures rules { KeepsRules next result self.old.machine self.old.table.rows
            self.new.table.rows }
    {
        match next {
            Ok(_) => {
                let row = self.machine.row();
                let like = self.machine.rules_of();
                self.table
                    .push(&mut self.known, distance, row, like, self.limits)
            }
            Err(e) => self
                .table
                .push(&mut self.known, distance, Err(e), None, self.limits),
        }
    }
}
