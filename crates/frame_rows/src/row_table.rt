//! Tables of the rows that several descriptions have. DWARF 5 section 6.4.1.

ghost use Rattle.std.specs.Prelude.{◌≡◌, ◌+◌, ◌<◌, ◌≤◌, [], length, map, slice_range};
ghost use Rattle.std.specs.Prelude.{slice_index_or, ℕ, IfOk, IfSome, Result};
ghost use Rattle.unwind_definitions.specs.declared.error.Error.{Error as Fault};
ghost use Rattle.unwind_definitions.specs.Row.{RowInstructions};
ghost use Rattle.frame_rows.specs.declared.row_table.TableRow.{TableRow};
ghost use Rattle.frame_rows.specs.KeptRows.{AreRows, Kept, location_of, rows_from};
ghost use Rattle.frame_rows.specs.KeptRows.{Ascends, IsLonger, answer_rule_count};
ghost use Rattle.frame_rows.specs.Rules.{entry_of, AscendsFrom};
ghost use Rattle.frame_rows.specs.Rows.{GivesRow};
ghost use Rattle.frame_rows.specs.Bodies.{kept_answer};
ghost use Rattle.unwind_definitions.specs.Instructions.{Program, program};
ghost use Rattle.unwind_definitions.specs.Row.{from_common};
ghost use Rattle.encoded_pointers.specs.CursorViews.{at};
ghost use Rattle.std.specs.List.{AllByRecursion};
ghost use Rattle.frame_rows.specs.Bodies.{Grows, Says};
ghost use Rattle.frame_rows.specs.BodyRuns.{AddsRun};
ghost use Rattle.frame_rows.specs.FirstRows.{IsRowAt, StandsAt};
ghost use Rattle.frame_rows.specs.InstructionViews.{coding_in};
ghost use Rattle.frame_rows.specs.Rows.{IsRowOf};
ghost use Rattle.frame_rows.specs.Running.{Represents, outcome};
ghost use Rattle.frame_rows.specs.declared.machine.Machine.{Machine};
ghost use Rattle.std.specs.Prelude.{None, Ok, Some, true};
ghost use Rattle.frame_rows.specs.TableRows.{HasBody, HoldsAt, IsLastAt, Pushes, kept_in};
ghost use Rattle.frame_rows.specs.Again.{CountsAgain};
ghost use Rattle.frame_rows.specs.SameRules.{IsBodyOf, IsRowWith};

use crate::body_run::{BodyRun, RunEnd, run_bodies};
use crate::coding::Coding;
use crate::known_programs::KnownProgram;
use crate::row_bodies::KnownBodies;
use crate::row_ref::RowRef;
use crate::row_steps::SteppedBodies;
use crate::rule::{CfaRule, RegisterRule};
use encoded_pointers::Cursor;
use std::alloc::{AllocError, Global};
use std::marker::Model;
use unwind_arch::Register;
use unwind_definitions::Error;

// For how many rows there is room at first.
const ROOM: usize = 8192;

/// How much a table of rows may hold.
#[derive(Clone, Copy, Debug, PartialEq, Eq)]
pub struct RowLimits {
    /// How many rows and faults.
    pub rows: u32,
    /// How many rules of registers, in all rows together.
    pub rules: u32,
}

/// Which rows of a table are those of a description: from one index up to another, which isn't one
/// of them.
#[derive(Clone, Copy, Debug, PartialEq, Eq)]
pub struct RowRange {
    /// The index of the first.
    pub first: u32,
    /// The index after that of the last.
    pub end: u32,
}

/// What adding the rows of a program that runs from body to body does.
#[derive(Clone, Copy)]
pub(crate) enum Added {
    /// They are added, and an instruction leads past the range.
    Past,
    /// They are added, and the program ended at a location.
    Ended(u64),
    /// None is added.
    Nothing,
}

// How far after its function's start a row or a fault begins to hold, and where among the bodies
// its own stands.
#[derive(Clone, Copy)]
pub(crate) struct TableRow {
    pub(crate) distance: u64,
    pub(crate) body: usize,
}

/// The rows of several descriptions, each with the distance from its function's start from which on
/// it holds. Descriptions may share rows.
///
/// A fault is kept like a row. What rows say stands in a list of its own, mostly once where many
/// say the same, and the rules of all in another, so that a row takes 16 bytes, and one is looked
/// up without being copied.
#[derive(Drop)]
pub struct RowTable<'a> {
    rows: Vec<TableRow>,
    bodies: SteppedBodies<'a>,
    // how many rows the descriptions have together, where those that some share count for each, and
    // how many rules these have
    row_count: u32,
    rule_count: u32,
}

impl<'a> Model for RowTable<'a> {
    ghost use Rattle.std.specs.Prelude.{map};
    ghost use Rattle.frame_rows.specs.KeptRows.{KeptRows};
    ghost use Rattle.frame_rows.specs.TableRows.{IsTable, kept_in};

    ghost Value = { KeptRows };

    ghost view = { λ t. record {
      rows = map (kept_in t.bodies) t.rows.items;
      row_count = t.row_count;
      rule_count = t.rule_count;
    } };

    ghost invariant = { λ t. IsTable t.bodies t.rows.items t.row_count };
}

impl<'a> RowTable<'a> {
    /// A table without rows.
    pub fn new(alloc: Global) -> RowTable<'a>
        ensures { result ≡ record { rows = []; row_count = 0; rule_count = 0 } }
    {
        RowTable {
            rows: Vec::new(alloc),
            bodies: SteppedBodies::new(alloc),
            row_count: 0,
            rule_count: 0,
        }
    }

    /// How many rows and faults the descriptions have together.
    pub fn row_count(&self) -> u32
        ensures count { result ≡ self.now.row_count }
        ensures all { length self.now.rows ≤ result }
    {
        self.row_count
    }

    /// How many rules of registers these have together.
    pub fn rule_count(&self) -> u32
        ensures { result ≡ self.now.rule_count }
    {
        self.rule_count
    }

    /// Makes room for many rows where there are none, so that a list that grows isn't copied again and
    /// again.
    ///
    /// # Errors
    ///
    /// Where memory runs out.
    #[inline(never)]
    pub(crate) fn make_room(&mut self) -> Result<(), AllocError>
        ensures { self.new ≡ self.old }
    {
        if !self.rows.is_empty() {
            return Ok(());
        }
        self.rows.reserve(ROOM)
    }

    /// Gives back what memory isn't used.
    pub(crate) fn shrink_to_fit(&mut self)
        ensures { self.new ≡ self.old }
    {
        self.rows.shrink_to_fit();
        self.bodies.shrink_to_fit();
    }

    /// The index after that of the last row.
    pub(crate) fn end(&self) -> u32
        ensures { result ≡ length self.now.rows }
    {
        self.rows.len() as u32
    }

    /// What holds so far after a function's start by its rows, of which the first begins there or
    /// before: the row or the fault that is the last to begin there or before.
    ///
    /// # Errors
    ///
    /// The fault that is kept there.
    pub fn row(&self, rows: RowRange, distance: u64) -> Result<RowRef<'_, 'a>, Error>
        requires some { rows.first < rows.end }
        requires within { rows.end ≤ length self.now.rows }
        requires begun { (d : Kept) →
            location_of (slice_index_or self.now.rows rows.first d) ≤ distance }
        ensures last { HoldsAt (slice_range self.now.rows rows.first rows.end) distance result }
        ensures due { (due : ℕ → Result RowInstructions Fault) (start bound : ℕ) →
            AreRows due bound (rows_from start self.now.rows rows) →
            start + distance < bound → GivesRow result (due (start + distance)) }
    {
        let rows = &self.rows[rows.first as usize..rows.end as usize];
        self.bodies.get(rows[last_at(rows, distance)].body)
    }

    /// Keeps a row or a fault for a distance from a function's start. `false` where it would be too
    /// much. `known` is where bodies stand that may say the same, and `like` the index of a row that
    /// has the same rules, if that is known.
    #[inline(always)]
    pub(crate) fn push(
        &mut self,
        known: &mut KnownBodies,
        distance: u64,
        answer: Result<RowRef<'_, 'a>, Error>,
        like: Option<usize>,
        limits: RowLimits,
    ) -> Result<bool, AllocError>
        requires { IfOk answer (λ row. IsRowWith self.old.rows like row.rules) }
        ensures pushes { Pushes limits distance answer.entry (answer_rule_count answer.entry)
            self.old result self.new }
        ensures ascends { Ascends answer.entry }
        ensures grows { IsLonger self.old.rows self.new.rows }
    {
        match answer {
            Ok(row) => self.push_entry(
                known,
                distance,
                Ok(row.cfa()),
                row.entries(),
                row.saved_args_size(),
                like,
                limits,
            ),
            Err(e) => self.push_entry(known, distance, Err(e), &[], 0, None, limits),
        }
    }

    /// Adds the rows of a description whose program runs from body to body, from the row that its
    /// common information entry's ended with: `first_row` is the index of a row of the table that says
    /// the same, if one is known. None is added where it doesn't run so, where they would be too many,
    /// where the code alignment factor or the program's length has more than 32 bits, or where memory
    /// runs out on the way.
    #[inline(always)]
    pub(crate) fn add_run(
        &mut self,
        known: &mut KnownBodies,
        row: RowRef<'_, 'a>,
        first_row: Option<usize>,
        own: Cursor<'a>,
        coding: Coding,
        start: u64,
        end: u64,
        limits: RowLimits,
    ) -> Result<Added, AllocError>
        requires { start < end }
        ensures grows { IsLonger self.old.rows self.new.rows }
        ensures runs { (common : Program) (first : RowInstructions) (m : Machine) →
            let own = program (coding_in coding.entry) (at own.entry) in
            outcome 0 None (from_common []) common ≡ Ok first →
            Represents start m (from_common common.instructions) →
            IsRowOf row.entry (from_common common.instructions) →
            IsRowAt self.old.rows first_row row.entry →
            AddsRun limits start end common own self.old result self.new }
    {
        let count = own.len();
        if coding.code_factor >= 0x1_0000_0000 || count >= 0x1_0000_0000 {
            return Ok(Added::Nothing);
        }
        let before = self.rows.len();
        let place = place_of(&mut self.bodies, known, &self.rows, row, first_row)?;
        let mut run = BodyRun {
            rest: own.bytes(),
            location: start,
            place,
            first: place,
            remembered: None,
            rule_count: self.rule_count as u64,
        };
        let ended = run_bodies(
            &mut self.bodies,
            known,
            &mut self.rows,
            &mut run,
            coding,
            start,
            end,
        );
        let row_count = self.row_count as usize + (self.rows.len() - before);
        match ended {
            Ok(RunEnd::Past) if fit(limits, row_count, run.rule_count) => {
                self.row_count = row_count as u32;
                self.rule_count = run.rule_count as u32;
                Ok(Added::Past)
            }
            Ok(RunEnd::Ended) if fit(limits, row_count, run.rule_count) => {
                self.row_count = row_count as u32;
                self.rule_count = run.rule_count as u32;
                Ok(Added::Ended(run.location))
            }
            _ => {
                self.rows.truncate(before);
                Ok(Added::Nothing)
            }
        }
    }

    /// Whether the row at an index says what another one does.
    #[inline(never)]
    pub(crate) fn says(&self, index: usize, row: RowRef<'_, 'a>) -> bool
        ensures { result ≡ true → IsRowAt self.now.rows (Some index) row.entry }
    {
        match row_at(&self.rows, Some(index)) {
            Some(kept) => self.bodies.says(kept.body, row),
            None => false,
        }
    }

    /// Counts the rows of a program that is known, for one more description that has them. `None`
    /// where they would be too many.
    #[inline(always)]
    pub(crate) fn count_again(
        &mut self,
        known: &KnownProgram<'a>,
        limits: RowLimits,
    ) -> Option<RowRange>
        ensures counts { CountsAgain limits known.now self.old result self.new }
        ensures rows { self.new.rows ≡ self.old.rows }
    {
        let rows = known.rows;
        let count = rows.end.saturating_sub(rows.first);
        if self.row_count > limits.rows
            || count > limits.rows - self.row_count
            || self.rule_count > limits.rules
            || known.rule_count > limits.rules - self.rule_count
        {
            return None;
        }
        self.row_count += count;
        self.rule_count += known.rule_count;
        Some(rows)
    }

    // Keeps a row by its parts, or a fault. Inlined, as it has more parts than registers hold.
    #[inline(always)]
    fn push_entry(
        &mut self,
        known: &mut KnownBodies,
        distance: u64,
        cfa: Result<CfaRule<'a>, Error>,
        rules: &[(Register, RegisterRule<'a>)],
        saved_args_size: u64,
        like: Option<usize>,
        limits: RowLimits,
    ) -> Result<bool, AllocError>
        requires ascending { AscendsFrom 0 (map entry_of rules.now) }
        requires few { length rules.now ≤ 32 }
        requires like { IsRowWith self.old.rows like (map entry_of rules.now) }
        ensures pushes { Pushes limits distance
            (kept_answer cfa.entry (map entry_of rules.now) saved_args_size) (length rules.now)
            self.old result self.new }
        ensures grows { IsLonger self.old.rows self.new.rows }
    {
        let rule_count = self.rule_count as usize + rules.len();
        if self.row_count >= limits.rows || rule_count > limits.rules as usize {
            return Ok(false);
        }
        let place = body_of(&self.rows, like);
        let body = self.bodies.keep(known, cfa, rules, saved_args_size, place)?;
        self.rows.push(TableRow { distance, body })?;
        self.row_count += 1;
        self.rule_count = rule_count as u32;
        Ok(true)
    }
}

// Whether a table may hold so many rows and rules.
fn fit(limits: RowLimits, rows: usize, rules: u64) -> bool
    ensures rows { result ≡ true → rows ≤ limits.rows }
    ensures rules { result ≡ true → rules ≤ limits.rules }
{
    rows <= limits.rows as usize && rules <= limits.rules as u64
}

// Where the body of a row stands. The row at an index, if one is given, says the same.
#[inline(always)]
fn place_of<'a>(
    bodies: &mut SteppedBodies<'a>,
    known: &mut KnownBodies,
    rows: &[TableRow],
    row: RowRef<'_, 'a>,
    index: Option<usize>,
) -> Result<usize, AllocError>
    requires { AllByRecursion (HasBody bodies.old) rows.now }
    ensures grows { Grows bodies.old bodies.new }
    ensures within { IfOk result (λ place. place < length bodies.new) }
    ensures says { IsRowAt (map (kept_in bodies.old) rows.now) index row.entry →
        IfOk result (λ place. Says bodies.new place (Ok row.entry)) }
{
    match row_at(rows, index) {
        Some(kept) => Ok(kept.body),
        None => keep_row(bodies, known, row),
    }
}

// The row at an index, if one is given, lent.
#[inline(always)]
fn row_at(rows: &[TableRow], index: Option<usize>) -> Option<&TableRow>
    ensures { IfSome result (λ kept. StandsAt rows.now index kept.now) }
{
    match index {
        Some(index) if index < rows.len() => Some(&rows[index]),
        _ => None,
    }
}

// Where the body of a row stands, which may be added. Not inlined, as it is for few programs.
#[inline(never)]
fn keep_row<'a>(
    bodies: &mut SteppedBodies<'a>,
    known: &mut KnownBodies,
    row: RowRef<'_, 'a>,
) -> Result<usize, AllocError>
    ensures grows { Grows bodies.old bodies.new }
    ensures says { IfOk result (λ place. Says bodies.new place (Ok row.entry)) }
{
    let cfa = Ok(row.cfa());
    bodies.keep(known, cfa, row.entries(), row.saved_args_size(), None)
}

// Where the body of the row at an index stands.
#[inline(always)]
fn body_of(rows: &[TableRow], index: Option<usize>) -> Option<usize>
    requires { IfSome index (λ i. i < length rows.now) }
    ensures { IsBodyOf rows.now index result }
{
    match index {
        Some(index) => Some(rows[index].body),
        None => None,
    }
}

// The index of the last of some rows that is at or before a distance, where the first one is.
fn last_at(rows: &[TableRow], distance: u64) -> usize
    requires some { 0 < length rows.now }
    requires begun { (d : TableRow) → (slice_index_or rows.now 0 d).distance ≤ distance }
    ensures { IsLastAt rows.now distance result }
{
    let mut low = 0;
    let mut high = rows.len();
    while high - low > 1 {
        let middle = low + (high - low) / 2;
        if rows[middle].distance <= distance {
            low = middle;
        } else {
            high = middle;
        }
    }
    low
}
