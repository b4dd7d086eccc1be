//! The rows of a description, address by address, beside the steps and the body of a claim.
//! DWARF 5 sections 6.4.1 and 6.4.3.

ghost use Rattle.std.specs.Prelude.{◌≡◌, ◌+◌, ◌-◌, ◌<◌, ◌≤◌, ℕ, List, MatchOption, Result};
ghost use Rattle.std.specs.Prelude.{false, map, true};
ghost use Rattle.std.specs.List.{list_any};
ghost use Rattle.std.specs.Bool.{Decides};
ghost use Rattle.unwind_definitions.specs.declared.error.Error.{Error as Fault};
ghost use Rattle.unwind_definitions.specs.Instructions.{Coding};
ghost use Rattle.unwind_definitions.specs.Row.{RowInstructions};
ghost use Rattle.unwind_definitions.specs.Prologue.{SystemV};
ghost use Rattle.unwind_definitions.specs.Function.{AreWithin, IsFunction, Range, first_from};
ghost use Rattle.unwind_definitions.specs.Function.{in_range};
ghost use Rattle.unwind_definitions.specs.DescribedRows.{DescribesRows, ended_by};
ghost use Rattle.encoded_pointers.specs.PointerViews.{bases_of};
ghost use Rattle.eh_frame.specs.EntryViews.{fde_of};
ghost use Rattle.frame_rows.specs.Walks.{IsBefore, IsWalking, end_of};
ghost use Rattle.table_check.specs.ClaimViews.{function_of, range_of};
ghost use Rattle.table_check.specs.Frames.{IsFrameAfter};
ghost use Rattle.table_check.specs.Programs.{AreEdgesQuiet, Fits, IsFrontOf, IsPlace, IsPlaceAmong};
ghost use Rattle.table_check.specs.Programs.{IsQuiet};
ghost use Rattle.table_check.specs.declared.programs.Place.TheVariants.{Body, Outermost, Prologue};
ghost use Rattle.table_check.specs.Running.{IsRunning, next_end_of};

use crate::claims::{AddressRange, Claim, ClaimedStep};
use crate::prologue::FrameSoFar;
use crate::rows::{is_body_row, is_outermost_row, is_prologue_row};
use crate::running::RunningFrame;
use eh_frame::{Bases, Fde, RowWalk};

/// What is asked of the row at an address of a function.
#[derive(Clone, Copy)]
enum Place {
    /// The row of a frame whose prologue has run.
    Body,
    /// The row of a frame that has run the steps that have ended.
    Prologue,
    /// The row of an outermost frame.
    Outermost,
    /// Nothing, as in an epilogue.
    Free,
}

/// What is asked from an address on, up to another.
#[derive(Clone, Copy)]
struct Asked {
    place: Place,
    end: u64,
}

/// Whether the rows of a description are those of a claimed function, which has its range.
///
/// Its program is run once. A row is looked at where it begins to hold, and where a step, the body
/// or a part of the body begins or ends.
pub(crate) fn has_rows<'a>(
    claim: &Claim,
    fde: &Fde<'a>,
    bases: &Bases,
    walk: &mut RowWalk<'a>,
) -> bool
    requires function { IsFunction SystemV (function_of claim.now) }
    requires start { (fde_of fde.now).start ≡ claim.now.start }
    requires end { (fde_of fde.now).start + (fde_of fde.now).size ≡ claim.now.end }
    ensures { Decides result
        (DescribesRows (bases_of bases.now) (function_of claim.now) (fde_of fde.now)) }
{
    let mut running = RunningFrame::new(&claim.steps);
    has_rows_from_start(claim, fde, bases, walk, &mut running)
}

// The same, with the frame of no steps. Not inlined, with a frame that is lent: so a rule is compared
// with a slot where that lies, and no row needs all slots in registers.
#[inline(never)]
fn has_rows_from_start<'a>(
    claim: &Claim,
    fde: &Fde<'a>,
    bases: &Bases,
    walk: &mut RowWalk<'a>,
    running: &mut RunningFrame,
) -> bool
    requires function { IsFunction SystemV (function_of claim.now) }
    requires start { (fde_of fde.now).start ≡ claim.now.start }
    requires end { (fde_of fde.now).start + (fde_of fde.now).size ≡ claim.now.end }
    requires running { IsRunning running.old 0 claim.now.steps.items }
    ensures { Decides result
        (DescribesRows (bases_of bases.now) (function_of claim.now) (fde_of fde.now)) }
{
    fde.begin_rows(bases, walk);
    let mut pc = claim.start;
    while pc < claim.end {
        running.run_to(&claim.steps, pc - claim.start);
        let asked = asked_at(claim, pc);
        if !fits_at(claim, walk, &running.frame, asked.place, pc) {
            return false;
        }
        pc = next_change(claim, walk, running, pc, asked.end);
        if walk.end() == Some(pc) {
            fde.go_on(bases, walk);
        }
    }
    true
}

// The next address at which another row may hold, or another be asked. The body doesn't begin or end
// before `limit`.
#[inline(always)]
fn next_change(
    claim: &Claim,
    walk: &RowWalk<'_>,
    running: &RunningFrame,
    pc: u64,
    limit: u64,
) -> u64
    requires start { claim.now.start ≤ pc }
    requires inside { pc < limit }
    requires end { limit ≤ claim.now.end }
    requires edges { AreEdgesQuiet pc limit (function_of claim.now).bodies }
    requires row { IsBefore pc (end_of walk.now) }
    requires running { IsRunning running.now (pc - claim.now.start) claim.now.steps.items }
    requires step { IsBefore (pc - claim.now.start)
        (next_end_of running.now claim.now.steps.items) }
    ensures ahead { pc < result }
    ensures inside { result ≤ claim.now.end }
    ensures row { MatchOption (end_of walk.now) (Unit {0}) (λ end. result ≤ end) }
    ensures quiet { IsQuiet (function_of claim.now) pc result }
{
    let next = row_end(walk, pc, limit);
    next_end(&claim.steps, running, claim.start, pc, next)
}

// The address at which the walk's row ends, or another one before.
#[inline(always)]
fn row_end(walk: &RowWalk<'_>, pc: u64, limit: u64) -> u64
    requires inside { pc < limit }
    requires row { IsBefore pc (end_of walk.now) }
    ensures ahead { pc < result }
    ensures limited { result ≤ limit }
    ensures row { MatchOption (end_of walk.now) (Unit {0}) (λ end. result ≤ end) }
{
    match walk.end() {
        Some(end) => limit.min(end),
        None => limit,
    }
}

// The next address at which a step has ended, below another.
#[inline(always)]
fn next_end(steps: &[ClaimedStep], running: &RunningFrame, start: u64, pc: u64, limit: u64) -> u64
    requires start { start ≤ pc }
    requires inside { pc < limit }
    requires step { IsBefore (pc - start) (next_end_of running.now steps.now) }
    ensures ahead { pc < result }
    ensures limited { result ≤ limit }
    ensures before { (a : ℕ) → pc ≤ a → a < result →
        IsBefore (a - start) (next_end_of running.now steps.now) }
{
    match running.next_end(steps) {
        Some(end) => limit.min(start.saturating_add(end)),
        None => limit,
    }
}

// Whether the row that the walk has is the one that is asked at an address, where the steps that have
// ended leave a frame.
#[inline(always)]
fn fits_at(claim: &Claim, walk: &RowWalk<'_>, frame: &FrameSoFar, place: Place, pc: u64) -> bool
    requires function { IsFunction SystemV (function_of claim.now) }
    requires start { claim.now.start ≤ pc }
    requires frame { IsFrameAfter frame.now
        (ended_by (pc - claim.now.start) (function_of claim.now).prologue) }
    requires place { IsPlace (function_of claim.now) pc place }
    ensures { (coding : Coding) (from a : ℕ) (due : ℕ → Result RowInstructions Fault) →
        IsWalking walk.now coding from due → from ≤ a → IsBefore a (end_of walk.now) →
        Decides result (Fits (function_of claim.now) pc (due a)) }
{
    match place {
        Place::Free => true,
        Place::Outermost => fits_outermost(claim, walk, pc),
        Place::Body => fits_body(claim, walk, frame, pc),
        Place::Prologue => fits_prologue(claim, walk, frame, pc),
    }
}

// The same in the body of an outermost function.
#[inline(never)]
fn fits_outermost(claim: &Claim, walk: &RowWalk<'_>, pc: u64) -> bool
    requires function { IsFunction SystemV (function_of claim.now) }
    requires place { IsPlace (function_of claim.now) pc Outermost }
    ensures { (coding : Coding) (from a : ℕ) (due : ℕ → Result RowInstructions Fault) →
        IsWalking walk.now coding from due → from ≤ a → IsBefore a (end_of walk.now) →
        Decides result (Fits (function_of claim.now) pc (due a)) }
{
    match walk.row() {
        Ok(row) => is_outermost_row(&row),
        Err(_) => false,
    }
}

// The same in the body of another function.
#[inline(always)]
fn fits_body(claim: &Claim, walk: &RowWalk<'_>, frame: &FrameSoFar, pc: u64) -> bool
    requires function { IsFunction SystemV (function_of claim.now) }
    requires frame { IsFrameAfter frame.now
        (ended_by (pc - claim.now.start) (function_of claim.now).prologue) }
    requires place { IsPlace (function_of claim.now) pc Body }
    ensures { (coding : Coding) (from a : ℕ) (due : ℕ → Result RowInstructions Fault) →
        IsWalking walk.now coding from due → from ≤ a → IsBefore a (end_of walk.now) →
        Decides result (Fits (function_of claim.now) pc (due a)) }
{
    match walk.row() {
        Ok(row) => is_body_row(&row, frame),
        Err(_) => false,
    }
}

// The same in a prologue.
#[inline(always)]
fn fits_prologue(claim: &Claim, walk: &RowWalk<'_>, frame: &FrameSoFar, pc: u64) -> bool
    requires function { IsFunction SystemV (function_of claim.now) }
    requires frame { IsFrameAfter frame.now
        (ended_by (pc - claim.now.start) (function_of claim.now).prologue) }
    requires place { IsPlace (function_of claim.now) pc Prologue }
    ensures { (coding : Coding) (from a : ℕ) (due : ℕ → Result RowInstructions Fault) →
        IsWalking walk.now coding from due → from ≤ a → IsBefore a (end_of walk.now) →
        Decides result (Fits (function_of claim.now) pc (due a)) }
{
    match walk.row() {
        Ok(row) => is_prologue_row(&row, frame),
        Err(_) => false,
    }
}

// What is asked at an address of a function, and up to where.
#[inline(always)]
fn asked_at(claim: &Claim, pc: u64) -> Asked
    requires function { IsFunction SystemV (function_of claim.now) }
    requires inside { pc < claim.now.end }
    ensures place { IsPlace (function_of claim.now) pc result.place }
    ensures ahead { pc < result.end }
    ensures inside { result.end ≤ claim.now.end }
    ensures quiet { AreEdgesQuiet pc result.end (function_of claim.now).bodies }
{
    asked_among(&claim.bodies, claim.is_outermost, claim.end, pc)
}

// The same by the parts of a function's body, which ascend and lie before its end.
#[inline(always)]
fn asked_among(bodies: &[AddressRange], is_outermost: bool, end: u64, pc: u64) -> Asked
    requires within { (low : ℕ) × AreWithin low end (map range_of bodies.now) }
    requires inside { pc < end }
    ensures place { IsPlaceAmong is_outermost end (map range_of bodies.now) pc result.place }
    ensures ahead { pc < result.end }
    ensures inside { result.end ≤ end }
    ensures quiet { AreEdgesQuiet pc result.end (map range_of bodies.now) }
{
    let mut is_first = true;
    for body in bodies {
        if pc < body.from {
            let place = place_outside(is_outermost, is_first);
            return Asked {
                place,
                end: body.from,
            };
        }
        if pc < body.to {
            let place = place_inside(is_outermost);
            return Asked {
                place,
                end: body.to,
            };
        }
        is_first = false;
    }
    let place = place_outside(is_outermost, is_first);
    Asked { place, end }
}

// What is asked outside the body, before its first part or after that.
#[inline(always)]
fn place_outside(is_outermost: bool, is_before: bool) -> Place
    ensures { (end pc : ℕ) (bodies : List Range) → list_any (in_range pc) bodies ≡ false →
        IsFrontOf is_before pc (first_from end bodies) →
        IsPlaceAmong is_outermost end bodies pc result }
{
    if is_outermost || !is_before {
        Place::Free
    } else {
        Place::Prologue
    }
}

// What is asked in the body.
#[inline(always)]
fn place_inside(is_outermost: bool) -> Place
    ensures { (end pc : ℕ) (bodies : List Range) → list_any (in_range pc) bodies ≡ true →
        IsPlaceAmong is_outermost end bodies pc result }
{
    if is_outermost {
        Place::Outermost
    } else {
        Place::Body
    }
}
