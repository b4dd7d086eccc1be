//! The rows of a frame: those that say what the steps of a prologue did.
//! DWARF 5 section 6.4.1; System V x86-64 psABI for the registers.

ghost use Rattle.std.specs.Prelude.{◌≡◌, ◌⊎◌, List, None, true};
ghost use Rattle.std.specs.Bool.{Decides};
ghost use Rattle.unwind_definitions.specs.Row.{ColumnAndOffset};
ghost use Rattle.unwind_definitions.specs.State.{CalleeSaved as Kept, RBP as frame_pointer};
ghost use Rattle.unwind_definitions.specs.Prologue.{Step};
ghost use Rattle.unwind_definitions.specs.DescribedRows.{cfa_after};
ghost use Rattle.table_check.specs.Frames.{IsFrameAfter, callee_saved_of};
ghost use Rattle.table_check.specs.FrameRows.{HasSmallOffset, IsBodyValue, IsOutermostValue};
ghost use Rattle.table_check.specs.FrameRows.{IsPrologueValue};
ghost use Rattle.table_check.specs.FrameRules.{IsFound};

use crate::frame_rules::{ReturnRule, RuledRegisters};
use crate::prologue::{CalleeSaved, FrameSoFar};
use eh_frame::{CfaRule, Register, RowRef};

const RBP: Register = Register(6);

const RSP: Register = Register(7);

/// Whether a row is that of a frame whose prologue has run these steps.
#[inline(always)]
pub(crate) fn is_body_row(row: &RowRef<'_, '_>, frame: &FrameSoFar) -> bool
    ensures { (steps : List Step) → IsFrameAfter frame.now steps →
        Decides result (IsBodyValue steps row.now) }
{
    if !is_frame_row(row, frame) {
        return false;
    }
    let mut ruled = RuledRegisters::none();
    if !ruled.read(row, frame, ReturnRule::Saved) {
        return false;
    }
    finds_all(&ruled, frame)
}

/// Whether a row is that of a frame inside its prologue, of which these steps have run.
#[inline(always)]
pub(crate) fn is_prologue_row(row: &RowRef<'_, '_>, frame: &FrameSoFar) -> bool
    ensures { (steps : List Step) → IsFrameAfter frame.now steps →
        Decides result (IsPrologueValue steps row.now) }
{
    if !is_frame_row(row, frame) {
        return false;
    }
    let mut ruled = RuledRegisters::none();
    if !ruled.read(row, frame, ReturnRule::Saved) {
        return false;
    }
    may_find_all_late(&ruled, frame)
}

/// Whether a row is that of an outermost frame, which has no caller to return to.
#[inline(always)]
pub(crate) fn is_outermost_row(row: &RowRef<'_, '_>) -> bool
    ensures { Decides result (IsOutermostValue row.now) }
{
    if !has_cfa(row, RSP, 8) {
        return false;
    }
    if row.saved_args_size() != 0 {
        return false;
    }
    let mut ruled = RuledRegisters::none();
    let frame = FrameSoFar::new();
    if !ruled.read(row, &frame, ReturnRule::Undefined) {
        return false;
    }
    ruled.has_return_address()
}

// Whether a row finds the caller's stack pointer, and no arguments are removed.
#[inline(always)]
fn is_frame_row(row: &RowRef<'_, '_>, frame: &FrameSoFar) -> bool
    ensures { (steps : List Step) → IsFrameAfter frame.now steps →
        Decides result ((row.now.cfa ≡ cfa_after steps) × (row.now.saved_args_size ≡ 0)) }
{
    has_frame_cfa(row, frame) && row.saved_args_size() == 0
}

// Whether the CFA is RBP, once it is set, or else RSP, as far below as it is in the frame.
#[inline(always)]
fn has_frame_cfa(row: &RowRef<'_, '_>, frame: &FrameSoFar) -> bool
    ensures { (steps : List Step) → IsFrameAfter frame.now steps →
        Decides result (row.now.cfa ≡ cfa_after steps) }
{
    match frame.frame_depth {
        Some(depth) => has_cfa(row, RBP, depth),
        None => has_cfa(row, RSP, frame.depth),
    }
}

// Whether the CFA is a register plus so many bytes.
#[inline(always)]
fn has_cfa(row: &RowRef<'_, '_>, base: Register, distance: u128) -> bool
    ensures decides { Decides result (row.now.cfa ≡ ColumnAndOffset base.0 distance) }
    ensures small { HasSmallOffset row.now.cfa }
{
    match row.cfa() {
        CfaRule::RegisterAndOffset { register, offset } => {
            register.0 == base.0 && u128::from(offset) == distance
        }
        CfaRule::Expression(_) => false,
    }
}

// Whether the return address has a rule, and each register that the frame saves.
#[inline(always)]
fn finds_all(ruled: &RuledRegisters, frame: &FrameSoFar) -> bool
    ensures { Decides result
        ((ruled.now.return_address ≡ true) × ((r : Kept) → IsFound frame.now ruled.now r)) }
{
    if !ruled.has_return_address() {
        return false;
    }
    if !finds(ruled, frame, CalleeSaved::Rbx) {
        return false;
    }
    if !finds(ruled, frame, CalleeSaved::Rbp) {
        return false;
    }
    if !finds(ruled, frame, CalleeSaved::R12) {
        return false;
    }
    if !finds(ruled, frame, CalleeSaved::R13) {
        return false;
    }
    if !finds(ruled, frame, CalleeSaved::R14) {
        return false;
    }
    finds(ruled, frame, CalleeSaved::R15)
}

// Whether the return address has a rule, and RBP, once it is set.
#[inline(always)]
fn may_find_all_late(ruled: &RuledRegisters, frame: &FrameSoFar) -> bool
    ensures { Decides result ((ruled.now.return_address ≡ true)
        × ((frame.now.frame_depth ≡ None) ⊎ IsFound frame.now ruled.now frame_pointer)) }
{
    ruled.has_return_address()
        && (frame.frame_depth.is_none() || finds(ruled, frame, CalleeSaved::Rbp))
}

// Whether a register has a rule, or the frame doesn't save it.
#[inline(always)]
fn finds(ruled: &RuledRegisters, frame: &FrameSoFar, register: CalleeSaved) -> bool
    ensures { Decides result (IsFound frame.now ruled.now (callee_saved_of register)) }
{
    ruled.has(register) || frame.slot(register).is_none()
}
