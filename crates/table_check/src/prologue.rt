//! Prologues: the first instructions of a function, and what they leave on the stack.
//! System V x86-64 psABI, section 3.2.2.

ghost use Rattle.std.specs.Prelude.{◌≡◌, ◌+◌, ◌<◌, ◌≤◌, ℕ, [], ◌∷◌, ◌++◌, List, MatchOption, None};
ghost use Rattle.std.specs.Prelude.{false, map};
ghost use Rattle.unwind_definitions.specs.State.{RBP, column_of, is_same};
ghost use Rattle.unwind_definitions.specs.Prologue.{Allocate, Followed, IsPrologue, Push, SetFrame};
ghost use Rattle.unwind_definitions.specs.Prologue.{Step, Store, SystemV, depth, distance};
ghost use Rattle.unwind_definitions.specs.Prologue.{frame_depth, may_push};
ghost use Rattle.unwind_definitions.specs.DescribedRows.{negative};
ghost use Rattle.std.specs.Bool.{Decides};
ghost use Rattle.table_check.specs.ClaimViews.{prologue_step_of, register_of, step_of};
ghost use Rattle.table_check.specs.Frames.{IsFrameAfter, MayBeNext, MayBeSaved, MayHold};
ghost use Rattle.table_check.specs.Frames.{callee_saved_of, slot_of};
ghost use Rattle.table_check.specs.Frames.{with_slot};

use crate::claims::{ClaimStep, ClaimedStep};
use eh_frame::Register;

// How many words of 64 bits there are.
const WORDS: u128 = 1 << 64;

/// The registers that a function keeps for its caller, but for the stack pointer.
/// System V x86-64 psABI, section 3.2.1.
#[derive(Clone, Copy)]
pub(crate) enum CalleeSaved {
    Rbx,
    Rbp,
    R12,
    R13,
    R14,
    R15,
}

impl CalleeSaved {
    /// The register of a column, if it is one of these.
    pub(crate) fn of(column: Register) -> Option<CalleeSaved>
        ensures { MatchOption result (may_push SystemV (register_of column.0) ≡ false)
            (λ r. register_of column.0 ≡ Followed (callee_saved_of r)) }
    {
        match column.0 {
            3 => Some(CalleeSaved::Rbx),
            6 => Some(CalleeSaved::Rbp),
            12 => Some(CalleeSaved::R12),
            13 => Some(CalleeSaved::R13),
            14 => Some(CalleeSaved::R14),
            15 => Some(CalleeSaved::R15),
            _ => None,
        }
    }

    /// Its column.
    pub(crate) fn column(self) -> Register
        ensures { result.0 ≡ column_of (callee_saved_of self) }
    {
        match self {
            CalleeSaved::Rbx => Register(3),
            CalleeSaved::Rbp => Register(6),
            CalleeSaved::R12 => Register(12),
            CalleeSaved::R13 => Register(13),
            CalleeSaved::R14 => Register(14),
            CalleeSaved::R15 => Register(15),
        }
    }

    /// Whether it is the frame pointer.
    pub(crate) fn is_rbp(self) -> bool
        ensures { result ≡ is_same RBP (callee_saved_of self) }
    {
        matches!(self, CalleeSaved::Rbp)
    }
}

/// What the steps of a prologue so far leave on the stack: how far below the caller's stack pointer
/// things are, in bytes. Numbers from 2^99 on aren't exact.
#[derive(Clone, Copy)]
pub(crate) struct FrameSoFar {
    /// How far the stack pointer is below.
    pub(crate) depth: u128,
    /// How far what RBP was set to is below.
    pub(crate) frame_depth: Option<u128>,
    is_rbp_pushed: bool,
    rbx: Option<u64>,
    rbp: Option<u64>,
    r12: Option<u64>,
    r13: Option<u64>,
    r14: Option<u64>,
    r15: Option<u64>,
}

impl FrameSoFar {
    /// That of no steps: the return address is on the stack.
    pub(crate) fn new() -> FrameSoFar
        ensures { IsFrameAfter result [] }
    {
        FrameSoFar {
            depth: 8,
            frame_depth: None,
            is_rbp_pushed: false,
            rbx: None,
            rbp: None,
            r12: None,
            r13: None,
            r14: None,
            r15: None,
        }
    }

    /// The offset from the caller's stack pointer at which a register is saved, as a word; `None`
    /// where it isn't.
    pub(crate) fn slot(&self, register: CalleeSaved) -> Option<u64>
        ensures { result ≡ slot_of (callee_saved_of register) self.now }
    {
        match register {
            CalleeSaved::Rbx => self.rbx,
            CalleeSaved::Rbp => self.rbp,
            CalleeSaved::R12 => self.r12,
            CalleeSaved::R13 => self.r13,
            CalleeSaved::R14 => self.r14,
            CalleeSaved::R15 => self.r15,
        }
    }

    // Keeps that a register is saved at an offset.
    fn save(&mut self, register: CalleeSaved, offset: u64)
        ensures { self.new ≡ with_slot (callee_saved_of register) offset self.old }
    {
        match register {
            CalleeSaved::Rbx => self.rbx = Some(offset),
            CalleeSaved::Rbp => self.rbp = Some(offset),
            CalleeSaved::R12 => self.r12 = Some(offset),
            CalleeSaved::R13 => self.r13 = Some(offset),
            CalleeSaved::R14 => self.r14 = Some(offset),
            CalleeSaved::R15 => self.r15 = Some(offset),
        }
    }

    // Whether a register is one that a function keeps for its caller, and isn't saved yet.
    fn may_save(&self, column: Register) -> bool
        ensures { (before : List Step) → IsFrameAfter self.now before →
            Decides result (MayBeSaved before (register_of column.0)) }
    {
        match CalleeSaved::of(column) {
            Some(register) => self.slot(register).is_none(),
            None => false,
        }
    }

    // Whether RBP may be set so many bytes above the stack pointer: once, after it was pushed, and
    // to the stack pointer itself.
    fn may_set(&self, offset: u64) -> bool
        ensures { (before : List Step) → IsFrameAfter self.now before →
            Decides result (MayBeNext before (SetFrame offset)) }
    {
        self.frame_depth.is_none() && self.is_rbp_pushed && offset == 0
    }

    // Whether a slot of a register lies whole words above the stack pointer, and below the return
    // address.
    fn may_hold(&self, offset: u64) -> bool
        ensures { (before : List Step) → IsFrameAfter self.now before →
            Decides result (MayHold before offset) }
    {
        offset % 8 == 0 && u128::from(offset) + 16 <= self.depth
    }

    /// Whether a step may follow those so far, none of which saves the same register.
    pub(crate) fn may_take(&self, step: ClaimStep) -> bool
        ensures { (before : List Step) → IsFrameAfter self.now before →
            Decides result (MayBeNext before (step_of step)) }
    {
        match step {
            ClaimStep::Push(column) => self.may_save(column),
            ClaimStep::Allocate(size) => size > 0 && size % 8 == 0,
            ClaimStep::Set(offset) => self.may_set(offset),
            ClaimStep::Store(column, offset) => self.may_save(column) && self.may_hold(offset),
        }
    }

    /// Takes one more step. One of a register that a function doesn't keep changes nothing.
    pub(crate) fn take(&mut self, step: ClaimStep)
        ensures { (before : List Step) → IsFrameAfter self.old before →
            MayBeNext before (step_of step) →
            IsFrameAfter self.new (before ++ step_of step ∷ []) }
    {
        match step {
            ClaimStep::Push(column) => self.take_push(column),
            ClaimStep::Allocate(size) => self.allocate(size),
            ClaimStep::Set(_) => self.set_frame(),
            ClaimStep::Store(column, offset) => self.take_store(column, offset),
        }
    }

    fn take_push(&mut self, column: Register)
        ensures { (before : List Step) → IsFrameAfter self.old before →
            MayBeNext before (Push (register_of column.0)) →
            IsFrameAfter self.new (before ++ Push (register_of column.0) ∷ []) }
    {
        if let Some(register) = CalleeSaved::of(column) {
            self.push(register);
        }
    }

    fn take_store(&mut self, column: Register, offset: u64)
        ensures { (before : List Step) → IsFrameAfter self.old before →
            MayBeNext before (Store (register_of column.0) offset) →
            IsFrameAfter self.new (before ++ Store (register_of column.0) offset ∷ []) }
    {
        if let Some(register) = CalleeSaved::of(column) {
            self.store(register, offset);
        }
    }

    fn push(&mut self, register: CalleeSaved)
        ensures { (before : List Step) → IsFrameAfter self.old before →
            distance (callee_saved_of register) before ≡ None →
            IsFrameAfter self.new (before ++ Push (Followed (callee_saved_of register)) ∷ []) }
    {
        let depth = self.depth.saturating_add(8);
        self.depth = depth;
        self.is_rbp_pushed = self.is_rbp_pushed | register.is_rbp();
        self.save(register, offset_of(depth));
    }

    fn allocate(&mut self, size: u64)
        ensures { (before : List Step) → IsFrameAfter self.old before →
            IsFrameAfter self.new (before ++ Allocate size ∷ []) }
    {
        self.depth = self.depth.saturating_add(u128::from(size));
    }

    fn set_frame(&mut self)
        ensures { (before : List Step) (offset : ℕ) → IsFrameAfter self.old before →
            frame_depth before ≡ None → IsFrameAfter self.new (before ++ SetFrame offset ∷ []) }
    {
        self.frame_depth = Some(self.depth);
    }

    fn store(&mut self, register: CalleeSaved, offset: u64)
        ensures { (before : List Step) → IsFrameAfter self.old before →
            offset + 16 ≤ depth before → distance (callee_saved_of register) before ≡ None →
            IsFrameAfter self.new (before ++ Store (Followed (callee_saved_of register)) offset
            ∷ []) }
    {
        let distance = self.depth.saturating_sub(u128::from(offset)).max(1);
        self.save(register, offset_of(distance));
    }
}

// The offset from the CFA of what is so far below it, as a word.
fn offset_of(distance: u128) -> u64
    requires { 0 < distance }
    ensures { result ≡ negative distance }
{
    WORDS.saturating_sub(distance) as u64
}

/// Whether these are the steps of a prologue: their ends ascend, each may follow those before, and
/// no register is saved twice.
pub(crate) fn is_prologue(steps: &[ClaimedStep]) -> bool
    ensures { Decides result (IsPrologue SystemV (map prologue_step_of steps.now)) }
{
    let mut frame = FrameSoFar::new();
    let mut last = 0;
    for step in steps {
        if step.end <= last {
            return false;
        }
        if !frame.may_take(step.step) {
            return false;
        }
        frame.take(step.step);
        last = step.end;
    }
    true
}
