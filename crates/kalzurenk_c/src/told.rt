// What a walk tells its caller: frames, how many they are, and why there are no more.
ghost use Rattle.std.specs.Prelude.{◌≡◌, ℕ, length};
ghost use Rattle.kalzurenk_c.specs.Told.{end_told, frame_limit, frame_of};

use crate::numbers::{refused_end, table_number};
use crate::sizes::{END_SIZE, FRAME_SIZE};
use stack_steps::Stepped;
use stack_walks::EndReason;
use unwind_arch::x86_64::{R12, R13, R14, R15, RBP, RBX, RSP};

/// A frame: its return address, its stack pointer, the registers that calls keep, and its mark.
#[repr(C)]
#[derive(Clone, Copy, Drop)]
pub struct StackFrame {
    /// The instruction pointer of the first frame, and of one that a signal interrupted; of each
    /// other the address that the call of the frame before returns to.
    pub ra: u64,
    /// The stack pointer. That of the next frame is this frame's canonical frame address.
    pub sp: u64,
    /// RBX.
    pub rbx: u64,
    /// RBP.
    pub rbp: u64,
    /// R12.
    pub r12: u64,
    /// R13.
    pub r13: u64,
    /// R14.
    pub r14: u64,
    /// R15.
    pub r15: u64,
    /// 1 where the frame was interrupted where it stands, so that `ra` is the address of its next
    /// instruction: the start of a walk, as was said of it, and each that a signal's frame returns
    /// to. 0 where it was stopped in a call.
    pub interrupted: u64,
}

/// How far a walk came, and why it goes no further.
#[repr(C)]
#[derive(Clone, Copy, Drop)]
pub struct WalkEnd {
    /// How many bytes this struct has.
    pub size: u64,
    /// How many bytes a frame has.
    pub frame_size: u64,
    /// How many frames there are.
    pub count: u64,
    /// The address asked at the last frame, where the reason has one; else 0.
    pub address: u64,
    /// How many bytes of a table stand before the entry that can't be read, or the address that
    /// isn't mapped; else 0.
    pub detail: u64,
    /// Why there are no more, by the numbers of `kalzurenk.h`.
    pub reason: u32,
    /// Why the table can't be read, or the step is refused, by its numbers; else 0.
    pub error: u32,
}

/// The frame that a state shows.
pub(crate) fn frame_of(state: &Stepped) -> StackFrame
    ensures { result ≡ frame_of state.now }
{
    let context = &state.context;
    StackFrame {
        ra: context.ra,
        sp: context.registers[RSP],
        rbx: context.registers[RBX],
        rbp: context.registers[RBP],
        r12: context.registers[R12],
        r13: context.registers[R13],
        r14: context.registers[R14],
        r15: context.registers[R15],
        interrupted: if state.signal { 1 } else { 0 },
    }
}

/// What is told of a walk's end.
pub(crate) fn end_told(count: u64, why: EndReason) -> WalkEnd
    ensures { result ≡ end_told count why }
{
    let (reason, error, address, detail) = match why {
        EndReason::Outermost => (0, 0, 0, 0),
        EndReason::NoModule(address) => (1, 0, address, 0),
        EndReason::NoDescription(address) => (2, 0, address, 0),
        EndReason::UnreadableTable {
            address,
            offset,
            error,
        } => (3, table_number(error), address, offset),
        EndReason::Refused { address, error } => {
            let (number, detail) = refused_end(error);
            (4, number, address, detail)
        }
        EndReason::Limit => (5, 0, 0, 0),
    };
    WalkEnd {
        size: END_SIZE,
        frame_size: FRAME_SIZE,
        count,
        address,
        detail,
        reason,
        error,
    }
}

/// The most frames that there are places for.
pub(crate) fn frame_limit(frames: &[StackFrame]) -> u32
    ensures { result ≡ frame_limit (length frames.now) }
{
    match u32::try_from(frames.len()) {
        Ok(limit) => limit,
        Err(_) => u32::MAX,
    }
}

/// A caller can tell ends apart: no two counts, and no two reasons with their addresses and errors, are
/// told alike. The function does nothing.
pub fn ends_are_told_apart()
    ensures apart { (m n : ℕ) (a b : EndReason) → end_told m a ≡ end_told n b → (m ≡ n) × (a ≡ b) }
{}
