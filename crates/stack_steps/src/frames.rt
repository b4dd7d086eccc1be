// Frames of modules of any format: the frame at an address, how many bytes its arguments take, and its
// caller, each by one match. What it answers for one format stands in `elf`, `macho` and `pe`.
ghost use Rattle.std.specs.Prelude.{◌≡◌, ◌<◌, ◌≤◌, Ok, OnErr, Some, false, true};
ghost use Rattle.memory_image.specs.Results.{result_map};
ghost use Rattle.stack_steps.specs.Asking.{arguments_of};
ghost use Rattle.stack_steps.specs.Frames.{FrameAt};
ghost use Rattle.stack_steps.specs.FrameViews.{GivesFrameAt, IsFrameOf};
ghost use Rattle.stack_steps.specs.Modules.{IsPlaced};
ghost use Rattle.stack_steps.specs.Stepping.{caller_by, frame_in};
ghost use Rattle.stack_steps.specs.Ticking.{RisesBySearch, module_pairs};

use crate::elf::{self, SearchedFrame};
use crate::error::DeliverError;
use crate::macho::{self, CompactFrame};
use crate::pe::{self, RecordedFrame};
use crate::prepared::PreparedTable;
use crate::space::{Module, ModuleTables};
use eh_frame::{PreparedFrame, RowRoom};
use fde_finders::FDESearchResult;
use format_frames::Stepped;
use memory_image::{Ledger, Steps};
use unwind_arch::x86_64::Context;
use unwinding_frames::Window;

/// A frame of the stack: what was found for the address asked of it.
#[derive(Drop)]
pub enum FoundFrame<'f, 'a> {
    /// By a description: that which a search of an ELF module's tables finds, or to which the opcode
    /// of a Mach-O module's function points.
    Searched(SearchedFrame<'f, 'a>),
    /// By the index of a prepared module, which lends its row.
    Prepared(&'f PreparedTable<'a>, PreparedFrame<'f, 'a>),
    /// In a Mach-O module, by the opcode of its function alone.
    Compact(CompactFrame),
    /// In a PE module.
    Recorded(RecordedFrame<'a>),
}

impl<'f, 'a> FoundFrame<'f, 'a> {
    /// How many bytes of the stack hold arguments that the callee removes.
    pub fn arguments(&self) -> u64
        ensures { (f : FrameAt) → IsFrameOf self.now f → result ≡ arguments_of f }
    {
        match self {
            FoundFrame::Searched(frame) => frame.row.saved_args_size(),
            FoundFrame::Prepared(_, frame) => match frame.row() {
                Ok(row) => row.saved_args_size(),
                Err(_) => 0,
            },
            FoundFrame::Compact(_) | FoundFrame::Recorded(_) => 0,
        }
    }

    /// Puts the caller in the place of the state at the frame, where the frame's row is lent by an index
    /// and needs no copy of the registers. `false`, and nothing is changed, where that isn't so. `stack`
    /// is a window over the image.
    #[inline(always)]
    pub(crate) fn step_in_place(&self, stack: &Window<'_, 'a>, state: &mut Stepped) -> bool
        ensures caller { result ≡ true → (f : FrameAt) → IsFrameOf self.now f →
            caller_by stack.now state.old.context f ≡ Ok state.new }
        ensures stays { result ≡ false → state.new ≡ state.old }
    {
        let FoundFrame::Prepared(_, prepared) = self else {
            return false;
        };
        match prepared.row() {
            Ok(row) => elf::step_in_place(stack, row, prepared.is_signal_trampoline(), state),
            Err(_) => false,
        }
    }

    /// Makes a copy of the state at the frame its caller's. After a fault the copy's registers are
    /// unspecified. `stack` is a window over the image.
    #[inline(always)]
    pub(crate) fn step_to_caller(
        &self,
        stack: &mut Window<'_, 'a>,
        callee: &Context,
        next: &mut Stepped,
    ) -> Result<(), DeliverError>
        requires { next.old.context ≡ callee.now }
        ensures caller { (f : FrameAt) → IsFrameOf self.now f →
            result_map (λ done. next.new) result ≡ caller_by stack.old callee.now f }
        ensures mark { OnErr result (next.new.signal ≡ next.old.signal) }
        ensures same { stack.new ≡ stack.old }
    {
        match self {
            FoundFrame::Searched(searched) => {
                let signal = searched.found.fde.is_signal_trampoline();
                elf::step_to_caller(stack, callee, &searched.row, signal, next)
            }
            FoundFrame::Prepared(_, prepared) => match prepared.row() {
                Ok(row) => {
                    let signal = prepared.is_signal_trampoline();
                    elf::step_to_caller(stack, callee, row, signal, next)
                }
                Err(fault) => Err(DeliverError::Table(fault)),
            },
            FoundFrame::Compact(compact) => compact.step_to_caller(stack, next),
            FoundFrame::Recorded(recorded) => recorded.step_to_caller(stack, next),
        }
    }
}

/// The frame at an address of a module that isn't prepared. `stack` is a window over the image.
#[inline(never)]
pub(crate) fn frame<'f, 'a, L: Ledger>(
    stack: &mut Window<'_, 'a>,
    address: u64,
    holder: &Module,
    place: &'f mut Option<FDESearchResult<'a>>,
    rows: &'f mut RowRoom<'a>,
    steps: &mut Steps<L>,
) -> Result<Option<FoundFrame<'f, 'a>>, DeliverError>
    requires placed { IsPlaced holder.now }
    requires from { holder.now.start ≤ address }
    requires within { address < holder.now.end }
    ensures frame { GivesFrameAt result (frame_in stack.old address (Some holder.now)) }
    ensures ticks { RisesBySearch (module_pairs stack.old holder.now.tables) steps.old.number
        steps.new.number }
    ensures same { stack.new ≡ stack.old }
{
    match holder.tables {
        ModuleTables::Elf(tables) => {
            elf::frame(stack.image(), address, tables, place, rows, steps)
        }
        ModuleTables::Macho(tables) => { macho::frame(stack, address, holder, tables, place, rows) }
        ModuleTables::Pe(tables) => pe::frame(stack, address, holder, tables),
    }
}
