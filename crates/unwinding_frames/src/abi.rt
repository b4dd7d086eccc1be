//! What the steps of an unwinding and a personality hand each other. Itanium C++ ABI, exception
//! handling, level I.

ghost use Rattle.std.specs.Prelude.{◌≡◌, ◌↔◌, pos, IsTrue};
ghost use Rattle.unwinding_frames.specs.Actions.{ShareBit, shares};

pub mod context;
pub mod exception;
pub mod laws;

pub use context::{
    _Unwind_GetCFA, _Unwind_GetDataRelBase, _Unwind_GetGR, _Unwind_GetIP, _Unwind_GetIPInfo,
    _Unwind_GetLanguageSpecificData, _Unwind_GetRegionStart, _Unwind_GetTextRelBase, _Unwind_SetGR,
    _Unwind_SetIP, UnwindContext,
};
pub use exception::{_Unwind_DeleteException, Kept, UnwindException};
pub use laws::lines_are_one;
use std::ops::BitOr;

/// How an unwinding came out, or a step of it.
///
/// Source: Itanium C++ ABI, exception handling, section 1.2.1, `_Unwind_Reason_Code`.
#[derive(Clone, Copy, PartialEq, Eq)]
pub struct UnwindReasonCode(pub i32);

impl UnwindReasonCode {
    /// Nothing to tell.
    pub const NO_REASON: UnwindReasonCode = UnwindReasonCode(0);
    /// An exception of another language was caught.
    pub const FOREIGN_EXCEPTION_CAUGHT: UnwindReasonCode = UnwindReasonCode(1);
    /// The cleanup phase can't go on.
    pub const FATAL_PHASE2_ERROR: UnwindReasonCode = UnwindReasonCode(2);
    /// The search phase can't go on.
    pub const FATAL_PHASE1_ERROR: UnwindReasonCode = UnwindReasonCode(3);
    /// A forced unwinding was told to stop.
    pub const NORMAL_STOP: UnwindReasonCode = UnwindReasonCode(4);
    /// The stack ended.
    pub const END_OF_STACK: UnwindReasonCode = UnwindReasonCode(5);
    /// The frame has a handler: the search phase ends.
    pub const HANDLER_FOUND: UnwindReasonCode = UnwindReasonCode(6);
    /// The context is to be installed: it stands at a landing pad.
    pub const INSTALL_CONTEXT: UnwindReasonCode = UnwindReasonCode(7);
    /// The frame asks nothing: its caller is next.
    pub const CONTINUE_UNWIND: UnwindReasonCode = UnwindReasonCode(8);
}

// The numbers of the interface.
const _: () = prove!(UnwindReasonCode::NO_REASON.0 == 0);

const _: () = prove!(UnwindReasonCode::FOREIGN_EXCEPTION_CAUGHT.0 == 1);

const _: () = prove!(UnwindReasonCode::FATAL_PHASE2_ERROR.0 == 2);

const _: () = prove!(UnwindReasonCode::FATAL_PHASE1_ERROR.0 == 3);

const _: () = prove!(UnwindReasonCode::NORMAL_STOP.0 == 4);

const _: () = prove!(UnwindReasonCode::END_OF_STACK.0 == 5);

const _: () = prove!(UnwindReasonCode::HANDLER_FOUND.0 == 6);

const _: () = prove!(UnwindReasonCode::INSTALL_CONTEXT.0 == 7);

const _: () = prove!(UnwindReasonCode::CONTINUE_UNWIND.0 == 8);

/// What a personality is called for, as a set of bits.
///
/// Source: Itanium C++ ABI, exception handling, section 1.2.1, `_Unwind_Action`.
#[derive(Clone, Copy, PartialEq, Eq)]
pub struct UnwindAction(pub i32);

impl UnwindAction {
    /// To tell whether the frame has a handler.
    pub const SEARCH_PHASE: UnwindAction = UnwindAction(1);
    /// To enter a landing pad of the frame, if it has one.
    pub const CLEANUP_PHASE: UnwindAction = UnwindAction(2);
    /// The frame is the one whose handler was found.
    pub const HANDLER_FRAME: UnwindAction = UnwindAction(4);
    /// No handler may be entered: the unwinding is forced.
    pub const FORCE_UNWIND: UnwindAction = UnwindAction(8);
    /// The stack has ended.
    pub const END_OF_STACK: UnwindAction = UnwindAction(16);

    /// The set of no bits.
    pub fn empty() -> UnwindAction
        ensures { result.0 ≡ pos 0 }
    {
        UnwindAction(0)
    }

    /// Whether the two sets share a bit.
    pub fn contains(&self, other: UnwindAction) -> bool
        ensures bit { IsTrue result ↔ ShareBit self.now.0 other.0 }
        ensures is { result ≡ shares self.now.0 other.0 }
    {
        self.0.cast_unsigned() & other.0.cast_unsigned() != 0
    }
}

// The bits of the interface.
const _: () = prove!(UnwindAction::SEARCH_PHASE.0 == 1);

const _: () = prove!(UnwindAction::CLEANUP_PHASE.0 == 2);

const _: () = prove!(UnwindAction::HANDLER_FRAME.0 == 4);

const _: () = prove!(UnwindAction::FORCE_UNWIND.0 == 8);

const _: () = prove!(UnwindAction::END_OF_STACK.0 == 16);

impl BitOr for UnwindAction {
    type Output = UnwindAction;

    ghost use Rattle.std.specs.Prelude.{◌≡◌};
    ghost use Rattle.std.specs.Int.{w32, int_bit_or};

    ghost bitor_gives = { λ a b r. r.0 ≡ int_bit_or w32 a.0 b.0 };

    /// The bits of both sets.
    fn bitor(self, other: UnwindAction) -> UnwindAction {
        UnwindAction(self.0 | other.0)
    }
}
