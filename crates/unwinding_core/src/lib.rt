//! The unwinding of a stack: the passes over its frames, and the runs that go by them.
//!
//! The calls are those of the Itanium C++ ABI, in the module [`abi`]: to raise an exception, to unwind
//! by force, to resume, and to visit the frames of a stack, over any finder, any personality and any
//! machine of `unwind_arch`. Finders stand in `fde_finders`, and frames, language tables and
//! personalities in `unwinding_frames`; those of their public names that users need are here too.
//!
//! The caller of a frame in an image of memory, whose registers are in `context`:
//!
//! ```rust
//! use memory_image::{NoLedger, Steps};
//! use unwind_arch::x86_64::{Arch, RBX};
//! use unwinding_core::{Frame, StaticFinder};
//!
//! let finder = StaticFinder::new(0x40_1000, 0x40_1010, 0x50_0000);
//! let mut steps = Steps::new(NoLedger);
//! let frame = Frame::<Arch>::from_context(&image, &finder, &context, true, &mut steps)?;
//! if let Some(frame) = frame {
//!     let caller = frame.unwind(&image, &context)?;
//!     println!(rt; "ra={:#x} rbx={:#x}", caller.ra, caller.registers[RBX])?;
//! }
//! ```
#![tactic(auto)]

pub mod abi;

/// Finders by the frame tables that another value names.
pub mod custom_eh_frame_finder {
    pub use fde_finders::{
        CustomFinder, EhFrameFinder, FrameInfo, FrameInfoKind, SetCustomEhFrameFinderError,
    };
}

pub use abi::backtrace::{_Unwind_Backtrace, Ended, Trace};
pub use abi::enclosing::_Unwind_FindEnclosingFunction;
pub use abi::raise::{
    _Unwind_ForcedUnwind, _Unwind_RaiseException, _Unwind_Resume, _Unwind_Resume_or_Rethrow,
};
pub use abi::stop::Stop;
pub use abi::unwound::{Cause, Unwound};
pub use fde_finders::{
    CustomFinder, EhFrameFinder, FDEFinder, FDESearchResult, FrameInfo, FrameInfoKind,
    GlobalFinder, GnuHdrFinder, Object, Phdr, PhdrFinder, PhdrObject, Registry,
    SetCustomEhFrameFinderError, StaticFinder, find_by_tables,
};
pub use unwinding_frames::{
    _Unwind_DeleteException, _Unwind_GetCFA, _Unwind_GetDataRelBase, _Unwind_GetGR, _Unwind_GetIP,
    _Unwind_GetIPInfo, _Unwind_GetLanguageSpecificData, _Unwind_GetRegionStart,
    _Unwind_GetTextRelBase, _Unwind_SetGR, _Unwind_SetIP, CxxAction, CxxError, CxxPersonality,
    CxxRuntime, DummyPersonality, EhAction, Exception, ExceptionKind, Frame, Kept, Personality,
    Place, RustPersonality, StepError, UnwindAction, UnwindContext, UnwindException,
    UnwindReasonCode, address_asked, eh_action_of, find_cxx_action, find_cxx_action_at,
    find_eh_action, find_eh_action_at, frame_mark, lines_are_one, lsda_of, personality_of,
    step_by_row,
};
