//! The runs of an unwinding, and what they and a personality hand each other. Itanium C++ ABI,
//! exception handling, level I.

pub mod backtrace;
pub mod enclosing;
mod passes;
pub mod raise;
pub mod stop;
pub mod unwound;

/// What `unwinding_frames` has in this module.
pub mod context {
    pub use unwinding_frames::{
        _Unwind_GetCFA, _Unwind_GetDataRelBase, _Unwind_GetGR, _Unwind_GetIP, _Unwind_GetIPInfo,
        _Unwind_GetLanguageSpecificData, _Unwind_GetRegionStart, _Unwind_GetTextRelBase,
        _Unwind_SetGR, _Unwind_SetIP, UnwindContext,
    };
}

/// What `unwinding_frames` has in this module.
pub mod exception {
    pub use unwinding_frames::{_Unwind_DeleteException, Kept, UnwindException};
}

/// What `unwinding_frames` has in this module.
pub mod laws {
    pub use unwinding_frames::lines_are_one;
}

pub use backtrace::{_Unwind_Backtrace, Ended, Trace};
pub use enclosing::_Unwind_FindEnclosingFunction;
pub use raise::{
    _Unwind_ForcedUnwind, _Unwind_RaiseException, _Unwind_Resume, _Unwind_Resume_or_Rethrow,
};
pub use stop::Stop;
pub use unwinding_frames::{
    _Unwind_DeleteException, _Unwind_GetCFA, _Unwind_GetDataRelBase, _Unwind_GetGR, _Unwind_GetIP,
    _Unwind_GetIPInfo, _Unwind_GetLanguageSpecificData, _Unwind_GetRegionStart,
    _Unwind_GetTextRelBase, _Unwind_SetGR, _Unwind_SetIP, Kept, UnwindAction, UnwindContext,
    UnwindException, UnwindReasonCode, lines_are_one,
};
pub use unwound::{Cause, Unwound};
