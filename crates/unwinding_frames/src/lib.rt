//! A frame of a stack: how its caller's registers follow, and what its language asks.
//!
//! A [`Frame`] is made of the description that a finder answers and of the row at an address, for any
//! machine of `unwind_arch`, and gives the registers of its caller. Where frame after frame is left,
//! [`step_by_row`] puts the caller in place of each. A frame's language table says what it asks of an
//! exception ([`find_eh_action`]), and a [`Personality`] answers it. In `specs` stand the passes over
//! a stack, by any step and any personality.
#![tactic(auto)]

pub mod abi;
mod cxx;
mod frame;
mod kept_bytes;
mod language_table;
mod personality;
mod personality_dummy;
mod place;
mod saved_slots;
mod window;

pub use abi::context::{
    _Unwind_GetCFA, _Unwind_GetDataRelBase, _Unwind_GetGR, _Unwind_GetIP, _Unwind_GetIPInfo,
    _Unwind_GetLanguageSpecificData, _Unwind_GetRegionStart, _Unwind_GetTextRelBase, _Unwind_SetGR,
    _Unwind_SetIP, UnwindContext,
};
pub use abi::exception::{_Unwind_DeleteException, Kept, UnwindException};
pub use abi::laws::lines_are_one;
pub use abi::{UnwindAction, UnwindReasonCode};
pub use cxx::actions::{CxxAction, find_cxx_action_at};
pub use cxx::error::CxxError;
pub use cxx::laws::{cxx_actions_have_causes, first_record_that_takes_decides};
pub use cxx::personality::{CxxPersonality, find_cxx_action};
pub use cxx::runtime::{CxxRuntime, ExceptionKind};
pub use cxx::types::Exception;
pub use frame::{
    Frame, StepError, address_asked, frame_mark, lsda_of, personality_of, step_by_row, write_caller,
};
pub use language_table::{EhAction, eh_action_of, find_eh_action, find_eh_action_at};
pub use personality::{Personality, RustPersonality};
pub use personality_dummy::DummyPersonality;
pub use place::Place;
pub use saved_slots::step_in_place;
pub use window::Window;
