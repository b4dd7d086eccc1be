//! Unwinding by the unwind data of x86-64 images, as Microsoft's "x64 exception handling" lays it
//! down.

mod epilog;
mod epilog_list;
mod fault;
mod frame;
mod function_table;
mod handler;
pub mod handler_laws;
pub mod laws;
mod little_endian;
mod operations;
mod registers;
mod search;
mod sections;
mod state;
mod steps;
mod unwind_info;

pub use epilog::{FUNCTION_EPILOG_LIMIT, FunctionEpilogInstruction, InstructionParseError};
pub use fault::FrameFault;
pub use frame::try_unwind_function;
pub use function_table::{
    FunctionTableEntries, RuntimeFunction, U32, lookup_finds_the_holder, lookup_is_determined,
    lookup_of_is_a_lookup, table_of_two_is_in_order,
};
pub use handler::{Handler, handler_of_function};
pub use operations::{
    EpilogHeader, EpilogInformation, StackFrameOffset, UnwindCode, UnwindOperation,
    UnwindOperationCode, UnwindOperations,
};
pub use registers::{Register, XmmRegister};
pub use sections::Sections;
pub use state::UnwindState;
pub use unwind_info::{UnwindInfo, UnwindInfoFlags, UnwindInfoHeader, UnwindInfoTrailer};
