// The handler that an unwind record of a function names.
ghost use Rattle.std.specs.Prelude.{◌≡◌, ℕ, List, Option};
ghost use Rattle.std.specs.Option.{option_map};
ghost use Rattle.pe_unwind_info.specs.Frame.{Gives, info_in};
ghost use Rattle.pe_unwind_info.specs.FrameOf.{Image};
ghost use Rattle.pe_unwind_info.specs.FunctionTable.{table_bytes, functions_of, lookup_of};
ghost use Rattle.pe_unwind_info.specs.HandlerData.{data_offset};
ghost use Rattle.pe_unwind_info.specs.Handlers.{handler_with, handler_by, handler_of, naming_by};
ghost use Rattle.pe_unwind_info.specs.Handlers.{naming_of, naming_end, IsHandler, IsHandlerAt};
ghost use Rattle.pe_unwind_info.specs.Info.{info_of, trailer_of};

use crate::x86_64::fault::FrameFault;
use crate::x86_64::frame::info_at;
use crate::x86_64::function_table::{FunctionTableEntries, RuntimeFunction, U32};
use crate::x86_64::unwind_info::{UnwindInfo, UnwindInfoTrailer};
use std::ops::ControlFlow;

// how many records a function may have: its first, and those that are chained to it
const RECORD_LIMIT: u32 = 33;

/// The handler that an unwind record of a function names, for exceptions or for termination. All
/// addresses are relative to the base of the image.
#[derive(Clone, Copy, Debug, PartialEq, Eq)]
pub struct Handler {
    /// Where the function of that record begins. Of a record that is chained to another one it is
    /// the function that the other's trailer states.
    pub begin: U32,
    /// Where the handler stands.
    pub handler_address: U32,
    /// Where the handler's data stands.
    pub data_rva: u64,
}

// the handler at an address whose data stands so far from a function's record
fn handler_with(function: &RuntimeFunction, offset: u32, handler_address: U32) -> Handler
    ensures { result ≡ handler_with function.now offset handler_address }
{
    Handler {
        begin: function.begin_address,
        handler_address,
        data_rva: u64::from(function.unwind_info_address) + u64::from(offset),
    }
}

// the handler of a function's record, where its trailer is a handler's
fn handler_by(info: &UnwindInfo<'_>, function: &RuntimeFunction) -> Option<Handler>
    ensures { result ≡ handler_by function.now (data_offset (info_of info.now).header)
        (trailer_of (info_of info.now)) }
{
    match info.trailer() {
        Some(
            UnwindInfoTrailer::ExceptionHandler {
                handler_address,
                ..
            },
        ) => Some(handler_with(function, info.data_offset(), handler_address)),
        Some(
            UnwindInfoTrailer::TerminationHandler {
                handler_address,
                ..
            },
        ) => Some(handler_with(function, info.data_offset(), handler_address)),
        _ => None,
    }
}

// the handler that a function's record names, or the function whose record goes on
fn handler_or_next(
    info: &UnwindInfo<'_>,
    function: &RuntimeFunction,
) -> Result<ControlFlow<Handler, Option<RuntimeFunction>>, FrameFault>
    ensures { naming_end result ≡ naming_by function.now (info_of info.now) }
{
    if !info.names_handler() {
        return Ok(ControlFlow::Continue(info.chained_function()));
    }
    match handler_by(info, function) {
        Some(handler) => Ok(ControlFlow::Break(handler)),
        None => Err(FrameFault::Info(function.unwind_info_address)),
    }
}

// the same of the record of a function, where it can be read
fn handler_at<'m, M: Fn(u32) -> Option<&'m [u8]>>(
    memory_at_rva: &M,
    function: &RuntimeFunction,
) -> Result<ControlFlow<Handler, Option<RuntimeFunction>>, FrameFault>
    requires { M.IsAlwaysCallable memory_at_rva.now }
    ensures { (memory : Option (List ℕ))
        × Gives (M.post memory_at_rva.now) (option_map (λ bytes. bytes.now))
        function.now.unwind_info_address memory
        × (naming_end result
        ≡ naming_of function.now (info_in function.now.unwind_info_address memory)) }
{
    let info = info_at(memory_at_rva, function.unwind_info_address)?;
    handler_or_next(&info, function)
}

// the handler that a record of a function names, its first one or a chained one
fn handler_in<'m, M: Fn(u32) -> Option<&'m [u8]>>(
    memory_at_rva: &M,
    first: Option<RuntimeFunction>,
) -> Result<Option<Handler>, FrameFault>
    requires { M.IsAlwaysCallable memory_at_rva.now }
    ensures { IsHandler (Gives (M.post memory_at_rva.now) (option_map (λ bytes. bytes.now))) first
        result }
{
    let mut next = first;
    for _turn in 0..RECORD_LIMIT {
        let Some(function) = next else {
            return Ok(None);
        };
        match handler_at(memory_at_rva, &function)? {
            ControlFlow::Continue(chained) => next = chained,
            ControlFlow::Break(handler) => return Ok(Some(handler)),
        }
    }
    match next {
        Some(_) => Err(FrameFault::ChainLimit),
        None => Ok(None),
    }
}

/// The handler that a record names, by the record that a look-up has answered, as
/// [`FunctionTableEntries::handler`] gives it, for who needs the record before.
pub fn handler_of_function<'m, M: Fn(u32) -> Option<&'m [u8]>>(
    function: Option<RuntimeFunction>,
    memory_at_rva: M,
) -> Result<Option<Handler>, FrameFault>
    requires { M.IsAlwaysCallable memory_at_rva }

    // Whatever `memory_at_rva` gives at each call.
    ensures handler { IsHandler (Gives (M.post memory_at_rva) (option_map (λ bytes. bytes.now)))
        function result }

    // Where it gives one memory at each address, the answer is determined.
    ensures by_memory { (memory : Image)
        → ((rva : ℕ) (given : Option (List ℕ))
        → Gives (M.post memory_at_rva) (option_map (λ bytes. bytes.now)) rva given
        → given ≡ memory rva)
        → result ≡ handler_of memory function }
{
    handler_in(&memory_at_rva, function)
}

impl<'a> FunctionTableEntries<'a> {
    /// The handler of the function at an address relative to the base of the image: that of the
    /// first of its unwind records that names one, for exceptions or for termination. `Ok(None)`
    /// where a look-up answers no record, and where no record names a handler. `memory_at_rva`
    /// gives the memory of the image from a relative virtual address on.
    ///
    /// Errors: `Memory` and `Info` with the address of the first record that can't be read, `Info`
    /// also where a record names a handler and its bytes are missing, and `ChainLimit` where more
    /// than 32 records follow the first one.
    pub fn handler<'m, M: Fn(u32) -> Option<&'m [u8]>>(
        &self,
        memory_at_rva: M,
        address: u32,
    ) -> Result<Option<Handler>, FrameFault>
        requires { M.IsAlwaysCallable memory_at_rva }

        // Whatever `memory_at_rva` gives at each call.
        ensures handler { IsHandlerAt (Gives (M.post memory_at_rva)
            (option_map (λ bytes. bytes.now)))
            (functions_of (table_bytes self.now)) address result }

        // Where it gives one memory at each address, the answer is determined.
        ensures by_memory { (memory : Image)
            → ((rva : ℕ) (given : Option (List ℕ))
            → Gives (M.post memory_at_rva) (option_map (λ bytes. bytes.now)) rva given
            → given ≡ memory rva)
            → result ≡ handler_of memory (lookup_of (functions_of (table_bytes self.now)) address) }
    {
        handler_in(&memory_at_rva, self.lookup(address))
    }
}
