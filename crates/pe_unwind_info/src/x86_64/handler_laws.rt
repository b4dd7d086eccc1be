//! Laws of the handlers that unwind records name, and samples. Nothing of it runs.
ghost use Rattle.std.specs.Prelude.{◌≡◌, ◌⊎◌, ◌↔◌, ℕ, List, Option, Some, None, Ok, Err, drop};
ghost use Rattle.pe_unwind_info.specs.Chain.{chain_of};
ghost use Rattle.pe_unwind_info.specs.Epilog.{result_map};
ghost use Rattle.pe_unwind_info.specs.FrameOf.{Image};
ghost use Rattle.pe_unwind_info.specs.HandlerData.{data_offset};
ghost use Rattle.pe_unwind_info.specs.HandlerSample.{naming_function, chained_function};
ghost use Rattle.pe_unwind_info.specs.HandlerSample.{memory_up_to, sample_handler};
ghost use Rattle.pe_unwind_info.specs.Handlers.{handler_of, records_of, infos_of, NamesNone};
ghost use Rattle.pe_unwind_info.specs.Handlers.{HasHandler, HasFault};
ghost use Rattle.pe_unwind_info.specs.Info.{Info, parsed_info, trailer_of, OnException};
ghost use Rattle.pe_unwind_info.specs.Info.{OnTermination};
ghost use Rattle.pe_unwind_info.specs.declared.x86_64.fault.FrameFault.{FrameFault};
ghost use Rattle.pe_unwind_info.specs.declared.x86_64.fault.FrameFault.TheVariants as faults;
ghost use Rattle.pe_unwind_info.specs.declared.x86_64.function_table.RuntimeFunction.{RuntimeFunction};
ghost use Rattle.pe_unwind_info.specs.declared.x86_64.handler.Handler.{Handler};

/// When a function has a handler, none, or a fault.
pub fn handlers_have_causes()
    ensures some { (memory : Image) (function : Option RuntimeFunction) (handler : Handler)
        → (handler_of memory function ≡ Ok (Some handler)) ↔ HasHandler memory function handler }
    ensures none { (memory : Image) (function : Option RuntimeFunction)
        → (handler_of memory function ≡ Ok None) ↔ NamesNone memory function }
    ensures fault { (memory : Image) (function : Option RuntimeFunction) (fault : FrameFault)
        → (handler_of memory function ≡ Err fault) ↔ HasFault memory function fault }
{}

/// The records among which a handler is looked for are those by which a frame is unwound.
pub fn records_are_the_chain()
    ensures { (memory : Image) (n : ℕ) (function : Option RuntimeFunction)
        → chain_of memory n function ≡ result_map infos_of (records_of memory n function) }
{}

/// The handler's data of a record stands so far from the record's start.
pub fn handler_data_stands_at_its_offset()
    ensures { (bytes : List ℕ) (info : Info) (address : ℕ) (after : List ℕ)
        → parsed_info bytes ≡ Some info
        → (trailer_of info ≡ Some (OnException address after))
        ⊎ (trailer_of info ≡ Some (OnTermination address after))
        → drop (data_offset info.header) bytes ≡ after }
{}

/// A function whose record names a handler, and one whose record goes on with that of the first:
/// both have the handler with the begin of the first. Where the record's last bytes are missing,
/// there is a fault.
pub fn functions_with_a_handler()
    ensures own { handler_of (memory_up_to 17) (Some naming_function) ≡ Ok (Some sample_handler) }
    ensures chained { handler_of (memory_up_to 17) (Some chained_function)
        ≡ Ok (Some sample_handler) }
    ensures cut { handler_of (memory_up_to 6) (Some naming_function) ≡ Err (faults.Info 0x2010) }
{}
