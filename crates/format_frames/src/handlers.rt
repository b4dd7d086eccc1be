// Where the language table of a function of a PE module stands.
ghost use Rattle.std.specs.Prelude.{◌≡◌};
ghost use Rattle.std.specs.Option.{option_map};
ghost use Rattle.format_definitions.specs.PeImage.{memory_of};
ghost use Rattle.pe_unwind_info.specs.FunctionTable.{table_bytes, functions_of, lookup_of};
ghost use Rattle.pe_unwind_info.specs.Handlers.{handler_of};
ghost use Rattle.format_frames.specs.Handlers.{pe_place, place_seen};
ghost use Rattle.format_frames.specs.Modules.{pe_module};
ghost use Rattle.format_frames.specs.Refusals.{place_due};

use crate::error::FrameError;
use crate::macho::NO_BASES;
use crate::pe::{PeModule, refusal};
use memory_image::MemoryImage;
use pe_unwind_info::x86_64::{
    FrameFault, FunctionTableEntries, Handler, RuntimeFunction, handler_of_function,
};
use unwinding_frames::Place;

// the handler that a record of a function names, of those in an image from a base on
fn handler_of(
    image: &MemoryImage<'_>,
    base: u64,
    function: Option<RuntimeFunction>,
) -> Result<Option<Handler>, FrameFault>
    ensures { result ≡ handler_of (memory_of image.now base) function }
{
    let memory_at_rva = |rva: u32| -> Option<&[u8]>
        ensures { option_map (λ bytes. bytes.now) result ≡ memory_of image.entry.now base rva }
    { image.from(base.wrapping_add(u64::from(rva))) };
    handler_of_function(function, memory_at_rva)
}

/// Where the language table of the function at an address so far from a PE module's base stands: the
/// handler data of the unwind record that names a handler, for exceptions or for termination, with the
/// start of that record's function, and nothing that the table's pointers may be relative to but that
/// start. `None` where no record of the function table covers the address, and where no record of the
/// function names a handler. The handler's routine isn't looked at.
///
/// # Errors
///
/// The first fault: `PeInfo` with the address of a record that can't be read, or that names a handler
/// and whose bytes are missing; `ChainLimit` where more than 32 records follow the first one.
pub fn pe_place(
    image: &MemoryImage<'_>,
    module: &PeModule,
    functions: &FunctionTableEntries<'_>,
    rva: u32,
) -> Result<Option<Place>, FrameError>
    ensures { place_seen result ≡ place_due (pe_module module.now) rva
        (pe_place image.now (pe_module module.now)
        (lookup_of (functions_of (table_bytes functions.now)) rva)) }
{
    match handler_of(image, module.base, functions.lookup(rva)) {
        Ok(Some(handler)) => Ok(Some(Place {
            start: module.base.wrapping_add(u64::from(handler.begin)),
            lsda: module.base.wrapping_add(handler.data_rva),
            bases: NO_BASES,
        })),
        Ok(None) => Ok(None),
        Err(fault) => Err(refusal(module, rva, fault)),
    }
}
