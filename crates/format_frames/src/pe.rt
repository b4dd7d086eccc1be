// The step in a PE module. Microsoft x64 exception handling, unwind procedure.
ghost use Rattle.std.specs.Prelude.{◌≡◌, ◌-◌, ◌<◌, ◌≤◌, ◌^◌};
ghost use Rattle.std.specs.Option.{option_map, ForSome};
ghost use Rattle.memory_image.specs.Image.{word_at};
ghost use Rattle.unwind_arch.specs.ContextViews.{columns_of};
ghost use Rattle.format_definitions.specs.PeImage.{memory_of, first_bytes, table_of};
ghost use Rattle.format_definitions.specs.PeRegisters.{registers_in};
ghost use Rattle.format_definitions.specs.PeStep.{columns_at, pe_step};
ghost use Rattle.pe_unwind_info.specs.FrameOf.{frame_end_of};
ghost use Rattle.pe_unwind_info.specs.FunctionTable.{table_bytes, functions_of, lookup_of};
ghost use Rattle.format_frames.specs.Modules.{pe_module};
ghost use Rattle.format_frames.specs.Refusals.{address_in, frame_given, frame_refusal};
ghost use Rattle.format_frames.specs.Refusals.{functions_given, functions_due, pe_given, pe_due};

use crate::error::FrameError;
use crate::machine::Machine;
use crate::xmm::XmmWrites;
use pe_unwind_info::x86_64::{
    FrameFault, FunctionTableEntries, RuntimeFunction, try_unwind_function,
};
use unwind_arch::x86_64::{Context, RSP};
use unwinding_frames::Window;

/// A PE module of a process.
#[derive(Clone, Copy, Debug, PartialEq, Eq)]
pub struct PeModule {
    /// The address at which the module begins.
    pub base: u64,
    /// How many bytes it has.
    pub size: u32,
    /// Where its function table begins, relative to the base.
    pub table_rva: u32,
    /// How many bytes the function table has.
    pub table_size: u32,
}

impl PeModule {
    // the address that lies so far from the base
    fn address(&self, rva: u32) -> u64
        ensures { result ≡ address_in (pe_module self.now) rva }
    {
        self.base.wrapping_add(u64::from(rva))
    }
}

// a fault of a frame, which stands so far from the module's base, as why it has no caller
pub(crate) fn refusal(module: &PeModule, rva: u32, fault: FrameFault) -> FrameError
    ensures { result ≡ frame_refusal (pe_module module.now) rva fault }
{
    match fault {
        FrameFault::Memory(record_rva) => FrameError::PeInfo(module.address(record_rva)),
        FrameFault::Info(record_rva) => FrameError::PeInfo(module.address(record_rva)),
        FrameFault::EpilogBytes => FrameError::PeInfo(module.address(rva)),
        FrameFault::Stack(address) => FrameError::Unmapped(address),
        FrameFault::ChainLimit => FrameError::ChainLimit,
    }
}

// the bytes of the function table, of those from where it begins to the end of its region
fn table<'a>(module: &PeModule, from: &'a [u8]) -> Option<&'a [u8]>
    ensures { option_map (λ bytes. bytes.now) result
        ≡ first_bytes module.now.table_size from.now }
{
    from.get(..module.table_size as usize)
}

// the function table, of the bytes from where it begins to the end of its region
fn functions_in<'a>(
    module: &PeModule,
    from: &'a [u8],
) -> Result<FunctionTableEntries<'a>, FrameError>
    ensures { functions_given result ≡ functions_due (pe_module module.now)
        (first_bytes module.now.table_size from.now) }
{
    match table(module, from) {
        Some(bytes) => Ok(FunctionTableEntries::parse(bytes)),
        None => Err(FrameError::PeInfo(module.address(module.table_rva))),
    }
}

/// The function table of a PE module. `stack` is a window over the image, which keeps where the table
/// lies.
///
/// # Errors
///
/// `PeInfo` with the address of the table where one region doesn't have all of its bytes.
pub fn pe_functions<'a>(
    stack: &mut Window<'_, 'a>,
    module: &PeModule,
) -> Result<FunctionTableEntries<'a>, FrameError>
    ensures functions { functions_given result ≡ functions_due (pe_module module.now)
        (table_of stack.old (pe_module module.now)) }
    ensures same { stack.new ≡ stack.old }
{
    functions_in(module, stack.tables(module.address(module.table_rva)))
}

// Looks up in the window what the frame that stands so far from the module's base is left by: the code
// there, and the first unwind record of its function.
fn seek_parts(
    stack: &mut Window<'_, '_>,
    module: &PeModule,
    function: Option<RuntimeFunction>,
    rva: u32,
)
    ensures { stack.new ≡ stack.old }
{
    stack.seek_code(module.address(rva));
    if let Some(function) = function {
        stack.seek_records(module.address(function.unwind_info_address));
    }
}

// the caller by the record that a look-up has answered, of the frame that stands so far from the
// module's base
fn caller_by(
    stack: &Window<'_, '_>,
    base: u64,
    function: Option<RuntimeFunction>,
    rva: u32,
    context: &Context,
) -> Result<Context, FrameFault>
    requires { ForSome function (λ function. function.begin_address ≤ rva) }
    ensures { frame_given result ≡ columns_at (columns_of context.now)
        (frame_end_of (memory_of stack.now base) (word_at stack.now) rva function
        (registers_in (columns_of context.now))) }
{
    let mut machine = Machine {
        context: context.copied(),
        xmm_writes: XmmWrites::new(),
        stack,
    };
    let memory_at_rva = |rva: u32| -> Option<&[u8]>
        ensures { option_map (λ bytes. bytes.now) result ≡ memory_of stack.entry.now base rva }
    { stack.from(base.wrapping_add(u64::from(rva))) };
    let ra = try_unwind_function(function, &mut machine, memory_at_rva, rva)?;
    Ok(Context {
        registers: machine.context.registers,
        ra,
        ..*context
    })
}

/// The caller of the frame that stands so far from the base of a PE module, and whose registers
/// `context` holds, by the module's function table. At an address that no record of it covers
/// stands a leaf. What the frame has of XMM registers isn't kept.
///
/// `stack` is a window over the image. It is moved to the frame unless it is there, so who goes from
/// frame to frame keeps it, and looks up the stack's region once.
///
/// # Errors
///
/// Those of [`pe_step`] but that of the function table.
pub fn pe_caller(
    stack: &mut Window<'_, '_>,
    module: &PeModule,
    functions: &FunctionTableEntries<'_>,
    rva: u32,
    context: &Context,
) -> Result<Context, FrameError>
    ensures caller { pe_given result ≡ pe_due (pe_module module.now) rva
        (columns_at (columns_of context.now)
        (frame_end_of (memory_of stack.old module.now.base) (word_at stack.old) rva
        (lookup_of (functions_of (table_bytes functions.now)) rva)
        (registers_in (columns_of context.now)))) }
    ensures same { stack.new ≡ stack.old }
{
    // What a frame saves stands at its stack pointer or above.
    stack.seek(context.registers[RSP]);
    let function = functions.lookup(rva);
    seek_parts(stack, module, function, rva);
    match caller_by(stack, module.base, function, rva, context) {
        Ok(caller) => Ok(caller),
        Err(fault) => Err(refusal(module, rva, fault)),
    }
}

/// The caller of the frame at `address`, in a PE module, whose registers `context` holds. At an
/// address that no record of the function table covers stands a leaf. What the frame has of XMM
/// registers isn't kept. `stack` is a window over the image, as [`pe_caller`] has it.
///
/// # Errors
///
/// The first fault: `PeInfo` with the address of the function table, where one region doesn't have
/// all of its bytes, of a first or chained unwind record that can't be read, or of the frame, where
/// the code from there to the function's end has to be tested for an epilog and isn't all there;
/// `ChainLimit` where more than 32 records follow one another; `Unmapped` with the address of a
/// word of the stack that isn't wholly mapped.
pub fn pe_step(
    stack: &mut Window<'_, '_>,
    module: &PeModule,
    address: u64,
    context: &Context,
) -> Result<Context, FrameError>
    requires from { module.now.base ≤ address }
    requires near { address - module.now.base < 2 ^ 32 }
    ensures step { pe_given result ≡ pe_due (pe_module module.now) (address - module.now.base)
        (pe_step stack.old (pe_module module.now) (address - module.now.base)
        (columns_of context.now)) }
    ensures same { stack.new ≡ stack.old }
{
    let functions = pe_functions(stack, module)?;
    let rva = (address - module.base) as u32;
    pe_caller(stack, module, &functions, rva, context)
}
