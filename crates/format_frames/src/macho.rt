// The step in a Mach-O module.
ghost use Rattle.std.specs.Prelude.{◌≡◌, ◌-◌, ◌<◌, ◌≤◌, ◌^◌};
ghost use Rattle.unwind_arch.specs.ContextViews.{columns_of};
ghost use Rattle.format_definitions.specs.CompactStep.{macho_step};
ghost use Rattle.macho_unwind_info.specs.Listing.{section_of};
ghost use Rattle.format_frames.specs.FrameData.{description_of, description_seen};
ghost use Rattle.format_definitions.specs.MachoModules.{personality_index};
ghost use Rattle.format_frames.specs.Handlers.{offset_in, macho_place, place_seen};
ghost use Rattle.format_frames.specs.Modules.{macho_module};
ghost use Rattle.format_frames.specs.Refusals.{looked_up, function_at, caller_given, caller_due};
ghost use Rattle.format_frames.specs.Refusals.{caller_due_at};
ghost use Rattle.format_frames.specs.Refusals.{macho_given, macho_due};

use crate::compact::{compact_step, description_in, opcode_step};
use crate::error::FrameError;
use crate::machine::Stepped;
use eh_frame::{Bases, Error, RowRoom};
use fde_finders::FDESearchResult;
use macho_unwind_info::opcodes::{OpcodeBitfield, OpcodeX86_64};
use macho_unwind_info::{Function, ReadError, UnwindInfo};
use memory_image::MemoryImage;
use unwind_arch::x86_64::Context;
use unwinding_frames::{Place, Window};

/// A Mach-O module of a process, by addresses in its memory.
#[derive(Clone, Copy, Debug, PartialEq, Eq)]
pub struct MachoModule {
    /// Where the module begins.
    pub base: u64,
    /// How many bytes it has.
    pub size: u32,
    /// Where its section of compact unwinding begins.
    pub unwind_info: u64,
    /// Where its frame data begins, which opcodes may point to, where there is some.
    pub frames: Option<u64>,
}

// the function at an address so far from the module's base, of the bytes from where its section of
// compact unwinding begins to the end of its region
fn function_in(section: &[u8], rva: u32) -> Result<Option<Function>, macho_unwind_info::Error>
    ensures { result ≡ looked_up rva (section_of section.now) }
{
    UnwindInfo::parse(section)?.lookup(rva)
}

/// The function that a Mach-O module has at an address so far from its base, by its section of
/// compact unwinding. `None` where it has none there. `stack` is a window over the image, which keeps
/// where the section lies.
///
/// # Errors
///
/// Where the section, or what the look-up comes to, can't be read.
pub fn macho_function(
    stack: &mut Window<'_, '_>,
    module: &MachoModule,
    rva: u32,
) -> Result<Option<Function>, macho_unwind_info::Error>
    ensures function { result ≡ function_at stack.old (macho_module module.now) rva }
    ensures same { stack.new ≡ stack.old }
{
    function_in(stack.tables(module.unwind_info), rva)
}

/// The description in the frame data of a Mach-O module to which the opcode of a function points.
/// `None` where the opcode points to none, or the module's frame data wasn't handed in. Whether the
/// description contains an address is for who asks to find out, by its row.
///
/// # Errors
///
/// Why the description can't be read.
pub fn macho_description<'a>(
    image: &MemoryImage<'a>,
    module: &MachoModule,
    function: &Function,
) -> Result<Option<FDESearchResult<'a>>, Error>
    ensures { description_seen result ≡ description_of image.now (macho_module module.now)
        function.now }
{
    let Some(frames) = module.frames else {
        return Ok(None);
    };
    match OpcodeX86_64::parse(function.opcode) {
        OpcodeX86_64::Dwarf { eh_frame_fde } => Ok(Some(description_in(
            image,
            frames,
            eh_frame_fde,
        )?)),
        _ => Ok(None),
    }
}

/// Where the language table of a function of a Mach-O module stands: the function's start and the
/// table's address, both moved by the module's base, and nothing that the table's pointers may be
/// relative to but the function. `None` where the function's opcode names no personality, and then
/// nothing is read; and where it has no language table, since bit 30 of the opcode is clear or the
/// section lists none for its start. The routine of the personality isn't looked at.
///
/// # Errors
///
/// `Personalities` where the section's personalities can't be read, or don't have the one that the
/// opcode names; `Lsda` as [`UnwindInfo::lsda_of`] has it. Where the section itself can't be read,
/// those of [`UnwindInfo::parse`].
pub fn macho_place(
    image: &MemoryImage<'_>,
    module: &MachoModule,
    function: &Function,
) -> Result<Option<Place>, macho_unwind_info::Error>
    ensures { place_seen result ≡ macho_place image.now (macho_module module.now) function.now }
{
    let index = OpcodeBitfield::new(function.opcode).personality_index();
    if index == 0 {
        return Ok(None);
    }
    match language_offset(image.bytes_from(module.unwind_info), function, index)? {
        Some(offset) => Ok(Some(Place {
            start: module.base.wrapping_add(u64::from(function.start_address)),
            lsda: module.base.wrapping_add(u64::from(offset)),
            bases: NO_BASES,
        })),
        None => Ok(None),
    }
}

// the offset of the language table of a function whose opcode names a personality, by a section
fn language_offset(
    section: &[u8],
    function: &Function,
    index: u8,
) -> Result<Option<u32>, macho_unwind_info::Error>
    requires { index ≡ personality_index function.now.opcode }
    ensures { result ≡ offset_in function.now section.now }
{
    let info = UnwindInfo::parse(section)?;
    if usize::from(index) > info.personalities()?.len() {
        return Err(macho_unwind_info::Error::ReadError(ReadError::Personalities));
    }
    info.lsda_of(function)
}

// what a table's pointers may be relative to, where nothing but its function is known
pub(crate) const NO_BASES: Bases = Bases {
    text: None,
    data_base: None,
    func: None,
    hdr: None,
    frame: None,
};

/// The caller of a frame in a function of a Mach-O module, whose registers `context` holds, by the
/// opcode of the function alone. `stack` is a window over the image, as [`opcode_step`] has it.
///
/// # Errors
///
/// `CompactForm` where the opcode gives no caller, also where it points to frame data; `Unmapped` as
/// [`opcode_step`] has it.
pub fn macho_caller(
    stack: &mut Window<'_, '_>,
    module: &MachoModule,
    function: &Function,
    context: &Context,
) -> Result<Stepped, FrameError>
    ensures caller { caller_given result ≡ caller_due stack.old (macho_module module.now)
        (columns_of context.now) function.now }
    ensures same { stack.new ≡ stack.old }
{
    let start = module.base.wrapping_add(u64::from(function.start_address));
    let opcode = OpcodeX86_64::parse(function.opcode);
    match opcode_step(stack, start, context, &opcode)? {
        Some(stepped) => Ok(stepped),
        None => Err(FrameError::CompactForm),
    }
}

// the same at an address, where the opcode may point to frame data
fn caller_at<'a>(
    stack: &mut Window<'_, 'a>,
    module: &MachoModule,
    function: &Function,
    address: u64,
    context: &Context,
    rows: &mut RowRoom<'a>,
) -> Result<Stepped, FrameError>
    ensures caller { caller_given result ≡ caller_due_at stack.old (macho_module module.now) address
        (columns_of context.now) function.now }
    ensures same { stack.new ≡ stack.old }
{
    let start = module.base.wrapping_add(u64::from(function.start_address));
    let opcode = OpcodeX86_64::parse(function.opcode);
    match compact_step(stack, module.frames, start, address, context, &opcode, rows)? {
        Some(stepped) => Ok(stepped),
        None => Err(FrameError::CompactForm),
    }
}

/// The caller of the frame at `address`, in a Mach-O module, whose registers `context` holds.
/// `None` where the section of compact unwinding has no function there: the stack ends.
///
/// The opcode is that of the function that a look-up answers. A row that it asks for is made in
/// `rows`, and `stack` is a window over the image, as [`compact_step`] has it.
///
/// # Errors
///
/// - `MachO` where the section, or what the look-up comes to, can't be read;
/// - `CompactForm` where the opcode gives no caller;
/// - `Unmapped` and `Table` as [`compact_step`] has them.
pub fn macho_step<'a>(
    stack: &mut Window<'_, 'a>,
    module: &MachoModule,
    address: u64,
    context: &Context,
    rows: &mut RowRoom<'a>,
) -> Result<Option<Stepped>, FrameError>
    requires from { module.now.base ≤ address }
    requires near { address - module.now.base < 2 ^ 32 }
    ensures step { macho_given result ≡ macho_due (macho_step stack.old (macho_module module.now)
        (address - module.now.base) (columns_of context.now)) }
    ensures same { stack.new ≡ stack.old }
{
    match macho_function(stack, module, (address - module.base) as u32)? {
        Some(function) => {
            let stepped = caller_at(stack, module, &function, address, context, rows)?;
            Ok(Some(stepped))
        }
        None => Ok(None),
    }
}
