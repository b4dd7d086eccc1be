// From a frame to its caller, by an opcode of compact unwinding. Apple's compact unwinding,
// mach-o/compact_unwind_encoding.h, x86-64 modes.
ghost use Rattle.std.specs.Prelude.{◌≡◌, ◌<◌, ◌/◌, false, map, slice_index, take};
ghost use Rattle.std.specs.List.{filter_map};
ghost use Rattle.unwind_definitions.specs.Caller.{◌+w◌, word_or_fault};
ghost use Rattle.unwind_definitions.specs.Columns.{ra, rbp, rsp};
ghost use Rattle.unwind_definitions.specs.DescribedRows.{negative};
ghost use Rattle.unwind_definitions.specs.HeaderSearch.{fde_at};
ghost use Rattle.unwind_definitions.specs.LanguageTable.{input_at};
ghost use Rattle.unwind_definitions.specs.Row.{row_at};
ghost use Rattle.unwind_definitions.specs.State.{column_of};
ghost use Rattle.unwind_arch.specs.ContextViews.{columns_of};
ghost use Rattle.fde_finders.specs.FoundViews.{found_fde_of};
ghost use Rattle.memory_image.specs.Results.{result_map};
ghost use Rattle.unwinding_frames.specs.Calling.{value_given, columns_given, written_in};
ghost use Rattle.format_definitions.specs.CompactStep.{saved_as, saved_in, fields_up};
ghost use Rattle.format_definitions.specs.CompactStep.{registers_back, with_column, half_or_fault};
ghost use Rattle.format_definitions.specs.CompactStep.{read_up, read_down, by_frame, by_cfa};
ghost use Rattle.format_definitions.specs.CompactStep.{by_description, frame_bases, opcode_step};
ghost use Rattle.format_definitions.specs.CompactStep.{compact_step};
ghost use Rattle.format_frames.specs.Callers.{frame_left, field_read, size_in_code};
ghost use Rattle.format_frames.specs.Callers.{faulting, caller_by_row, description_given};
ghost use Rattle.format_frames.specs.Callers.{stepped_given, opcode_given, listed_read};
ghost use Rattle.format_frames.specs.Callers.{listed_given};
ghost use Rattle.format_frames.specs.FrameData.{description_in};

use crate::machine::Stepped;
use eh_frame::{Bases, EhFrame, Error, RowRoom};
use fde_finders::FDESearchResult;
use macho_unwind_info::opcodes::{OpcodeX86_64, RegisterNameX86_64};
use memory_image::MemoryImage;
use unwind_arch::x86_64::{Arch, Context, R12, R13, R14, R15, RBP, RBX, RSP};
use unwinding_frames::{StepError, Window, step_by_row};

// Where the registers that an opcode can name stand among a context's. A look-up here is faster than
// a branch to a store for each of them.
static COLUMNS: [usize; 6] = [RBX, R12, R13, R14, R15, RBP];

// a register's place among those that an opcode can name
fn place(register: RegisterNameX86_64) -> usize
    ensures is { slice_index COLUMNS result ≡ column_of (saved_as register) }
    ensures fits { slice_index COLUMNS result < 16 }
    ensures below { result < 6 }
{
    match register {
        RegisterNameX86_64::Rbx => 0,
        RegisterNameX86_64::R12 => 1,
        RegisterNameX86_64::R13 => 2,
        RegisterNameX86_64::R14 => 3,
        RegisterNameX86_64::R15 => 4,
        RegisterNameX86_64::Rbp => 5,
    }
}

// a register's place among a context's
fn column(register: RegisterNameX86_64) -> usize
    ensures is { result ≡ column_of (saved_as register) }
    ensures fits { result < 16 }
{
    COLUMNS[place(register)]
}

// gives a general register, by its column, another value
#[tactic(auto, using(crate::proofs::Written::register_columns))]
fn write(context: &mut Context, column: usize, value: u64)
    requires { column < 16 }
    ensures { columns_of context.new ≡ with_column (columns_of context.old) column value }
{
    context.registers[column] = value;
}

// gives the return address another value
fn write_return(context: &mut Context, value: u64)
    ensures { columns_of context.new ≡ with_column (columns_of context.old) ra value }
{
    context.ra = value;
}

// the word at an address that isn't in a window, which has to be mapped
#[cold]
#[inline(never)]
fn far_word_at(image: &MemoryImage<'_>, address: u64) -> Result<u64, StepError>
    ensures { value_given result ≡ word_or_fault image.now address }
{
    match image.read_u64(address) {
        Some(word) => Ok(word),
        None => Err(StepError::Unmapped(address)),
    }
}

// the word of the stack at an address, which has to be mapped
fn word_at(stack: &Window<'_, '_>, address: u64) -> Result<u64, StepError>
    ensures { value_given result ≡ word_or_fault stack.now address }
{
    match stack.read_u64(address) {
        Some(word) => Ok(word),
        None => far_word_at(stack.image(), address),
    }
}

// the number of the four bytes at an address, which have to be mapped
fn half_at(image: &MemoryImage<'_>, address: u64) -> Result<u32, StepError>
    ensures { value_given result ≡ half_or_fault image.now address }
{
    match image.read_u32(address) {
        Some(number) => Ok(number),
        None => Err(StepError::Unmapped(address)),
    }
}

// the fields of an opcode from the lowest up
fn fields_up(fields: &[Option<RegisterNameX86_64>; 5]) -> [Option<RegisterNameX86_64>; 5]
    ensures { map saved_in result ≡ fields_up fields.now }
{
    let [fifth, fourth, third, second, first] = *fields;
    [first, second, third, fourth, fifth]
}

// the registers that an opcode lists, from the last back
fn registers_back(registers: &[Option<RegisterNameX86_64>; 6]) -> [Option<RegisterNameX86_64>; 6]
    ensures { filter_map saved_in result ≡ registers_back registers.now }
{
    let [first, second, third, fourth, fifth, sixth] = *registers;
    [sixth, fifth, fourth, third, second, first]
}

// the first fields, at most so many
fn first_fields(
    fields: &[Option<RegisterNameX86_64>; 5],
    count: u16,
) -> &[Option<RegisterNameX86_64>]
    ensures { result.now ≡ take count fields.now }
{
    if count < 5 {
        &fields[..usize::from(count)]
    } else {
        fields
    }
}

// Reads the register that a field names, if it names one, from the word at an address. After a
// fault the registers are unspecified.
fn read_field(
    stack: &Window<'_, '_>,
    address: u64,
    field: Option<RegisterNameX86_64>,
    caller: &mut Context,
) -> Result<(), StepError>
    ensures { columns_given columns_of (written_in result caller.new)
        ≡ field_read stack.now address (saved_in field) (columns_of caller.old) }
{
    if let Some(register) = field {
        let value = word_at(stack, address)?;
        write(caller, column(register), value);
    }
    Ok(())
}

// Reads registers from words upwards, the first at an address; a field without a register is
// passed. After a fault the registers are unspecified.
fn read_up(
    stack: &Window<'_, '_>,
    address: u64,
    fields: &[Option<RegisterNameX86_64>],
    caller: &mut Context,
) -> Result<(), StepError>
    ensures { columns_given columns_of (written_in result caller.new)
        ≡ read_up stack.now address (map saved_in fields.now) (columns_of caller.old) }
{
    let mut place = address;
    for field in fields {
        read_field(stack, place, *field, caller)?;
        place = place.wrapping_add(8);
    }
    Ok(())
}

// Reads a register that is listed, if one is, from the word at an address. Answers where the next one
// stands. After a fault the registers are unspecified.
#[inline(always)]
fn read_listed(
    stack: &Window<'_, '_>,
    address: u64,
    listed: Option<RegisterNameX86_64>,
    caller: &mut Context,
) -> Result<u64, StepError>
    ensures { listed_given result caller.new
        ≡ listed_read stack.now address (saved_in listed) (columns_of caller.old) }
{
    match listed {
        Some(register) => {
            let value = word_at(stack, address)?;
            write(caller, column(register), value);
            Ok(address.wrapping_sub(8))
        }
        None => Ok(address),
    }
}

// Reads registers from words downwards, the first at an address. After a fault the registers are
// unspecified.
#[inline(always)]
fn read_down(
    stack: &Window<'_, '_>,
    address: u64,
    registers: &[Option<RegisterNameX86_64>],
    caller: &mut Context,
) -> Result<(), StepError>
    ensures { columns_given columns_of (written_in result caller.new)
        ≡ read_down stack.now address (filter_map saved_in registers.now) (columns_of caller.old) }
{
    let mut place = address;
    for listed in registers {
        place = read_listed(stack, place, *listed, caller)?;
    }
    Ok(())
}

// Reads the registers of the fields that lie below the word at RBP, as many as fit in `offset`
// bytes, from so far below it upwards. After a fault the registers are unspecified.
#[tactic(auto, using(crate::proofs::Fields::first_named))]
fn read_fields(
    stack: &Window<'_, '_>,
    rbp: u64,
    offset: u16,
    fields: &[Option<RegisterNameX86_64>; 5],
    caller: &mut Context,
) -> Result<(), StepError>
    ensures { columns_given columns_of (written_in result caller.new)
        ≡ read_up stack.now (rbp +w negative offset) (take (offset / 8) (fields_up fields.now))
        (columns_of caller.old) }
{
    let up = fields_up(fields);
    let lowest = rbp.wrapping_sub(u64::from(offset));
    read_up(stack, lowest, first_fields(&up, offset / 8), caller)
}

// Leaves a frame whose frame pointer is the word at RBP: that word is the caller's RBP, and the
// return address stands above it. After a fault the registers are unspecified.
fn leave_frame(stack: &Window<'_, '_>, rbp: u64, caller: &mut Context) -> Result<(), StepError>
    ensures { columns_given columns_of (written_in result caller.new)
        ≡ frame_left stack.now rbp (columns_of caller.old) }
{
    let saved = word_at(stack, rbp)?;
    let return_address = word_at(stack, rbp.wrapping_add(8))?;
    write(caller, RBP, saved);
    write(caller, RSP, rbp.wrapping_add(16));
    write_return(caller, return_address);
    Ok(())
}

// Leaves a frame with a frame pointer: the fields lie `offset` bytes below the word at RBP. After a
// fault the registers are unspecified.
fn by_frame(
    stack: &Window<'_, '_>,
    offset: u16,
    fields: &[Option<RegisterNameX86_64>; 5],
    caller: &mut Context,
) -> Result<(), StepError>
    ensures { columns_given columns_of (written_in result caller.new)
        ≡ by_frame stack.now offset (fields_up fields.now)
        (columns_of caller.old) (slice_index caller.old.registers rbp) }
{
    let rbp = caller.registers[RBP];
    read_fields(stack, rbp, offset, fields, caller)?;
    leave_frame(stack, rbp, caller)
}

// Leaves a frame without a frame pointer, by its canonical frame address: the return address is just
// below it, and below that the registers from the last back. After a fault the registers are
// unspecified.
#[inline(always)]
fn by_cfa(
    stack: &Window<'_, '_>,
    registers: &[Option<RegisterNameX86_64>; 6],
    caller: &mut Context,
    cfa: u64,
) -> Result<(), StepError>
    ensures { columns_given columns_of (written_in result caller.new)
        ≡ by_cfa stack.now (registers_back registers.now) (columns_of caller.old) cfa }
{
    let return_address = word_at(stack, cfa.wrapping_sub(8))?;
    write(caller, RSP, cfa);
    write_return(caller, return_address);
    read_down(
        stack,
        cfa.wrapping_sub(16),
        &registers_back(registers),
        caller,
    )
}

/// The description at an offset of the frame data at an address, whose pointers are relative to their
/// place or to the frame data.
pub(crate) fn description_in<'a>(
    image: &MemoryImage<'a>,
    frames: u64,
    offset: u32,
) -> Result<FDESearchResult<'a>, Error>
    ensures { result_map found_fde_of result ≡ description_in image.now frames offset }
{
    let eh_frame = EhFrame::new(image.bytes_from(frames), frames);
    let bases = Bases {
        frame: Some(frames),
        ..Bases::default()
    };
    let fde = eh_frame.fde_at(&bases, u64::from(offset))?;
    Ok(FDESearchResult {
        fde,
        bases,
        eh_frame,
    })
}

// the same, where its fault is a step's
fn found_in<'a>(
    image: &MemoryImage<'a>,
    frames: u64,
    offset: u32,
) -> Result<FDESearchResult<'a>, StepError>
    ensures { description_given result ≡ faulting (description_in image.now frames offset) }
{
    Ok(description_in(image, frames, offset)?)
}

// the caller of a frame at an address, by a description's row there, which is made in `rows`
fn by_row<'a>(
    image: &MemoryImage<'a>,
    found: &FDESearchResult<'a>,
    address: u64,
    context: &Context,
    rows: &mut RowRoom<'a>,
) -> Result<Context, StepError>
    ensures { columns_given columns_of result ≡ caller_by_row image.now (columns_of context.now)
        (row_at (found_fde_of found.now).bases (found_fde_of found.now).fde address) }
{
    found.make_row(address, rows)?;
    let mut caller = context.copied();
    step_by_row::<Arch>(image, &mut caller, &rows.row())?;
    Ok(caller)
}

// the caller of a frame at an address, by the description at an offset of the frame data
fn by_frame_data<'a>(
    image: &MemoryImage<'a>,
    frames: u64,
    offset: u32,
    address: u64,
    context: &Context,
    rows: &mut RowRoom<'a>,
) -> Result<Stepped, StepError>
    ensures { stepped_given result
        ≡ by_description image.now frames address (columns_of context.now)
        (fde_at (frame_bases frames) (input_at image.now frames) offset) }
{
    let found = found_in(image, frames, offset)?;
    let context = by_row(image, &found, address, context, rows)?;
    Ok(Stepped {
        context,
        signal: found.fde.is_signal_trampoline(),
    })
}

// the size of a frame that stands in the code of its function, with what is added to it
fn indirect_size(
    image: &MemoryImage<'_>,
    start: u64,
    offset: u8,
    adjust: u8,
) -> Result<u64, StepError>
    ensures { value_given result ≡ size_in_code image.now (start +w offset) adjust }
{
    let size = half_at(image, start.wrapping_add(u64::from(offset)))?;
    Ok(u64::from(adjust) + u64::from(size))
}

// Leaves a frame by the canonical frame address that is so far above the stack pointer. After a fault
// the registers are unspecified.
#[inline(always)]
fn by_size(
    stack: &Window<'_, '_>,
    registers: &[Option<RegisterNameX86_64>; 6],
    caller: &mut Context,
    size: u64,
) -> Result<(), StepError>
    ensures { columns_given columns_of (written_in result caller.new)
        ≡ by_cfa stack.now (registers_back registers.now) (columns_of caller.old)
        (slice_index caller.old.registers rsp +w size) }
{
    let cfa = caller.registers[RSP].wrapping_add(size);
    by_cfa(stack, registers, caller, cfa)
}

// a caller that stands after a call
fn after_call(context: Context) -> Stepped
    ensures { result ≡ record { context = context; signal = false } }
{
    Stepped {
        context,
        signal: false,
    }
}

/// The caller of the frame whose registers `context` holds, by the opcode of its function alone.
///
/// The function begins at `start`. `None` where the opcode gives no caller: it points to frame data,
/// or is null, invalid or of an unknown kind.
///
/// `stack` is a window over the image. It is moved to the frame unless it is there, so who goes from
/// frame to frame keeps it, and looks up the stack's region once.
///
/// # Errors
///
/// The first fault: `Unmapped` with the address of a slot of the stack, or of the size in the
/// function's code, that isn't wholly mapped.
pub fn opcode_step(
    stack: &mut Window<'_, '_>,
    start: u64,
    context: &Context,
    opcode: &OpcodeX86_64,
) -> Result<Option<Stepped>, StepError>
    ensures step { opcode_given result
        ≡ opcode_step stack.old start (columns_of context.now) opcode.now }
    ensures same { stack.new ≡ stack.old }
{
    // What a frame saves stands at its stack pointer or above.
    stack.seek(context.registers[RSP]);
    let mut caller = context.copied();
    match opcode {
        OpcodeX86_64::FrameBased {
            stack_offset_in_bytes,
            saved_regs,
        } => by_frame(stack, *stack_offset_in_bytes, saved_regs, &mut caller)?,
        OpcodeX86_64::FramelessImmediate {
            stack_size_in_bytes,
            saved_regs,
        } => {
            let size = u64::from(*stack_size_in_bytes);
            by_size(stack, saved_regs, &mut caller, size)?;
        }
        OpcodeX86_64::FramelessIndirect {
            immediate_offset_from_function_start,
            stack_adjust_in_bytes,
            saved_regs,
        } => {
            let offset = *immediate_offset_from_function_start;
            let size = indirect_size(stack.image(), start, offset, *stack_adjust_in_bytes)?;
            by_size(stack, saved_regs, &mut caller, size)?;
        }
        OpcodeX86_64::Dwarf { .. }
        | OpcodeX86_64::Null
        | OpcodeX86_64::InvalidFrameless
        | OpcodeX86_64::UnrecognizedKind(_) => return Ok(None),
    }
    Ok(Some(after_call(caller)))
}

/// The caller of the frame whose registers `context` holds, by the opcode of its function.
///
/// The frame stands at `address`, its function begins at `start`, and `frames` is the address of
/// the frame data that the opcode may point to, where it was handed in. A row that it asks for is
/// made in `rows`. `None` where the opcode gives no caller: it is null, invalid or of an unknown
/// kind, or asks for frame data that there is not. `stack` is a window over the image, as
/// [`opcode_step`] has it.
///
/// # Errors
///
/// The first fault: those of [`opcode_step`]; of an opcode that points to frame data `Table` where
/// the description can't be read, its row can't be made, or a register isn't the machine's, and
/// `Unmapped` where what the row reads isn't wholly mapped.
pub fn compact_step<'a>(
    stack: &mut Window<'_, 'a>,
    frames: Option<u64>,
    start: u64,
    address: u64,
    context: &Context,
    opcode: &OpcodeX86_64,
    rows: &mut RowRoom<'a>,
) -> Result<Option<Stepped>, StepError>
    ensures step { opcode_given result
        ≡ compact_step stack.old frames start address (columns_of context.now) opcode.now }
    ensures same { stack.new ≡ stack.old }
{
    match opcode {
        OpcodeX86_64::Dwarf { eh_frame_fde } => {
            let Some(frames) = frames else {
                return Ok(None);
            };
            let offset = *eh_frame_fde;
            let stepped = by_frame_data(stack.image(), frames, offset, address, context, rows)?;
            Ok(Some(stepped))
        }
        OpcodeX86_64::Null
        | OpcodeX86_64::FrameBased { .. }
        | OpcodeX86_64::FramelessImmediate { .. }
        | OpcodeX86_64::FramelessIndirect { .. }
        | OpcodeX86_64::InvalidFrameless
        | OpcodeX86_64::UnrecognizedKind(_) => opcode_step(stack, start, context, opcode),
    }
}
