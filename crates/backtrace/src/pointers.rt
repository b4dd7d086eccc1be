// The caller of a frame by its frame pointer, where no table says it.
ghost use Rattle.std.specs.Prelude.{◌≡◌, ◌-◌, ◌%◌, ◌^◌, ◌<◌, false, IfSome, IsSomeAnd, IsTrue};
ghost use Rattle.std.specs.Prelude.{slice_index};
ghost use Rattle.unwind_definitions.specs.Columns as column;
ghost use Rattle.unwind_definitions.specs.State.{State, IsState, Shows, KeepsOthers};
ghost use Rattle.unwind_definitions.specs.Entered.{IsEntered};
ghost use Rattle.unwind_arch.specs.ContextViews.{columns_of};
ghost use Rattle.backtrace.specs.FramePointers.{caller_by_pointer, frame_pointer_of};
ghost use Rattle.backtrace.specs.FramePointers.{frame_pointer_steps, if_called, is_called_code};
ghost use Rattle.backtrace.specs.FramePointers.{is_without_table, pointed_caller};
ghost use Rattle.backtrace.specs.FramePointers.{popped_by, returned_by};

use crate::code::CodeRanges;
use memory_image::MemoryImage;
use stack_deliver::{Context, EndReason, Space};
use unwind_arch::x86_64::{RBP, RSP};

/// The address in RBP, where it may be a frame pointer.
fn frame_pointer_of(callee: &Context) -> Option<u64>
    ensures exact { result ≡ frame_pointer_of callee.now }
    ensures below { IfSome result (λ pointer. pointer < 2 ^ 64 - 16) }
{
    let stack = callee.registers[RSP];
    let pointer = callee.registers[RBP];
    if stack <= pointer && pointer % 8 == 0 && pointer < u64::MAX - 15 {
        Some(pointer)
    } else {
        None
    }
}

/// The registers after a return that pops both words at a frame pointer.
fn returned_by(callee: &Context, pointer: u64, outer: u64, back: u64) -> Context
    requires { pointer < 2 ^ 64 - 16 }
    ensures { result ≡ returned_by callee.now pointer outer back }
{
    let mut caller = *callee;
    caller.registers[RSP] = pointer + 16;
    caller.registers[RBP] = outer;
    caller.ra = back;
    caller
}

/// The caller by the two words at a frame pointer, where both are mapped.
fn popped_by(image: &MemoryImage<'_>, callee: &Context, pointer: u64) -> Option<Context>
    requires { pointer < 2 ^ 64 - 16 }
    ensures { result ≡ popped_by image.now callee.now pointer }
{
    let outer = image.read_u64(pointer)?;
    let back = image.read_u64(pointer + 8)?;
    Some(returned_by(callee, pointer, outer, back))
}

/// The caller by the frame pointer. `None` where RBP isn't a whole number of words at the stack
/// pointer or above it, or a word there isn't mapped.
fn pointed_caller(image: &MemoryImage<'_>, callee: &Context) -> Option<Context>
    ensures { result ≡ pointed_caller image.now callee.now }
{
    let pointer = frame_pointer_of(callee)?;
    popped_by(image, callee, pointer)
}

/// Whether the byte before a return address lies in code: of a module, or without a table.
fn is_called_code(space: &Space<'_>, code: &CodeRanges, return_address: u64) -> bool
    ensures { result ≡ is_called_code space.now code.now return_address }
{
    let inside = return_address.wrapping_sub(1);
    0 < return_address && (space.module_at(inside).is_some() || code.at(inside).is_some())
}

/// A caller, where its return address leads to code.
fn if_called(space: &Space<'_>, code: &CodeRanges, caller: Context) -> Option<Context>
    ensures { result ≡ if_called space.now code.now caller }
{
    if is_called_code(space, code, caller.ra) {
        Some(caller)
    } else {
        None
    }
}

/// The caller of a frame by its frame pointer, where its return address leads to code.
///
/// It is a guess: code without a table need not keep RBP as a frame pointer, and what it has saved of
/// other registers isn't known. `None` where RBP leads to no caller whose stack lies above.
pub fn caller_by_pointer(space: &Space<'_>, code: &CodeRanges, callee: &Context) -> Option<Context>
    ensures exact { result ≡ caller_by_pointer space.now code.now callee.now }
    // Its stack lies above that of its callee.
    ensures rises { IfSome result (λ caller. slice_index callee.now.registers column.rsp <
        slice_index caller.registers column.rsp) }
    // It is the caller where the callee has pushed RBP, made it its frame pointer and saved no other
    // register, on a stack of whole words.
    ensures entered { (t s : State) →
        IsEntered space.now.image false frame_pointer_steps t s → IsState t → t.sp % 8 ≡ 0 →
        IsTrue (is_called_code space.now code.now t.ra) → Shows (columns_of callee.now) s →
        IsSomeAnd result (λ caller. Shows (columns_of caller) t ×
        KeepsOthers (columns_of callee.now) (columns_of caller)) }
{
    let caller = pointed_caller(space.image(), callee)?;
    if_called(space, code, caller)
}

/// Whether a walk goes no further since no table describes where its last state stands.
pub fn is_without_table(code: &CodeRanges, why: EndReason) -> bool
    ensures { result ≡ is_without_table code.now why }
{
    match why {
        EndReason::NoModule(address) => code.at(address).is_some(),
        EndReason::NoDescription(_) | EndReason::UnreadableTable { .. } => true,
        EndReason::Outermost | EndReason::Refused { .. } | EndReason::Limit => false,
    }
}
