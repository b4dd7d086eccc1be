// Frames, by the unwind records of their functions.
ghost use Rattle.std.specs.Prelude.{◌≡◌, ◌≤◌, ℕ, List, Option, Ok, IfOk, IsTrue, is_ok};
ghost use Rattle.std.specs.Option.{option_map, ForSome};
ghost use Rattle.pe_unwind_info.specs.Epilog.{result_map, sequence_of};
ghost use Rattle.pe_unwind_info.specs.Frame.{Gives, info_in, chained_of, epilog_in, epilog_of};
ghost use Rattle.pe_unwind_info.specs.Frame.{operations_alone, from_place, link_by, link_of};
ghost use Rattle.pe_unwind_info.specs.Frame.{link_end, IsLinked, IsTested, Leaves, ByRun, InRecord};
ghost use Rattle.pe_unwind_info.specs.Frame.{IsFunctionFrame, IsFrame, IsUnwound, ShowsEnd};
ghost use Rattle.pe_unwind_info.specs.Frame.{IsUnwoundIn};
ghost use Rattle.pe_unwind_info.specs.FrameOf.{Image, frame_end_of, IsUnwoundBy};
ghost use Rattle.pe_unwind_info.specs.Sections.{section_table, image_of, headers_of, sections_in};
ghost use Rattle.pe_unwind_info.specs.Sections.{memory_by};
ghost use Rattle.pe_unwind_info.specs.FunctionTable.{table_bytes, functions_of, IsLookup};
ghost use Rattle.pe_unwind_info.specs.FunctionTable.{lookup_of};
ghost use Rattle.pe_unwind_info.specs.Header.{frame_register_of};
ghost use Rattle.pe_unwind_info.specs.Info.{info_of};
ghost use Rattle.pe_unwind_info.specs.InfoOperations.{operations_in};
ghost use Rattle.pe_unwind_info.specs.Machine.{registers_of, FrameEnd, frame_end, pop_return};
ghost use Rattle.pe_unwind_info.specs.Machine.{then_ends};
ghost use Rattle.pe_unwind_info.specs.Operations.{operations_left};
ghost use Rattle.pe_unwind_info.specs.Steps.{epilog_run, flow_end, run};
ghost use Rattle.pe_unwind_info.specs.declared.x86_64.epilog.FunctionEpilogInstruction.{FunctionEpilogInstruction};
ghost use Rattle.pe_unwind_info.specs.declared.x86_64.function_table.RuntimeFunction.{RuntimeFunction};

use crate::x86_64::epilog::{FunctionEpilogInstruction, begins_with_epilog};
use crate::x86_64::epilog_list::after_epilogs;
use crate::x86_64::fault::FrameFault;
use crate::x86_64::function_table::{FunctionTableEntries, RuntimeFunction};
use crate::x86_64::operations::UnwindOperations;
use crate::x86_64::registers::Register;
use crate::x86_64::sections::Sections;
use crate::x86_64::state::{UnwindState, pop_return_address};
use crate::x86_64::steps::{apply_all, apply_from, apply_instructions};
use crate::x86_64::unwind_info::UnwindInfo;
use std::ops::ControlFlow;

// how many records may be chained to the first one
const CHAIN_LIMIT: u32 = 32;

// the unwind record at an address, from the memory there
fn info_in(rva: u32, memory: Option<&[u8]>) -> Result<UnwindInfo<'_>, FrameFault>
    ensures { result_map info_of result
        ≡ info_in rva (option_map (λ bytes. bytes.now) memory.entry) }
{
    let bytes = memory.ok_or(FrameFault::Memory(rva))?;
    UnwindInfo::parse(bytes).ok_or(FrameFault::Info(rva))
}

// the unwind record at an address
pub fn info_at<'m, M: Fn(u32) -> Option<&'m [u8]>>(
    memory_at_rva: &M,
    rva: u32,
) -> Result<UnwindInfo<'m>, FrameFault>
    requires { M.IsAlwaysCallable memory_at_rva.now }
    ensures { (memory : Option (List ℕ))
        × Gives (M.post memory_at_rva.now) (option_map (λ bytes. bytes.now)) rva memory
        × (result_map info_of result ≡ info_in rva memory) }
{
    info_in(rva, memory_at_rva(rva))
}

// the code from an address to the function's end, where it begins with an epilog, from the memory at
// the address
#[tactic(auto, using(crate::proofs::EpilogSequences::none_begins))]
fn epilog_in<'m>(
    frame: Option<Register>,
    end: u32,
    address: u32,
    memory: Option<&'m [u8]>,
) -> Result<Option<&'m [u8]>, FrameFault>
    ensures epilog { result_map (λ code. epilog_of frame
        (option_map (λ bytes. bytes.now) code)) result
        ≡ epilog_in frame end address (option_map (λ bytes. bytes.now) memory.entry) }
    ensures begins { IfOk result (λ code. ForSome code (λ bytes.
        IsTrue (is_ok (sequence_of frame bytes.now)))) }
{
    let Some(bytes) = memory else {
        return Err(FrameFault::EpilogBytes);
    };
    if end < address || bytes.len() < (end - address) as usize {
        return Err(FrameFault::EpilogBytes);
    }
    let code = &bytes[..(end - address) as usize];
    if begins_with_epilog(frame, code) {
        Ok(Some(code))
    } else {
        Ok(None)
    }
}

// the same where the code has to be tested
fn epilog_at<'m, M: Fn(u32) -> Option<&'m [u8]>>(
    memory_at_rva: &M,
    due: bool,
    frame: Option<Register>,
    end: u32,
    address: u32,
) -> Result<Option<&'m [u8]>, FrameFault>
    requires { M.IsAlwaysCallable memory_at_rva.now }
    ensures tested { IsTested due
        (Gives (M.post memory_at_rva.now) (option_map (λ bytes. bytes.now))) frame end address
        (result_map (λ code. epilog_of frame (option_map (λ bytes. bytes.now) code)) result) }
    ensures begins { IfOk result (λ code. ForSome code (λ bytes.
        IsTrue (is_ok (sequence_of frame bytes.now)))) }
{
    if due {
        epilog_in(frame, end, address, memory_at_rva(address))
    } else {
        Ok(None)
    }
}

// does the instructions of an epilog and pops the return address
fn leave_by_epilog<S: UnwindState>(
    frame: Option<Register>,
    state: &mut S,
    instructions: &[FunctionEpilogInstruction],
) -> Result<u64, FrameFault>
    ensures registers { frame_end result
        (registers_of (S.registers state.new) (S.xmm_registers state.new))
        ≡ then_ends
        (epilog_run frame (S.stack state.old) instructions.now
        (registers_of (S.registers state.old) (S.xmm_registers state.old)))
        (pop_return (S.stack state.old)) }
    ensures stack { S.stack state.new ≡ S.stack state.old }
{
    apply_instructions(frame, state, instructions)?;
    pop_return_address(state)
}

// does all operations of a record
fn apply_record<S: UnwindState>(
    info: &UnwindInfo<'_>,
    state: &mut S,
) -> Result<ControlFlow<u64>, FrameFault>
    ensures registers { flow_end result
        (registers_of (S.registers state.new) (S.xmm_registers state.new))
        ≡ run (info_of info.now).header (S.stack state.old)
        (operations_alone (operations_in (info_of info.now)))
        (registers_of (S.registers state.old) (S.xmm_registers state.old)) }
    ensures stack { S.stack state.new ≡ S.stack state.old }
{
    apply_all(&info.header(), state, info.unwind_operations())
}

// does all operations of a chained record; answers the function whose record goes on after it
fn unwind_link<S: UnwindState>(
    info: &UnwindInfo<'_>,
    state: &mut S,
) -> Result<ControlFlow<u64, Option<RuntimeFunction>>, FrameFault>
    ensures registers { link_end result
        (registers_of (S.registers state.new) (S.xmm_registers state.new))
        ≡ link_by (info_of info.now) (S.stack state.old)
        (registers_of (S.registers state.old) (S.xmm_registers state.old)) }
    ensures stack { S.stack state.new ≡ S.stack state.old }
{
    match apply_record(info, state)? {
        ControlFlow::Continue(()) => Ok(ControlFlow::Continue(info.chained_function())),
        ControlFlow::Break(address) => Ok(ControlFlow::Break(address)),
    }
}

// the same of the record of a function, where it can be read
fn unwind_chained<'m, S: UnwindState, M: Fn(u32) -> Option<&'m [u8]>>(
    state: &mut S,
    memory_at_rva: &M,
    function: &RuntimeFunction,
) -> Result<ControlFlow<u64, Option<RuntimeFunction>>, FrameFault>
    requires { M.IsAlwaysCallable memory_at_rva.now }
    ensures registers { (memory : Option (List ℕ))
        × Gives (M.post memory_at_rva.now) (option_map (λ bytes. bytes.now))
        function.now.unwind_info_address memory
        ×
        (link_end result (registers_of (S.registers state.new) (S.xmm_registers state.new)) ≡
        link_of (info_in function.now.unwind_info_address memory) (S.stack state.old)
        (registers_of (S.registers state.old) (S.xmm_registers state.old))) }
    ensures stack { S.stack state.new ≡ S.stack state.old }
{
    let info = info_at(memory_at_rva, function.unwind_info_address)?;
    unwind_link(&info, state)
}

// goes on with at most `CHAIN_LIMIT` chained records, and then pops the return address
fn unwind_links<'m, S: UnwindState, M: Fn(u32) -> Option<&'m [u8]>>(
    state: &mut S,
    memory_at_rva: &M,
    first: Option<RuntimeFunction>,
) -> Result<u64, FrameFault>
    requires { M.IsAlwaysCallable memory_at_rva.now }
    ensures registers { IsLinked
        (Gives (M.post memory_at_rva.now) (option_map (λ bytes. bytes.now)))
        (S.stack state.old) 32 first
        (registers_of (S.registers state.old) (S.xmm_registers state.old))
        (frame_end result (registers_of (S.registers state.new) (S.xmm_registers state.new))) }
    ensures stack { S.stack state.new ≡ S.stack state.old }
{
    let mut next = first;
    for _turn in 0..CHAIN_LIMIT {
        let Some(function) = next else {
            return pop_return_address(state);
        };
        match unwind_chained(state, memory_at_rva, &function)? {
            ControlFlow::Continue(chained) => next = chained,
            ControlFlow::Break(address) => return Ok(address),
        }
    }
    match next {
        Some(_) => Err(FrameFault::ChainLimit),
        None => pop_return_address(state),
    }
}

// does the operations of what the prologue has done up to an offset, goes on with the chained
// records, and pops the return address
fn leave_by_operations<'m, S: UnwindState, M: Fn(u32) -> Option<&'m [u8]>>(
    info: &UnwindInfo<'_>,
    state: &mut S,
    memory_at_rva: &M,
    operations: UnwindOperations<'_>,
    offset: u32,
) -> Result<u64, FrameFault>
    requires { M.IsAlwaysCallable memory_at_rva.now }
    ensures registers { ByRun
        (run (info_of info.now).header (S.stack state.old)
        (operations_alone (from_place offset (operations_left operations.entry)))
        (registers_of (S.registers state.old) (S.xmm_registers state.old)))
        (IsLinked (Gives (M.post memory_at_rva.now) (option_map (λ bytes. bytes.now)))
        (S.stack state.old) 32 (chained_of (info_of info.now)))
        (frame_end result (registers_of (S.registers state.new) (S.xmm_registers state.new))) }
    ensures stack { S.stack state.new ≡ S.stack state.old }
{
    match apply_from(&info.header(), state, operations, offset)? {
        ControlFlow::Continue(()) => unwind_links(state, memory_at_rva, info.chained_function()),
        ControlFlow::Break(address) => Ok(address),
    }
}

// leaves by the epilog that code begins with; the list of its instructions is made here alone, as a
// function pays for the room of its locals each time
#[inline(never)]
fn leave_by_code<S: UnwindState>(
    frame: Option<Register>,
    state: &mut S,
    code: &[u8],
) -> Result<u64, FrameFault>
    requires { IsTrue (is_ok (sequence_of frame code.now)) }
    ensures registers { (instructions : List FunctionEpilogInstruction)
        × (sequence_of frame code.now ≡ Ok instructions)
        × (frame_end result (registers_of (S.registers state.new) (S.xmm_registers state.new))
        ≡ then_ends
        (epilog_run frame (S.stack state.old) instructions
        (registers_of (S.registers state.old) (S.xmm_registers state.old)))
        (pop_return (S.stack state.old))) }
    ensures stack { S.stack state.new ≡ S.stack state.old }
{
    match FunctionEpilogInstruction::parse_sequence(code, frame) {
        Ok(instructions) => leave_by_epilog(frame, state, &instructions),
        Err(_) => unreachable!(),
    }
}

// leaves by the epilog that code begins with, where there is such code, or else by the operations of
// what the prologue has done up to the address
fn leave<'m, S: UnwindState, M: Fn(u32) -> Option<&'m [u8]>>(
    info: &UnwindInfo<'_>,
    state: &mut S,
    memory_at_rva: &M,
    epilog: Option<&[u8]>,
    operations: UnwindOperations<'_>,
    offset: u32,
) -> Result<u64, FrameFault>
    requires callable { M.IsAlwaysCallable memory_at_rva.now }
    requires begins { ForSome epilog (λ code.
        IsTrue (is_ok (sequence_of (frame_register_of (info_of info.now).header) code.now))) }
    ensures registers { Leaves (Gives (M.post memory_at_rva.now) (option_map (λ bytes. bytes.now)))
        (S.stack state.old) (info_of info.now)
        (from_place offset (operations_left operations.entry))
        (epilog_of (frame_register_of (info_of info.now).header)
        (option_map (λ bytes. bytes.now) epilog.entry))
        (registers_of (S.registers state.old) (S.xmm_registers state.old))
        (frame_end result (registers_of (S.registers state.new) (S.xmm_registers state.new))) }
    ensures stack { S.stack state.new ≡ S.stack state.old }
{
    match epilog {
        Some(code) => leave_by_code(info.frame_register(), state, code),
        None => leave_by_operations(info, state, memory_at_rva, operations, offset),
    }
}

// unwinds a frame at an address by the first record of its function
fn unwind_record<'m, S: UnwindState, M: Fn(u32) -> Option<&'m [u8]>>(
    info: &UnwindInfo<'_>,
    state: &mut S,
    memory_at_rva: &M,
    function: &RuntimeFunction,
    address: u32,
) -> Result<u64, FrameFault>
    requires callable { M.IsAlwaysCallable memory_at_rva.now }
    requires begun { function.now.begin_address ≤ address }
    ensures registers { InRecord
        (Gives (M.post memory_at_rva.now) (option_map (λ bytes. bytes.now)))
        (S.stack state.old) address function.now (Ok (info_of info.now))
        (registers_of (S.registers state.old) (S.xmm_registers state.old))
        (frame_end result (registers_of (S.registers state.new) (S.xmm_registers state.new))) }
    ensures stack { S.stack state.new ≡ S.stack state.old }
{
    let end = function.end_address;
    let (due, operations) = after_epilogs(info.unwind_operations(), end, address);
    let epilog = epilog_at(memory_at_rva, due, info.frame_register(), end, address)?;
    let offset = address - function.begin_address;
    leave(info, state, memory_at_rva, epilog, operations, offset)
}

// unwinds a frame at an address of a function
fn unwind_function<'m, S: UnwindState, M: Fn(u32) -> Option<&'m [u8]>>(
    state: &mut S,
    memory_at_rva: &M,
    function: &RuntimeFunction,
    address: u32,
) -> Result<u64, FrameFault>
    requires callable { M.IsAlwaysCallable memory_at_rva.now }
    requires begun { function.now.begin_address ≤ address }
    ensures registers { IsFunctionFrame
        (Gives (M.post memory_at_rva.now) (option_map (λ bytes. bytes.now)))
        (S.stack state.old) address function.now
        (registers_of (S.registers state.old) (S.xmm_registers state.old))
        (frame_end result (registers_of (S.registers state.new) (S.xmm_registers state.new))) }
    ensures stack { S.stack state.new ≡ S.stack state.old }
{
    let info = info_at(memory_at_rva, function.unwind_info_address)?;
    unwind_record(&info, state, memory_at_rva, function, address)
}

// unwinds a frame at an address of a function, or of one that no record covers
fn unwind<'m, S: UnwindState, M: Fn(u32) -> Option<&'m [u8]>>(
    state: &mut S,
    memory_at_rva: &M,
    function: Option<RuntimeFunction>,
    address: u32,
) -> Result<u64, FrameFault>
    requires callable { M.IsAlwaysCallable memory_at_rva.now }
    requires begun { ForSome function (λ function. function.begin_address ≤ address) }
    ensures registers { IsFrame (Gives (M.post memory_at_rva.now) (option_map (λ bytes. bytes.now)))
        (S.stack state.old) address function
        (registers_of (S.registers state.old) (S.xmm_registers state.old))
        (frame_end result (registers_of (S.registers state.new) (S.xmm_registers state.new))) }
    ensures stack { S.stack state.new ≡ S.stack state.old }
{
    match function {
        Some(function) => unwind_function(state, memory_at_rva, &function, address),
        None => pop_return_address(state),
    }
}

/// Unwinds a frame at an address by the record that a look-up there has answered, as
/// [`FunctionTableEntries::try_unwind_frame`] does, for who needs the record before.
///
/// After a fault the state holds what was written before it.
pub fn try_unwind_function<'m, S: UnwindState, M: Fn(u32) -> Option<&'m [u8]>>(
    function: Option<RuntimeFunction>,
    state: &mut S,
    memory_at_rva: M,
    address: u32,
) -> Result<u64, FrameFault>
    requires callable { M.IsAlwaysCallable memory_at_rva }
    requires begun { ForSome function (λ function. function.begin_address ≤ address) }

    // Whatever `memory_at_rva` gives at each call.
    ensures frame { IsFrame (Gives (M.post memory_at_rva) (option_map (λ bytes. bytes.now)))
        (S.stack state.old) address function
        (registers_of (S.registers state.old) (S.xmm_registers state.old))
        (frame_end result (registers_of (S.registers state.new) (S.xmm_registers state.new))) }

    // Where it gives one memory at each address, the answer and the writes are determined.
    ensures by_memory { (memory : Image)
        → ((rva : ℕ) (given : Option (List ℕ))
        → Gives (M.post memory_at_rva) (option_map (λ bytes. bytes.now)) rva given
        → given ≡ memory rva)
        → frame_end result (registers_of (S.registers state.new) (S.xmm_registers state.new))
        ≡ frame_end_of memory (S.stack state.old) address function
        (registers_of (S.registers state.old) (S.xmm_registers state.old)) }
    ensures stack { S.stack state.new ≡ S.stack state.old }
{
    unwind(state, &memory_at_rva, function, address)
}

impl<'a> FunctionTableEntries<'a> {
    /// Unwinds a frame at an address relative to the base of the image, and answers the return
    /// address. `memory_at_rva` gives the memory of the image from a relative virtual address on.
    ///
    /// A frame whose function no record covers is left by popping the return address. Else, where
    /// the code at the address may be that of an epilog, and begins with one, the rest of the
    /// epilog is done. Else the operations of what the prologue has done up to the address are
    /// done, and those of all chained records. Last the return address is popped, unless a machine
    /// frame has given it.
    ///
    /// After a fault the state holds what was written before it.
    pub fn try_unwind_frame<'m, S: UnwindState, M: Fn(u32) -> Option<&'m [u8]>>(
        &self,
        state: &mut S,
        memory_at_rva: M,
        address: u32,
    ) -> Result<u64, FrameFault>
        requires { M.IsAlwaysCallable memory_at_rva }

        // Whatever `memory_at_rva` gives at each call.
        ensures frame { IsUnwound (Gives (M.post memory_at_rva) (option_map (λ bytes. bytes.now)))
            (S.stack state.old) (functions_of (table_bytes self.now)) address
            (registers_of (S.registers state.old) (S.xmm_registers state.old))
            (frame_end result
            (registers_of (S.registers state.new) (S.xmm_registers state.new))) }

        // Where it gives one memory at each address, the answer and the writes are determined.
        ensures by_memory { (memory : Image)
            → ((rva : ℕ) (given : Option (List ℕ))
            → Gives (M.post memory_at_rva) (option_map (λ bytes. bytes.now)) rva given
            → given ≡ memory rva)
            → (function : Option RuntimeFunction)
            × IsLookup (functions_of (table_bytes self.now)) address function
            × (frame_end result (registers_of (S.registers state.new) (S.xmm_registers state.new))
            ≡ frame_end_of memory (S.stack state.old) address function
            (registers_of (S.registers state.old) (S.xmm_registers state.old))) }

        // The same with the record that the look-up always answers.
        ensures repeats { (memory : Image)
            → ((rva : ℕ) (given : Option (List ℕ))
            → Gives (M.post memory_at_rva) (option_map (λ bytes. bytes.now)) rva given
            → given ≡ memory rva)
            → frame_end result (registers_of (S.registers state.new) (S.xmm_registers state.new))
            ≡ frame_end_of memory (S.stack state.old) address
            (lookup_of (functions_of (table_bytes self.now)) address)
            (registers_of (S.registers state.old) (S.xmm_registers state.old)) }
        ensures stack { S.stack state.new ≡ S.stack state.old }
    {
        let function = self.lookup(address);
        unwind(state, &memory_at_rva, function, address)
    }

    /// The same without the cause of a fault: `None` exactly where there was one.
    pub fn unwind_frame<'m, S: UnwindState, M: Fn(u32) -> Option<&'m [u8]>>(
        &self,
        state: &mut S,
        memory_at_rva: M,
        address: u32,
    ) -> Option<u64>
        requires { M.IsAlwaysCallable memory_at_rva }
        ensures frame { (end : FrameEnd)
            × IsUnwound (Gives (M.post memory_at_rva) (option_map (λ bytes. bytes.now)))
            (S.stack state.old) (functions_of (table_bytes self.now)) address
            (registers_of (S.registers state.old) (S.xmm_registers state.old)) end
            × ShowsEnd result (registers_of (S.registers state.new) (S.xmm_registers state.new))
            end }

        // Where it gives one memory at each address, the answer and the writes are determined.
        ensures repeats { (memory : Image)
            → ((rva : ℕ) (given : Option (List ℕ))
            → Gives (M.post memory_at_rva) (option_map (λ bytes. bytes.now)) rva given
            → given ≡ memory rva)
            → ShowsEnd result (registers_of (S.registers state.new) (S.xmm_registers state.new))
            (frame_end_of memory (S.stack state.old) address
            (lookup_of (functions_of (table_bytes self.now)) address)
            (registers_of (S.registers state.old) (S.xmm_registers state.old))) }
        ensures stack { S.stack state.new ≡ S.stack state.old }
    {
        match self.try_unwind_frame(state, memory_at_rva, address) {
            Ok(return_address) => Some(return_address),
            Err(_) => None,
        }
    }

    /// The same over the memory of an image in its file layout, by its sections; `None` also where
    /// its section headers can't be read.
    pub fn unwind_frame_with_image<S: UnwindState>(
        &self,
        state: &mut S,
        image: &[u8],
        address: u32,
    ) -> Option<u64>
        ensures frame { IsUnwoundIn image.now (section_table image.now) (S.stack state.old)
            (functions_of (table_bytes self.now)) address
            (registers_of (S.registers state.old) (S.xmm_registers state.old)) result
            (registers_of (S.registers state.new) (S.xmm_registers state.new)) }

        // The answer and the writes are determined, also where sections are out of order.
        ensures repeats { IsUnwoundBy image.now (section_table image.now) (S.stack state.old)
            (functions_of (table_bytes self.now)) address
            (registers_of (S.registers state.old) (S.xmm_registers state.old)) result
            (registers_of (S.registers state.new) (S.xmm_registers state.new)) }
        ensures stack { S.stack state.new ≡ S.stack state.old }
    {
        match Sections::parse(image) {
            Some(sections) => {
                let memory_at_rva = |rva: u32| -> Option<&[u8]>
                    ensures { option_map (λ bytes. bytes.now) result ≡
                        memory_by (image_of sections.entry)
                        (sections_in (headers_of sections.entry)) rva }
                { sections.memory_at_rva(rva) };
                self.unwind_frame(state, memory_at_rva, address)
            }
            None => None,
        }
    }
}
