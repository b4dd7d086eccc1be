// What unwind operations and the instructions of an epilog do to a state.
ghost use Rattle.std.specs.Prelude.{◌≡◌, ℕ, [], map, IfNone};
ghost use Rattle.std.specs.List.{cons_option};
ghost use Rattle.pe_unwind_info.specs.Frame.{from_place, operations_alone};
ghost use Rattle.pe_unwind_info.specs.Header.{frame_register_of, frame_distance, base_register};
ghost use Rattle.pe_unwind_info.specs.Header.{base_distance};
ghost use Rattle.pe_unwind_info.specs.Info.{info_of};
ghost use Rattle.pe_unwind_info.specs.Machine.{registers_of, done};
ghost use Rattle.pe_unwind_info.specs.Operations.{offset_value, operations_left};
ghost use Rattle.pe_unwind_info.specs.Registers.{register_number, xmm_number};
ghost use Rattle.pe_unwind_info.specs.Steps.{offset_from, frame_address, with_stack_restored, with_saved_register};
ghost use Rattle.pe_unwind_info.specs.Steps.{saved_xmm, machine_frame, act, run, epilog_act};
ghost use Rattle.pe_unwind_info.specs.Steps.{epilog_run, flow_end, IsResolved};

use crate::x86_64::epilog::FunctionEpilogInstruction;
use crate::x86_64::fault::FrameFault;
use crate::x86_64::operations::{StackFrameOffset, UnwindOperation, UnwindOperations};
use crate::x86_64::registers::{Register, XmmRegister};
use crate::x86_64::state::{UnwindState, add_to_stack_pointer, pop, stack_word};
use crate::x86_64::unwind_info::{UnwindInfo, UnwindInfoHeader};
use std::ops::ControlFlow;

impl UnwindInfoHeader {
    // the register that offsets into the frame count from, and how far below it they begin
    fn base(&self) -> (Register, u8)
        ensures register { result.0 ≡ base_register self.now }
        ensures distance { result.1 ≡ base_distance self.now }
    {
        match self.frame_register() {
            Some(register) => (register, self.frame_register_offset()),
            None => (Register::RSP, 0),
        }
    }

    /// The address of an offset into the frame: the frame register less how far it is above the
    /// stack pointer that it was set from, or the stack pointer where there is no frame register,
    /// plus the offset. Sums and differences wrap.
    pub fn resolve_offset<F: FnOnce(Register) -> u64>(
        &self,
        read_register: F,
        offset: StackFrameOffset,
    ) -> u64
        requires { F.pre read_register (base_register self.now) }
        ensures { (value : ℕ)
            × F.post read_register (base_register self.now) value
            × (result ≡ offset_from self.now value (offset_value offset)) }
    {
        let (register, distance) = self.base();
        let base = read_register(register);
        base.wrapping_sub(u64::from(distance))
            .wrapping_add(u64::from(offset.value()))
    }

    /// Does an operation of this record. `None` exactly where a word of the stack that it reads
    /// isn't there; then nothing was written. `Break` has the address that a machine frame
    /// returns to.
    pub fn resolve_operation<S: UnwindState>(
        &self,
        state: &mut S,
        op: &UnwindOperation,
    ) -> Option<ControlFlow<u64>>
        ensures registers { IsResolved result
            (registers_of (S.registers state.new) (S.xmm_registers state.new))
            (act self.now (S.stack state.old) op.now
            (registers_of (S.registers state.old) (S.xmm_registers state.old))) }
        ensures stack { S.stack state.new ≡ S.stack state.old }
    {
        match apply(self, state, op) {
            Ok(flow) => Some(flow),
            Err(_) => None,
        }
    }
}

impl<'a> UnwindInfo<'a> {
    /// The address of an offset into the frame, as of the record's header.
    pub fn resolve_offset<F: FnOnce(Register) -> u64>(
        &self,
        read_register: F,
        offset: StackFrameOffset,
    ) -> u64
        requires { F.pre read_register (base_register (info_of self.now).header) }
        ensures { (value : ℕ)
            × F.post read_register (base_register (info_of self.now).header) value
            × (result ≡ offset_from (info_of self.now).header value (offset_value offset)) }
    {
        self.header().resolve_offset(read_register, offset)
    }

    /// Does an operation of this record, as of its header.
    pub fn resolve_operation<S: UnwindState>(
        &self,
        state: &mut S,
        op: &UnwindOperation,
    ) -> Option<ControlFlow<u64>>
        ensures registers { IsResolved result
            (registers_of (S.registers state.new) (S.xmm_registers state.new))
            (act (info_of self.now).header (S.stack state.old) op.now
            (registers_of (S.registers state.old) (S.xmm_registers state.old))) }
        ensures stack { S.stack state.new ≡ S.stack state.old }
    {
        self.header().resolve_operation(state, op)
    }
}

// the address of an offset into the frame
fn address_in_frame<S: UnwindState>(
    header: &UnwindInfoHeader,
    state: &mut S,
    offset: StackFrameOffset,
) -> u64
    ensures value { result
        ≡ frame_address header.now
        (registers_of (S.registers state.old) (S.xmm_registers state.old)) (offset_value offset) }
    ensures registers { S.registers state.new ≡ S.registers state.old }
    ensures xmm_registers { S.xmm_registers state.new ≡ S.xmm_registers state.old }
    ensures stack { S.stack state.new ≡ S.stack state.old }
{
    let (register, distance) = header.base();
    let base = state.read_register(register);
    base.wrapping_sub(u64::from(distance))
        .wrapping_add(u64::from(offset.value()))
}

// sets the stack pointer to what the frame register was set from, where there is one
fn restore_stack_pointer<S: UnwindState>(header: &UnwindInfoHeader, state: &mut S)
    ensures registers { registers_of (S.registers state.new) (S.xmm_registers state.new)
        ≡ with_stack_restored (frame_register_of header.now) (frame_distance header.now)
        (registers_of (S.registers state.old) (S.xmm_registers state.old)) }
    ensures stack { S.stack state.new ≡ S.stack state.old }
{
    if let Some(register) = header.frame_register() {
        let frame = state.read_register(register);
        let distance = u64::from(header.frame_register_offset());
        state.write_register(Register::RSP, frame.wrapping_sub(distance));
    }
}

// reads a register that was stored at an address
fn read_saved<S: UnwindState>(
    state: &mut S,
    address: u64,
    register: Register,
) -> Result<(), FrameFault>
    ensures registers { done result
        (registers_of (S.registers state.new) (S.xmm_registers state.new))
        ≡ with_saved_register (S.stack state.old) address (register_number register)
        (registers_of (S.registers state.old) (S.xmm_registers state.old)) }
    ensures stack { S.stack state.new ≡ S.stack state.old }
{
    let value = stack_word(state, address)?;
    state.write_register(register, value);
    Ok(())
}

// reads an XMM register that was stored at an address
fn read_saved_xmm<S: UnwindState>(
    state: &mut S,
    address: u64,
    register: XmmRegister,
) -> Result<(), FrameFault>
    ensures registers { done result
        (registers_of (S.registers state.new) (S.xmm_registers state.new))
        ≡ saved_xmm (S.stack state.old) address (xmm_number register)
        (registers_of (S.registers state.old) (S.xmm_registers state.old)) }
    ensures stack { S.stack state.new ≡ S.stack state.old }
{
    let low = stack_word(state, address)?;
    let high = stack_word(state, address.wrapping_add(8))?;
    state.write_xmm_register(register, u128::from(low) + (u128::from(high) << 64));
    Ok(())
}

// takes back a machine frame whose address stands at this address; answers that address
fn pop_machine_frame<S: UnwindState>(
    state: &mut S,
    address: u64,
) -> Result<ControlFlow<u64>, FrameFault>
    ensures registers { flow_end result
        (registers_of (S.registers state.new) (S.xmm_registers state.new))
        ≡ machine_frame (S.stack state.old) address
        (registers_of (S.registers state.old) (S.xmm_registers state.old)) }
    ensures stack { S.stack state.new ≡ S.stack state.old }
{
    let return_address = stack_word(state, address)?;
    let stack_pointer = stack_word(state, address.wrapping_add(24))?;
    state.write_register(Register::RSP, stack_pointer);
    Ok(ControlFlow::Break(return_address))
}

// does an operation of a record with this header
#[inline(always)]
fn apply<S: UnwindState>(
    header: &UnwindInfoHeader,
    state: &mut S,
    operation: &UnwindOperation,
) -> Result<ControlFlow<u64>, FrameFault>
    ensures registers { flow_end result
        (registers_of (S.registers state.new) (S.xmm_registers state.new))
        ≡ act header.now (S.stack state.old) operation.now
        (registers_of (S.registers state.old) (S.xmm_registers state.old)) }
    ensures stack { S.stack state.new ≡ S.stack state.old }
{
    match *operation {
        UnwindOperation::EpilogInformation(_) => Ok(ControlFlow::Continue(())),
        UnwindOperation::PopNonVolatile(register) => {
            pop(state, register)?;
            Ok(ControlFlow::Continue(()))
        }
        UnwindOperation::UnStackAlloc(bytes) => {
            add_to_stack_pointer(state, bytes);
            Ok(ControlFlow::Continue(()))
        }
        UnwindOperation::RestoreSPFromFP => {
            restore_stack_pointer(header, state);
            Ok(ControlFlow::Continue(()))
        }
        UnwindOperation::ReadNonVolatile(register, offset) => {
            let address = address_in_frame(header, state, offset);
            read_saved(state, address, register)?;
            Ok(ControlFlow::Continue(()))
        }
        UnwindOperation::ReadXMM(register, offset) => {
            let address = address_in_frame(header, state, offset);
            read_saved_xmm(state, address, register)?;
            Ok(ControlFlow::Continue(()))
        }
        UnwindOperation::PopMachineFrame { error_code } => {
            let code_size = if error_code { 8 } else { 0 };
            let stack_pointer = state.read_register(Register::RSP);
            pop_machine_frame(state, stack_pointer.wrapping_add(code_size))
        }
    }
}

/// Does the operations of a record with this header, one after another.
#[inline(always)]
#[tactic(auto, unfolding(crate::specs::Steps::run))]
pub(crate) fn apply_all<S: UnwindState>(
    header: &UnwindInfoHeader,
    state: &mut S,
    mut operations: UnwindOperations<'_>,
) -> Result<ControlFlow<u64>, FrameFault>
    ensures registers { flow_end result
        (registers_of (S.registers state.new) (S.xmm_registers state.new))
        ≡ run header.now (S.stack state.old) (map (λ p. p.1) (operations_left operations.entry))
        (registers_of (S.registers state.old) (S.xmm_registers state.old)) }
    ensures stack { S.stack state.new ≡ S.stack state.old }
{
    while let Some((_, operation)) = operations.next() {
        if let ControlFlow::Break(address) = apply(header, state, &operation)? {
            return Ok(ControlFlow::Break(address));
        }
    }
    Ok(ControlFlow::Continue(()))
}

// takes the operations up to the first with a place at or below an offset, and answers that one
#[tactic(auto, unfolding(crate::specs::Frame::from_place))]
fn first_from(operations: &mut UnwindOperations<'_>, offset: u32) -> Option<UnwindOperation>
    ensures from { operations_alone (from_place offset (operations_left operations.old))
        ≡ cons_option result (operations_alone (operations_left operations.new)) }
    ensures ended { IfNone result (operations_left operations.new ≡ []) }
{
    while let Some((place, operation)) = operations.next() {
        if u32::from(place) <= offset {
            return Some(operation);
        }
    }
    None
}

/// Does the operations of a record with this header, from the first with a place at or below an
/// offset on.
#[tactic(auto, unfolding(crate::specs::Steps::run))]
pub(crate) fn apply_from<S: UnwindState>(
    header: &UnwindInfoHeader,
    state: &mut S,
    mut operations: UnwindOperations<'_>,
    offset: u32,
) -> Result<ControlFlow<u64>, FrameFault>
    ensures registers { flow_end result
        (registers_of (S.registers state.new) (S.xmm_registers state.new))
        ≡ run header.now (S.stack state.old)
        (operations_alone (from_place offset (operations_left operations.entry)))
        (registers_of (S.registers state.old) (S.xmm_registers state.old)) }
    ensures stack { S.stack state.new ≡ S.stack state.old }
{
    let Some(first) = first_from(&mut operations, offset) else {
        return Ok(ControlFlow::Continue(()));
    };
    match apply(header, state, &first)? {
        ControlFlow::Continue(()) => apply_all(header, state, operations),
        ControlFlow::Break(address) => Ok(ControlFlow::Break(address)),
    }
}

// does an instruction of an epilog
fn apply_instruction<S: UnwindState>(
    frame: Option<Register>,
    state: &mut S,
    instruction: FunctionEpilogInstruction,
) -> Result<(), FrameFault>
    ensures registers { done result
        (registers_of (S.registers state.new) (S.xmm_registers state.new))
        ≡ epilog_act frame (S.stack state.old) instruction
        (registers_of (S.registers state.old) (S.xmm_registers state.old)) }
    ensures stack { S.stack state.new ≡ S.stack state.old }
{
    match (instruction, frame) {
        (FunctionEpilogInstruction::AddSP(bytes), _) => {
            add_to_stack_pointer(state, bytes);
            Ok(())
        }
        (FunctionEpilogInstruction::AddSPFromFP(bytes), Some(register)) => {
            let base = state.read_register(register);
            state.write_register(Register::RSP, base.wrapping_add(u64::from(bytes)));
            Ok(())
        }
        (FunctionEpilogInstruction::AddSPFromFP(_), None) => Ok(()),
        (FunctionEpilogInstruction::Pop(register), _) => pop(state, register),
    }
}

/// Does the instructions of an epilog, one after another.
#[tactic(auto, unfolding(crate::specs::Steps::epilog_run))]
pub(crate) fn apply_instructions<S: UnwindState>(
    frame: Option<Register>,
    state: &mut S,
    instructions: &[FunctionEpilogInstruction],
) -> Result<(), FrameFault>
    ensures registers { done result
        (registers_of (S.registers state.new) (S.xmm_registers state.new))
        ≡ epilog_run frame (S.stack state.old) instructions.now
        (registers_of (S.registers state.old) (S.xmm_registers state.old)) }
    ensures stack { S.stack state.new ≡ S.stack state.old }
{
    for instruction in instructions {
        apply_instruction(frame, state, *instruction)?;
    }
    Ok(())
}
