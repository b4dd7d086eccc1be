// The state that is unwound.
ghost use Rattle.std.specs.Prelude.{◌≡◌, ℕ, Option};
ghost use Rattle.pe_unwind_info.specs.Machine.{map_with, registers_of, word_or_fault, pop_into};
ghost use Rattle.pe_unwind_info.specs.Machine.{pop_return, done, frame_end, with_stack_pointer};
ghost use Rattle.pe_unwind_info.specs.Machine.{plus};
ghost use Rattle.pe_unwind_info.specs.Registers.{register_number, xmm_number};

use crate::x86_64::fault::FrameFault;
use crate::x86_64::registers::{Register, XmmRegister};

/// A machine that is unwound: its registers, and the words of its stack. Reads may change how the
/// state is kept, but not what it holds.
pub trait UnwindState {
    /// The values of the general purpose registers, by their numbers.
    ghost registers: { Self → ℕ → ℕ };

    /// The values of the XMM registers, by their numbers.
    ghost xmm_registers: { Self → ℕ → ℕ };

    /// The words of the stack, by their addresses.
    ghost stack: { Self → ℕ → Option ℕ };

    /// The register's value.
    fn read_register(&mut self, register: Register) -> u64
        ensures value { result ≡ registers self.old (register_number register) }
        ensures registers { registers self.new ≡ registers self.old }
        ensures xmm_registers { xmm_registers self.new ≡ xmm_registers self.old }
        ensures stack { stack self.new ≡ stack self.old };

    /// The word of the stack at the address; `None` exactly where there is none.
    fn read_stack(&mut self, addr: u64) -> Option<u64>
        ensures value { result ≡ stack self.old addr }
        ensures registers { registers self.new ≡ registers self.old }
        ensures xmm_registers { xmm_registers self.new ≡ xmm_registers self.old }
        ensures stack { stack self.new ≡ stack self.old };

    /// Gives the register another value.
    fn write_register(&mut self, register: Register, value: u64)
        ensures registers { registers self.new
            ≡ map_with (registers self.old) (register_number register) value }
        ensures xmm_registers { xmm_registers self.new ≡ xmm_registers self.old }
        ensures stack { stack self.new ≡ stack self.old };

    /// Gives the XMM register another value.
    fn write_xmm_register(&mut self, register: XmmRegister, value: u128)
        ensures registers { registers self.new ≡ registers self.old }
        ensures xmm_registers { xmm_registers self.new
            ≡ map_with (xmm_registers self.old) (xmm_number register) value }
        ensures stack { stack self.new ≡ stack self.old };
}

/// The word of the stack at an address.
#[inline(always)]
pub(crate) fn stack_word<S: UnwindState>(state: &mut S, address: u64) -> Result<u64, FrameFault>
    ensures value { result ≡ word_or_fault (S.stack state.old) address }
    ensures registers { S.registers state.new ≡ S.registers state.old }
    ensures xmm_registers { S.xmm_registers state.new ≡ S.xmm_registers state.old }
    ensures stack { S.stack state.new ≡ S.stack state.old }
{
    state.read_stack(address).ok_or(FrameFault::Stack(address))
}

/// Adds to the stack pointer.
pub(crate) fn add_to_stack_pointer<S: UnwindState>(state: &mut S, bytes: u32)
    ensures registers { registers_of (S.registers state.new) (S.xmm_registers state.new)
        ≡ with_stack_pointer (plus (S.registers state.old 4) bytes)
        (registers_of (S.registers state.old) (S.xmm_registers state.old)) }
    ensures stack { S.stack state.new ≡ S.stack state.old }
{
    let stack_pointer = state.read_register(Register::RSP);
    state.write_register(Register::RSP, stack_pointer.wrapping_add(u64::from(bytes)));
}

/// Pops a register: it is written, and then the stack pointer, by what this was before.
#[inline(always)]
pub(crate) fn pop<S: UnwindState>(state: &mut S, register: Register) -> Result<(), FrameFault>
    ensures registers { done result
        (registers_of (S.registers state.new) (S.xmm_registers state.new))
        ≡ pop_into (S.stack state.old) (register_number register)
        (registers_of (S.registers state.old) (S.xmm_registers state.old)) }
    ensures stack { S.stack state.new ≡ S.stack state.old }
{
    let stack_pointer = state.read_register(Register::RSP);
    let value = stack_word(state, stack_pointer)?;
    state.write_register(register, value);
    state.write_register(Register::RSP, stack_pointer.wrapping_add(8));
    Ok(())
}

/// Pops the return address.
pub(crate) fn pop_return_address<S: UnwindState>(state: &mut S) -> Result<u64, FrameFault>
    ensures registers { frame_end result
        (registers_of (S.registers state.new) (S.xmm_registers state.new))
        ≡ pop_return (S.stack state.old)
        (registers_of (S.registers state.old) (S.xmm_registers state.old)) }
    ensures stack { S.stack state.new ≡ S.stack state.old }
{
    let stack_pointer = state.read_register(Register::RSP);
    let address = stack_word(state, stack_pointer)?;
    state.write_register(Register::RSP, stack_pointer.wrapping_add(8));
    Ok(address)
}
