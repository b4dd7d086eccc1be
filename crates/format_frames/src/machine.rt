// What a step gives, and the machine that is unwound in a PE module.
ghost use Rattle.std.specs.Prelude.{◌≡◌, ◌<◌};
ghost use Rattle.memory_image.specs.Image.{word_at};
ghost use Rattle.unwind_definitions.specs.LanguageSearch.{address_of_call};
ghost use Rattle.format_definitions.specs.PeRegisters.{column_at};
ghost use Rattle.pe_unwind_info.specs.Registers.{register_number};

use crate::xmm::XmmWrites;
use memory_image::MemoryImage;
use pe_unwind_info::x86_64::{Register, UnwindState, XmmRegister};
use unwind_arch::x86_64::{
    Context, R8, R9, R10, R11, R12, R13, R14, R15, RAX, RBP, RBX, RCX, RDI, RDX, RSI, RSP,
};
use unwinding_frames::{Window, address_asked};

/// A state of the stack with its mark, as a step leaves it: a caller's registers.
#[derive(Clone, Copy, Debug, PartialEq, Eq)]
pub struct Stepped {
    /// The registers of the caller.
    pub context: Context,
    /// Whether the frame that was left is a signal frame, so that the caller stands before the
    /// instruction at its return address and not after a call.
    pub signal: bool,
}

impl Stepped {
    /// The address that is asked of the frame: that of its instruction, or of a byte of its call.
    pub fn address(&self) -> u64
        ensures { result ≡ address_of_call self.now.context.ra self.now.signal }
    {
        address_asked(self.context.ra, self.signal)
    }
}

// a register's place among a context's, which is its column
fn column(register: Register) -> usize
    ensures is { result ≡ column_at (register_number register) }
    ensures fits { result < 16 }
{
    match register {
        Register::RAX => RAX,
        Register::RCX => RCX,
        Register::RDX => RDX,
        Register::RBX => RBX,
        Register::RSP => RSP,
        Register::RBP => RBP,
        Register::RSI => RSI,
        Register::RDI => RDI,
        Register::R8 => R8,
        Register::R9 => R9,
        Register::R10 => R10,
        Register::R11 => R11,
        Register::R12 => R12,
        Register::R13 => R13,
        Register::R14 => R14,
        Register::R15 => R15,
    }
}

// the word of the stack at an address that isn't in a window
#[cold]
#[inline(never)]
fn far_word(image: &MemoryImage<'_>, address: u64) -> Option<u64>
    ensures { result ≡ word_at image.now address }
{
    image.read_u64(address)
}

// The registers that are unwound, and a window over the memory that the stack is part of. Of XMM
// registers, whose values a caller doesn't get, nothing is kept but what proofs see.
#[derive(Drop)]
pub(crate) struct Machine<'w, 'i, 'a> {
    pub(crate) context: Context,
    pub(crate) xmm_writes: XmmWrites,
    pub(crate) stack: &'w Window<'i, 'a>,
}

impl UnwindState for Machine<'_, '_, '_> {
    ghost use Rattle.memory_image.specs.Image.{word_at};
    ghost use Rattle.unwind_arch.specs.ContextViews.{columns_of};
    ghost use Rattle.format_definitions.specs.PeRegisters.{registers_in};
    ghost use Rattle.format_frames.specs.Xmm.{xmm_after};

    ghost registers = { λ machine register. (registers_in (columns_of machine.context)).general
        register };

    ghost xmm_registers = { λ machine. xmm_after machine.xmm_writes.writes };

    ghost stack = { λ machine address. word_at machine.stack.now address };

    fn read_register(&mut self, register: Register) -> u64 {
        self.context.registers[column(register)]
    }

    #[inline(always)]
    fn read_stack(&mut self, addr: u64) -> Option<u64> {
        match self.stack.read_u64(addr) {
            Some(word) => Some(word),
            None => far_word(self.stack.image(), addr),
        }
    }

    #[tactic(auto, using(crate::proofs::PeRegisters::register_written))]
    fn write_register(&mut self, register: Register, value: u64) {
        self.context.registers[column(register)] = value;
    }

    fn write_xmm_register(&mut self, register: XmmRegister, value: u128) {
        self.xmm_writes.note(register as u8, value);
    }
}
