// What the opcodes of all machines have in common.
ghost use Rattle.std.specs.Prelude.{◌≡◌, ◌<◌, ◌↔◌, IsTrue};
ghost use Rattle.macho_unwind_info.specs.Bits.{bits};

use crate::num_display::BinNum;
use std::fmt;

/// So many bits of a word, from a place on.
pub(super) fn bits(word: u32, from: u32, count: u32) -> u32
    requires from_in { from < 32 }
    requires count_in { count < 32 }
    ensures { result ≡ bits word from count }
{
    (word >> from) % (1 << count)
}

/// The parts of an opcode that mean the same on every machine.
#[derive(Drop)]
pub struct OpcodeBitfield(pub u32);

impl OpcodeBitfield {
    /// The parts of an opcode's 32 bits.
    pub fn new(value: u32) -> Self
        ensures { result.0 ≡ value }
    {
        Self(value)
    }

    /// Bit 31 as it stands. Apple's mark there means the opposite: that the entry is no function's
    /// start.
    pub fn is_function_start(&self) -> bool
        ensures { IsTrue result ↔ (bits self.now.0 31 1 ≡ 1) }
    {
        bits(self.0, 31, 1) == 1
    }

    /// Bit 30: whether the function has a language table.
    pub fn has_lsda(&self) -> bool
        ensures { IsTrue result ↔ (bits self.now.0 30 1 ≡ 1) }
    {
        bits(self.0, 30, 1) == 1
    }

    /// Bits 28 and 29: one more than the index of the function's personality, or 0 for none.
    pub fn personality_index(&self) -> u8
        ensures { result ≡ bits self.now.0 28 2 }
    {
        bits(self.0, 28, 2) as u8
    }

    /// Bits 24 to 27: the kind, which tells what the lower 24 bits mean on the machine.
    pub fn kind(&self) -> u8
        ensures { result ≡ bits self.now.0 24 4 }
    {
        bits(self.0, 24, 4) as u8
    }

    /// The lower 24 bits.
    pub fn specific_bits(&self) -> u32
        ensures { result ≡ bits self.now.0 0 24 }
    {
        bits(self.0, 0, 24)
    }
}

impl From<u32> for OpcodeBitfield {
    ghost from_gives = { λ n opcode. opcode.0 ≡ n };

    fn from(opcode: u32) -> OpcodeBitfield {
        OpcodeBitfield::new(opcode)
    }
}

impl fmt::Debug for OpcodeBitfield {
    fn fmt<W: fmt::Write>(&self, f: &mut fmt::Formatter<W>) -> fmt::Result {
        f.debug_struct("Opcode")
            .field("kind", &self.kind())
            .field("is_function_start", &self.is_function_start())
            .field("has_lsda", &self.has_lsda())
            .field("personality_index", &self.personality_index())
            .field("specific_bits", &BinNum(self.specific_bits()))
            .finish()
    }
}
