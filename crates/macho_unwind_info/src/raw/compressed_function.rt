// The two numbers of a compressed entry.
ghost use Rattle.std.specs.Prelude.{◌≡◌};
ghost use Rattle.macho_unwind_info.specs.Compressed.{opcode_index, relative_address};

use crate::num_display::HexNum;
use std::fmt;

/// An entry of a compressed page: the index of an opcode in the top 8 bits, and in the lower 24
/// the distance of the function's start from the page's first address.
#[derive(Clone, Copy, PartialEq, Eq)]
pub struct CompressedFunctionEntry(pub u32);

impl CompressedFunctionEntry {
    /// The entry that a word is.
    pub fn new(value: u32) -> Self
        ensures { result.0 ≡ value }
    {
        Self(value)
    }

    /// The index of the opcode: below the number of global opcodes a global one, else that many
    /// more than the index of one of the page's own.
    pub fn opcode_index(&self) -> u8
        ensures { result ≡ opcode_index self.now.0 }
    {
        (self.0 >> 24) as u8
    }

    /// The distance of the function's start from the page's first address, in bytes.
    pub fn relative_address(&self) -> u32
        ensures { result ≡ relative_address self.now.0 }
    {
        self.0 % 0x0100_0000
    }
}

impl From<u32> for CompressedFunctionEntry {
    ghost from_gives = { λ n entry. entry.0 ≡ n };

    fn from(entry: u32) -> CompressedFunctionEntry {
        CompressedFunctionEntry::new(entry)
    }
}

impl fmt::Debug for CompressedFunctionEntry {
    fn fmt<W: fmt::Write>(&self, f: &mut fmt::Formatter<W>) -> fmt::Result {
        f.debug_struct("CompressedFunctionEntry")
            .field("opcode_index", &HexNum(self.opcode_index()))
            .field("relative_address", &HexNum(self.relative_address()))
            .finish()
    }
}
