// The opcodes of arm64.
ghost use Rattle.std.specs.Prelude.{◌≡◌, ◌+◌, ◌*◌, ◌<◌, ◌^◌, Some, length};
ghost use Rattle.std.specs.Fmt.{WritesOnOk};
ghost use Rattle.macho_unwind_info.specs.Bits.{bits};
ghost use Rattle.macho_unwind_info.specs.Arm64.{is_saved, frame_based, opcode_of, text_of};
ghost use Rattle.macho_unwind_info.specs.Arm64.{size_text, pair_text, pairs_text, frame_text};

use super::bitfield::{OpcodeBitfield, bits};
use crate::raw::consts::{
    OPCODE_KIND_ARM64_DWARF, OPCODE_KIND_ARM64_FRAMEBASED, OPCODE_KIND_ARM64_FRAMELESS,
    OPCODE_KIND_NULL,
};
use std::fmt;

/// How a function's frame is undone on arm64.
#[derive(Clone, Copy, Debug, PartialEq, Eq)]
pub enum OpcodeArm64 {
    /// No unwind information.
    Null,
    /// The CFA is the stack pointer plus a size, and the return address is in the link register.
    Frameless {
        /// The size. A multiple of 16 in what `parse` gives.
        stack_size_in_bytes: u16,
    },
    /// An entry of `.eh_frame` describes the function.
    Dwarf {
        /// The entry's offset in the section, in bytes.
        eh_frame_fde: u32,
    },
    /// x29 and x30 were pushed and x29 was set to the stack pointer, so the CFA is x29 + 16. Below
    /// them lie the pairs of registers that were pushed, in this order.
    FrameBased {
        /// How many of the pairs were pushed.
        saved_reg_pair_count: u8,
        /// Bit 8.
        d14_and_d15_saved: bool,
        /// Bit 7.
        d12_and_d13_saved: bool,
        /// Bit 6.
        d10_and_d11_saved: bool,
        /// Bit 5.
        d8_and_d9_saved: bool,
        /// Bit 4.
        x27_and_x28_saved: bool,
        /// Bit 3.
        x25_and_x26_saved: bool,
        /// Bit 2.
        x23_and_x24_saved: bool,
        /// Bit 1.
        x21_and_x22_saved: bool,
        /// Bit 0.
        x19_and_x20_saved: bool,
    },
    /// Another kind.
    UnrecognizedKind(u8),
}

impl OpcodeArm64 {
    /// What the 32 bits of an opcode mean on arm64.
    pub fn parse(opcode: u32) -> Self
        ensures { result ≡ opcode_of opcode }
    {
        match OpcodeBitfield::new(opcode).kind() {
            OPCODE_KIND_NULL => OpcodeArm64::Null,
            OPCODE_KIND_ARM64_FRAMELESS => OpcodeArm64::Frameless {
                stack_size_in_bytes: bits(opcode, 12, 12) as u16 * 16,
            },
            OPCODE_KIND_ARM64_DWARF => OpcodeArm64::Dwarf {
                eh_frame_fde: bits(opcode, 0, 24),
            },
            OPCODE_KIND_ARM64_FRAMEBASED => frame_based(opcode),
            kind => OpcodeArm64::UnrecognizedKind(kind),
        }
    }
}

/// Whether the pair of a bit was pushed.
fn is_saved(opcode: u32, bit: u32) -> bool
    requires { bit < 32 }
    ensures { result ≡ is_saved opcode bit }
{
    bits(opcode, bit, 1) == 1
}

fn frame_based(opcode: u32) -> OpcodeArm64
    ensures { result ≡ frame_based opcode }
{
    OpcodeArm64::FrameBased {
        saved_reg_pair_count: bits(opcode, 0, 9).count_ones() as u8,
        d14_and_d15_saved: is_saved(opcode, 8),
        d12_and_d13_saved: is_saved(opcode, 7),
        d10_and_d11_saved: is_saved(opcode, 6),
        d8_and_d9_saved: is_saved(opcode, 5),
        x27_and_x28_saved: is_saved(opcode, 4),
        x25_and_x26_saved: is_saved(opcode, 3),
        x23_and_x24_saved: is_saved(opcode, 2),
        x21_and_x22_saved: is_saved(opcode, 1),
        x19_and_x20_saved: is_saved(opcode, 0),
    }
}

/// A register and the next one, and whether they were pushed.
#[derive(Clone, Copy)]
struct Pair {
    saved: bool,
    register: u8,
}

impl Pair {
    fn new(saved: bool, register: u8) -> Pair
        ensures { result ≡ record { saved = saved; register = register } }
    {
        Pair { saved, register }
    }
}

impl fmt::Display for OpcodeArm64 {
    ghost output = { λ opcode. Some (text_of opcode) };

    fn fmt<W: fmt::Write>(&self, f: &mut fmt::Formatter<W>) -> fmt::Result {
        match *self {
            OpcodeArm64::Null => write!(f, "(uncovered)"),
            OpcodeArm64::Frameless {
                stack_size_in_bytes,
            } => write_size(f, stack_size_in_bytes),
            OpcodeArm64::Dwarf { eh_frame_fde } => {
                write!(f, "(check eh_frame FDE 0x{eh_frame_fde:x})")
            }
            OpcodeArm64::FrameBased {
                d14_and_d15_saved,
                d12_and_d13_saved,
                d10_and_d11_saved,
                d8_and_d9_saved,
                x27_and_x28_saved,
                x25_and_x26_saved,
                x23_and_x24_saved,
                x21_and_x22_saved,
                x19_and_x20_saved,
                ..
            } => write_frame(
                f,
                &[
                    Pair::new(d14_and_d15_saved, 14),
                    Pair::new(d12_and_d13_saved, 12),
                    Pair::new(d10_and_d11_saved, 10),
                    Pair::new(d8_and_d9_saved, 8),
                    Pair::new(x27_and_x28_saved, 27),
                    Pair::new(x25_and_x26_saved, 25),
                    Pair::new(x23_and_x24_saved, 23),
                    Pair::new(x21_and_x22_saved, 21),
                    Pair::new(x19_and_x20_saved, 19),
                ],
            ),
            OpcodeArm64::UnrecognizedKind(kind) => write!(f, "!! Unrecognized kind {kind}"),
        }
    }
}

/// The stack pointer plus a size as CFA.
fn write_size<W: fmt::Write>(f: &mut fmt::Formatter<W>, size: u16) -> fmt::Result
    ensures { WritesOnOk W.write_str_gives f.old result (size_text size) f.new }
{
    if size == 0 {
        write!(f, "CFA=reg31")
    } else {
        write!(f, "CFA=reg31+{size}")
    }
}

/// The frame pointer as CFA, its own slot and that of the link register, and the pairs below.
fn write_frame<W: fmt::Write>(f: &mut fmt::Formatter<W>, pairs: &[Pair]) -> fmt::Result
    requires { 16 * length pairs.now < 2 ^ 16 }
    ensures { WritesOnOk W.write_str_gives f.old result (frame_text pairs.now) f.new }
{
    write!(f, "CFA=reg29+16: reg29=[CFA-16], reg30=[CFA-8]")?;
    write_pairs(f, 32, pairs)
}

/// The pairs that were pushed, each 16 farther below the CFA than the one before.
fn write_pairs<W: fmt::Write>(
    f: &mut fmt::Formatter<W>,
    mut below: u32,
    pairs: &[Pair],
) -> fmt::Result
    requires { below + 16 * length pairs.now < 2 ^ 31 }
    ensures { WritesOnOk W.write_str_gives f.old result (pairs_text below pairs.now) f.new }
{
    for pair in pairs {
        if !pair.saved {
            continue;
        }
        write_pair(f, pair.register, below)?;
        below += 16;
    }
    Ok(())
}

/// A register and the next one, the first in the word so far below the CFA.
fn write_pair<W: fmt::Write>(f: &mut fmt::Formatter<W>, register: u8, below: u32) -> fmt::Result
    requires { below < 2 ^ 31 }
    ensures { WritesOnOk W.write_str_gives f.old result (pair_text register below) f.new }
{
    write!(f, ", reg{register}=[CFA-{below}]")?;
    let next = u16::from(register) + 1;
    let farther = below + 8;
    write!(f, ", reg{next}=[CFA-{farther}]")
}
