// The opcodes of x86-64.
ghost use Rattle.std.specs.Prelude.{◌≡◌, Some, None, map, option_map};
ghost use Rattle.std.specs.Fmt.{WritesOnOk};
ghost use Rattle.macho_unwind_info.specs.Bits.{bits};
ghost use Rattle.macho_unwind_info.specs.Permutation.{permutation};
ghost use Rattle.macho_unwind_info.specs.X86_64.{register_of, name_of, fields_of, opcode_of};
ghost use Rattle.macho_unwind_info.specs.X86_64.{text_of, frame_based_text, frameless_text};

use super::bitfield::{OpcodeBitfield, bits};
use super::permutation::decode_permutation_6;
use super::text::{
    Named, write_fields, write_frame, write_indirect, write_registers, write_return, write_size,
};
use crate::raw::consts::{
    OPCODE_KIND_NULL, OPCODE_KIND_X86_DWARF, OPCODE_KIND_X86_FRAMEBASED,
    OPCODE_KIND_X86_FRAMELESS_IMMEDIATE, OPCODE_KIND_X86_FRAMELESS_INDIRECT,
};
use std::fmt;

/// A register that an opcode of x86-64 can name.
#[derive(Clone, Copy, Debug, PartialEq, Eq)]
pub enum RegisterNameX86_64 {
    /// RBX, number 1 in an opcode and 3 in DWARF.
    Rbx,
    /// R12, number 2 in an opcode and 12 in DWARF.
    R12,
    /// R13, number 3 in an opcode and 13 in DWARF.
    R13,
    /// R14, number 4 in an opcode and 14 in DWARF.
    R14,
    /// R15, number 5 in an opcode and 15 in DWARF.
    R15,
    /// RBP, number 6 in an opcode and 6 in DWARF.
    Rbp,
}

/// The registers by their numbers. An opcode's parts that list registers are decoded often, and a row
/// of this table is read faster than one of six numbers is told from the others.
static REGISTERS: [Option<RegisterNameX86_64>; 7] = [
    None,
    Some(RegisterNameX86_64::Rbx),
    Some(RegisterNameX86_64::R12),
    Some(RegisterNameX86_64::R13),
    Some(RegisterNameX86_64::R14),
    Some(RegisterNameX86_64::R15),
    Some(RegisterNameX86_64::Rbp),
];

impl RegisterNameX86_64 {
    /// The register of a number from 1 to 6, and None for any other number.
    pub fn parse(n: u8) -> Option<Self>
        ensures { result ≡ register_of n }
    {
        match REGISTERS.get(usize::from(n)) {
            Some(register) => *register,
            None => None,
        }
    }

    /// The register by its number in DWARF, as `reg3`.
    pub fn dwarf_name(&self) -> &'static str
        ensures { result.now ≡ name_of self.now }
    {
        match self {
            RegisterNameX86_64::Rbx => "reg3",
            RegisterNameX86_64::R12 => "reg12",
            RegisterNameX86_64::R13 => "reg13",
            RegisterNameX86_64::R14 => "reg14",
            RegisterNameX86_64::R15 => "reg15",
            RegisterNameX86_64::Rbp => "reg6",
        }
    }
}

impl Named for RegisterNameX86_64 {
    ghost name = { name_of };

    fn name(&self) -> &'static str {
        self.dwarf_name()
    }
}

/// How a function's frame is undone on x86-64.
#[derive(Clone, Debug, PartialEq, Eq, Drop)]
pub enum OpcodeX86_64 {
    /// No unwind information.
    Null,
    /// RBP was pushed and set to the stack pointer, so the CFA is RBP + 16.
    FrameBased {
        /// How far below RBP the lowest saved register lies. A multiple of 8 in what `parse` gives.
        stack_offset_in_bytes: u16,
        /// The registers by their slots, the lowest slot last. None is a slot without a register.
        saved_regs: [Option<RegisterNameX86_64>; 5],
    },
    /// The CFA is the stack pointer plus a size.
    FramelessImmediate {
        /// The size, the return address's slot included.
        stack_size_in_bytes: u16,
        /// The registers in the order of their slots upwards, the last one below the return
        /// address.
        saved_regs: [Option<RegisterNameX86_64>; 6],
    },
    /// The CFA is the stack pointer plus a size that an instruction of the function holds.
    FramelessIndirect {
        /// Where the instruction's four bytes of the size lie, from the function's start.
        immediate_offset_from_function_start: u8,
        /// What is added to that size.
        stack_adjust_in_bytes: u8,
        /// The registers in the order of their slots upwards, the last one below the return
        /// address.
        saved_regs: [Option<RegisterNameX86_64>; 6],
    },
    /// An entry of `.eh_frame` describes the function.
    Dwarf {
        /// The entry's offset in the section, in bytes.
        eh_frame_fde: u32,
    },
    /// The kind of a frame without a frame pointer, with a number that spells no registers.
    InvalidFrameless,
    /// Another kind.
    UnrecognizedKind(u8),
}

impl OpcodeX86_64 {
    /// What the 32 bits of an opcode mean on x86-64.
    pub fn parse(opcode: u32) -> Self
        ensures { result ≡ opcode_of opcode }
    {
        match OpcodeBitfield::new(opcode).kind() {
            OPCODE_KIND_NULL => OpcodeX86_64::Null,
            OPCODE_KIND_X86_FRAMEBASED => OpcodeX86_64::FrameBased {
                stack_offset_in_bytes: bits(opcode, 16, 8) as u16 * 8,
                saved_regs: fields_of(opcode),
            },
            OPCODE_KIND_X86_FRAMELESS_IMMEDIATE => match registers_of(opcode) {
                Some(saved_regs) => OpcodeX86_64::FramelessImmediate {
                    stack_size_in_bytes: bits(opcode, 16, 8) as u16 * 8,
                    saved_regs,
                },
                None => OpcodeX86_64::InvalidFrameless,
            },
            OPCODE_KIND_X86_FRAMELESS_INDIRECT => match registers_of(opcode) {
                Some(saved_regs) => OpcodeX86_64::FramelessIndirect {
                    immediate_offset_from_function_start: bits(opcode, 16, 8) as u8,
                    stack_adjust_in_bytes: bits(opcode, 13, 3) as u8 * 8,
                    saved_regs,
                },
                None => OpcodeX86_64::InvalidFrameless,
            },
            OPCODE_KIND_X86_DWARF => OpcodeX86_64::Dwarf {
                eh_frame_fde: bits(opcode, 0, 24),
            },
            kind => OpcodeX86_64::UnrecognizedKind(kind),
        }
    }
}

/// The registers of the five fields, the highest field first.
fn fields_of(opcode: u32) -> [Option<RegisterNameX86_64>; 5]
    ensures { result ≡ fields_of opcode }
{
    [
        RegisterNameX86_64::parse(bits(opcode, 12, 3) as u8),
        RegisterNameX86_64::parse(bits(opcode, 9, 3) as u8),
        RegisterNameX86_64::parse(bits(opcode, 6, 3) as u8),
        RegisterNameX86_64::parse(bits(opcode, 3, 3) as u8),
        RegisterNameX86_64::parse(bits(opcode, 0, 3) as u8),
    ]
}

/// The registers that an opcode's count and number spell, if they spell any.
#[inline(always)]
fn registers_of(opcode: u32) -> Option<[Option<RegisterNameX86_64>; 6]>
    ensures { result ≡ option_map (map register_of)
        (permutation (bits opcode 10 3) (bits opcode 0 10)) }
{
    match decode_permutation_6(bits(opcode, 10, 3), bits(opcode, 0, 10)) {
        Ok(numbers) => Some([
            RegisterNameX86_64::parse(numbers[0]),
            RegisterNameX86_64::parse(numbers[1]),
            RegisterNameX86_64::parse(numbers[2]),
            RegisterNameX86_64::parse(numbers[3]),
            RegisterNameX86_64::parse(numbers[4]),
            RegisterNameX86_64::parse(numbers[5]),
        ]),
        Err(()) => None,
    }
}

impl fmt::Display for OpcodeX86_64 {
    ghost output = { λ opcode. Some (text_of opcode) };

    fn fmt<W: fmt::Write>(&self, f: &mut fmt::Formatter<W>) -> fmt::Result {
        match self {
            OpcodeX86_64::Null => write!(f, "(uncovered)"),
            OpcodeX86_64::FrameBased {
                stack_offset_in_bytes,
                saved_regs,
            } => write_frame_based(f, *stack_offset_in_bytes, saved_regs),
            OpcodeX86_64::FramelessImmediate {
                stack_size_in_bytes,
                saved_regs,
            } => {
                write_size(f, *stack_size_in_bytes)?;
                write_frameless(f, saved_regs)
            }
            OpcodeX86_64::FramelessIndirect {
                immediate_offset_from_function_start,
                stack_adjust_in_bytes,
                saved_regs,
            } => {
                write_indirect(
                    f,
                    *immediate_offset_from_function_start,
                    *stack_adjust_in_bytes,
                )?;
                write_frameless(f, saved_regs)
            }
            OpcodeX86_64::Dwarf { eh_frame_fde } => {
                write!(f, "(check eh_frame FDE 0x{eh_frame_fde:x})")
            }
            OpcodeX86_64::InvalidFrameless => write!(
                f,
                "!! frameless immediate or indirect with invalid permutation encoding"
            ),
            OpcodeX86_64::UnrecognizedKind(kind) => write!(f, "!! Unrecognized kind {kind}"),
        }
    }
}

/// A frame with a frame pointer: the fields that have a slot, from the lowest field up.
fn write_frame_based<W: fmt::Write>(
    f: &mut fmt::Formatter<W>,
    offset: u16,
    saved: &[Option<RegisterNameX86_64>; 5],
) -> fmt::Result
    ensures { WritesOnOk W.write_str_gives f.old result (frame_based_text offset saved.now) f.new }
{
    write_frame(f, 8)?;
    let [fifth, fourth, third, second, first] = *saved;
    let fields = [first, second, third, fourth, fifth];
    let count = usize::from(offset / 8).min(5);
    write_fields(f, 8, u32::from(offset) + 16, &fields[..count])
}

/// What the two kinds of frames without a frame pointer have in common: the slots of the return
/// address and of the registers, from the last register back.
fn write_frameless<W: fmt::Write>(
    f: &mut fmt::Formatter<W>,
    saved: &[Option<RegisterNameX86_64>; 6],
) -> fmt::Result
    ensures { WritesOnOk W.write_str_gives f.old result (frameless_text saved.now) f.new }
{
    write_return(f, 8)?;
    let [sixth, fifth, fourth, third, second, first] = *saved;
    write_registers(f, 8, 16, &[first, second, third, fourth, fifth, sixth])
}
