// Worked examples of compact unwinding.
use Machine::{Arm64, X86, X86_64};
use macho_unwind_info::opcodes::{
    OpcodeArm64, OpcodeBitfield, OpcodeX86, OpcodeX86_64, RegisterNameX86, RegisterNameX86_64,
    decode_permutation_6,
};
use macho_unwind_info::raw::consts::OPCODE_KIND_ARM64_DWARF;
use macho_unwind_info::raw::{CompressedFunctionEntry, HexNum, U16, U32};
use macho_unwind_info::{Error, Function, ReadError, UnwindInfo};
use std::alloc::{AllocError, Global};
use std::fmt::{Debug, Display};
use std::test::Fail;

// A compressed page at 0x1000 with two entries, the second of which names an opcode that isn't
// there; a regular page at 0x2000 with one entry; and the sentinel at 0x3000.
const SECTION: &[u8] = &[
    0x01, 0x00, 0x00, 0x00, 0x1c, 0x00, 0x00, 0x00, 0x01, 0x00, 0x00, 0x00, 0x00, 0x00, 0x00, 0x00,
    0x00, 0x00, 0x00, 0x00, 0x20, 0x00, 0x00, 0x00, 0x03, 0x00, 0x00, 0x00, 0x00, 0x00, 0x01, 0x02,
    0x00, 0x10, 0x00, 0x00, 0x44, 0x00, 0x00, 0x00, 0x00, 0x00, 0x00, 0x00, 0x00, 0x20, 0x00, 0x00,
    0x58, 0x00, 0x00, 0x00, 0x00, 0x00, 0x00, 0x00, 0x00, 0x30, 0x00, 0x00, 0x00, 0x00, 0x00, 0x00,
    0x00, 0x00, 0x00, 0x00, 0x03, 0x00, 0x00, 0x00, 0x0c, 0x00, 0x02, 0x00, 0x14, 0x00, 0x00, 0x00,
    0x00, 0x00, 0x00, 0x00, 0x00, 0x01, 0x00, 0x01, 0x02, 0x00, 0x00, 0x00, 0x08, 0x00, 0x01, 0x00,
    0x00, 0x20, 0x00, 0x00, 0x01, 0x00, 0x01, 0x01,
];

fn is_printed<D: Display>(alloc: Global, value: &D, text: &str) -> Result<bool, AllocError> {
    Ok(value.to_string(alloc)?.as_str() == text)
}

fn indirect_of_x86_64() -> OpcodeX86_64 {
    OpcodeX86_64::FramelessIndirect {
        immediate_offset_from_function_start: 13,
        stack_adjust_in_bytes: 56,
        saved_regs: [
            Some(RegisterNameX86_64::Rbx),
            Some(RegisterNameX86_64::R12),
            Some(RegisterNameX86_64::R13),
            Some(RegisterNameX86_64::R14),
            Some(RegisterNameX86_64::R15),
            Some(RegisterNameX86_64::Rbp),
        ],
    }
}

fn indirect_of_x86() -> OpcodeX86 {
    OpcodeX86::FramelessIndirect {
        immediate_offset_from_function_start: 13,
        stack_adjust_in_bytes: 28,
        saved_regs: [
            Some(RegisterNameX86::Ebx),
            Some(RegisterNameX86::Ecx),
            Some(RegisterNameX86::Edx),
            Some(RegisterNameX86::Edi),
            Some(RegisterNameX86::Esi),
            Some(RegisterNameX86::Ebp),
        ],
    }
}

#[test]
fn opcodes_without_a_frame_pointer(rt: HostRuntime) {
    assert!(rt; OpcodeX86_64::parse(0x030d_f800) == indirect_of_x86_64());
    assert!(rt; OpcodeX86::parse(0x030d_f800) == indirect_of_x86());
    assert!(rt; OpcodeX86_64::parse(0x0200_1c00) == OpcodeX86_64::InvalidFrameless);
}

type Permutation = (u32, u32, Result<[u8; 6], ()>);

const PERMUTATIONS: &[Permutation] = &[
    (5, 719, Ok([6, 5, 4, 3, 2, 0])),
    (5, 720, Err(())),
    (6, 719, Ok([6, 5, 4, 3, 2, 1])),
    (0, 1023, Ok([0; 6])),
    (7, 0, Err(())),
];

#[test]
fn permutations_are_decoded(rt: HostRuntime) {
    for (count, encoding, registers) in PERMUTATIONS {
        assert!(rt; decode_permutation_6(*count, *encoding) == *registers);
    }
}

const INVALID_PERMUTATION: &str =
    "!! frameless immediate or indirect with invalid permutation encoding";

// The machines of opcodes.
enum Machine {
    X86,
    X86_64,
    Arm64,
}

const PRINTED: &[(Machine, u32, &str)] = &[
    (X86, 0x0000_0000, "(uncovered)"),
    (
        X86,
        0x0102_0011,
        "CFA=reg6+8: reg6=[CFA-8], reg16=[CFA-4], reg3=[CFA-16], reg1=[CFA-12]",
    ),
    (
        X86,
        0x0203_0800,
        "CFA=reg7+12: reg16=[CFA-4], reg1=[CFA-8], reg3=[CFA-12]",
    ),
    (X86, 0x0200_0000, "CFA=reg7: reg16=[CFA-4]"),
    (
        X86,
        0x0305_2405,
        "CFA=[function_start+5]+4 reg16=[CFA-4], reg5=[CFA-8]",
    ),
    (X86, 0x0400_0abc, "(check eh_frame FDE 0xabc)"),
    (X86, 0x0200_1c00, INVALID_PERMUTATION),
    (X86, 0x0f00_0000, "!! Unrecognized kind 15"),
    (X86_64, 0x0000_0000, "(uncovered)"),
    (
        X86_64,
        0x0102_0011,
        "CFA=reg6+16: reg6=[CFA-16], reg16=[CFA-8], reg3=[CFA-32], reg12=[CFA-24]",
    ),
    (
        X86_64,
        0x0203_0800,
        "CFA=reg7+24: reg16=[CFA-8], reg12=[CFA-16], reg3=[CFA-24]",
    ),
    (X86_64, 0x0200_0000, "CFA=reg7: reg16=[CFA-8]"),
    (
        X86_64,
        0x0305_2405,
        "CFA=[function_start+5]+8 reg16=[CFA-8], reg6=[CFA-16]",
    ),
    (X86_64, 0x0400_0abc, "(check eh_frame FDE 0xabc)"),
    (X86_64, 0x0300_1c00, INVALID_PERMUTATION),
    (X86_64, 0x0f00_0000, "!! Unrecognized kind 15"),
    (
        X86_64,
        0x030d_f800,
        "CFA=[function_start+13]+56 reg16=[CFA-8], reg6=[CFA-16], reg15=[CFA-24], \
        reg14=[CFA-32], reg13=[CFA-40], reg12=[CFA-48], reg3=[CFA-56]",
    ),
    // of small sections: a frame with RBX stored, and a frameless function without registers
    (
        X86_64,
        0x0101_0001,
        "CFA=reg6+16: reg6=[CFA-16], reg16=[CFA-8], reg3=[CFA-24]",
    ),
    (X86_64, 0x0201_0000, "CFA=reg7+8: reg16=[CFA-8]"),
    // of the linked sections
    (
        X86_64,
        0x0105_58d1,
        "CFA=reg6+16: reg6=[CFA-16], reg16=[CFA-8], reg3=[CFA-56], reg12=[CFA-48], \
        reg13=[CFA-40], reg14=[CFA-32], reg15=[CFA-24]",
    ),
    (
        X86_64,
        0x020a_1800,
        "CFA=reg7+80: reg16=[CFA-8], reg6=[CFA-16], reg15=[CFA-24], reg14=[CFA-32], \
        reg13=[CFA-40], reg12=[CFA-48], reg3=[CFA-56]",
    ),
    (
        X86_64,
        0x0303_2000,
        "CFA=[function_start+3]+8 reg16=[CFA-8]",
    ),
    (
        X86_64,
        0x0204_0804,
        "CFA=reg7+32: reg16=[CFA-8], reg6=[CFA-16], reg3=[CFA-24]",
    ),
    (Arm64, 0x0000_0000, "(uncovered)"),
    (Arm64, 0x0200_1000, "CFA=reg31+16"),
    (Arm64, 0x0200_0000, "CFA=reg31"),
    (Arm64, 0x0300_0abc, "(check eh_frame FDE 0xabc)"),
    (
        Arm64,
        0x0400_0101,
        "CFA=reg29+16: reg29=[CFA-16], reg30=[CFA-8], reg14=[CFA-32], reg15=[CFA-40], reg19=[CFA-48], reg20=[CFA-56]",
    ),
    (
        Arm64,
        0x0400_0001,
        "CFA=reg29+16: reg29=[CFA-16], reg30=[CFA-8], reg19=[CFA-32], reg20=[CFA-40]",
    ),
    (Arm64, 0x0f00_0000, "!! Unrecognized kind 15"),
];

fn opcode_text(alloc: Global, machine: &Machine, opcode: u32) -> Result<String, AllocError> {
    match machine {
        X86 => OpcodeX86::parse(opcode).to_string(alloc),
        X86_64 => OpcodeX86_64::parse(opcode).to_string(alloc),
        Arm64 => OpcodeArm64::parse(opcode).to_string(alloc),
    }
}

#[test]
fn opcodes_are_printed(rt: HostRuntime) -> Result<(), Fail> {
    for (machine, opcode, text) in PRINTED {
        assert!(rt; opcode_text(rt.alloc(), machine, *opcode)?.as_str() == *text);
    }
    Ok(())
}

const FIRST: Function = Function {
    start_address: 0x1000,
    end_address: 0x1100,
    opcode: 0x0201_0000,
};

const LAST: Function = Function {
    start_address: 0x2000,
    end_address: 0x3000,
    opcode: 0x0101_0001,
};

type Answer = Result<Option<Function>, Error>;

const NO_OPCODE: Answer = Err(Error::ReadError(ReadError::LocalOpcodes));

const LOOKED_UP: &[(u32, Answer)] = &[
    (0x0fff, Ok(None)),
    (0x1000, Ok(Some(FIRST))),
    (0x10ff, Ok(Some(FIRST))),
    (0x1100, NO_OPCODE),
    (0x2000, Ok(Some(LAST))),
    (0x3000, Ok(None)),
];

fn are_looked_up(info: &UnwindInfo<'_>) -> bool {
    for (address, answer) in LOOKED_UP {
        if info.lookup(*address) != *answer {
            return false;
        }
    }
    (info.address_range().start, info.address_range().end) == (0x1000, 0x3000)
}

const LISTED: &[Answer] = &[
    Ok(Some(FIRST)),
    NO_OPCODE,
    Ok(Some(LAST)),
    Ok(None),
    Ok(None),
];

fn are_listed(info: &UnwindInfo<'_>) -> bool {
    let mut functions = info.functions();
    for answer in LISTED {
        if functions.next() != *answer {
            return false;
        }
    }
    true
}

#[test]
fn functions_are_looked_up_and_listed(rt: HostRuntime) -> Result<(), Fail> {
    let info = UnwindInfo::parse(SECTION)?;
    assert!(rt; are_looked_up(&info));
    assert!(rt; are_listed(&info));
    Ok(())
}

#[test]
fn words_are_ordered_by_their_bytes(rt: HostRuntime) {
    assert!(rt; U32::from(256) < U32::from(1));
    assert!(rt; u32::from(U32::from(0x0102_0304)) == 0x0102_0304);
    assert!(rt; U16::from(256) < U16::from(1));
    assert!(rt; u16::from(U16::from(0x0102)) == 0x0102);
    assert!(rt; OPCODE_KIND_ARM64_DWARF == 3);
}

fn is_shown<D: Debug>(alloc: Global, value: &D, text: &str) -> Result<bool, AllocError> {
    Ok(format!(in alloc; "{value:?}")?.as_str() == text)
}

#[test]
fn raw_words_are_printed(rt: HostRuntime) -> Result<(), Fail> {
    let alloc = rt.alloc();
    assert!(rt; is_shown(alloc, &U32::from(7), "7")?);
    assert!(rt; is_shown(alloc, &HexNum(255u8), "ff")?);
    let entry = CompressedFunctionEntry::new(0x0b00_00ff);
    let text = "CompressedFunctionEntry { opcode_index: b, relative_address: ff }";
    assert!(rt; is_shown(alloc, &entry, text)?);
    let bits = OpcodeBitfield::new(0xd400_0005);
    let text =
        "Opcode { kind: 4, is_function_start: true, has_lsda: true, personality_index: 1, specific_bits: 101 }";
    assert!(rt; is_shown(alloc, &bits, text)?);
    Ok(())
}

const ERRORS: &[(Error, &str)] = &[
    (
        Error::ReadError(ReadError::Header),
        "Read error: Could not read CompactUnwindInfoHeader",
    ),
    (
        Error::ReadError(ReadError::GlobalOpcodes),
        "Read error: Could not read global opcodes",
    ),
    (
        Error::ReadError(ReadError::Pages),
        "Read error: Could not read pages",
    ),
    (
        Error::ReadError(ReadError::RegularPage),
        "Read error: Could not read RegularPage",
    ),
    (
        Error::ReadError(ReadError::RegularPageFunctions),
        "Read error: Could not read RegularPage functions",
    ),
    (
        Error::ReadError(ReadError::CompressedPage),
        "Read error: Could not read CompressedPage",
    ),
    (
        Error::ReadError(ReadError::CompressedPageFunctions),
        "Read error: Could not read CompressedPage functions",
    ),
    (
        Error::ReadError(ReadError::LocalOpcodes),
        "Read error: Could not read local opcodes",
    ),
    (
        Error::ReadError(ReadError::PageKind),
        "Read error: Could not read page kind",
    ),
    (
        Error::ReadError(ReadError::Personalities),
        "Read error: Could not read personalities",
    ),
    (
        Error::ReadError(ReadError::Lsda),
        "Read error: Could not read language tables",
    ),
    (
        Error::InvalidPageEntryFirstAddress,
        "The page entry's first_address didn't match the address of its first function",
    ),
    (Error::InvalidPageKind, "Invalid page kind"),
    (Error::UnexpectedSentinelPage, "Unexpected sentinel page"),
    (Error::AddressOverflow, "Address overflow"),
];

#[test]
fn errors_are_printed(rt: HostRuntime) -> Result<(), Fail> {
    for (error, text) in ERRORS {
        assert!(rt; is_printed(rt.alloc(), error, text)?);
    }
    Ok(())
}
