//! Rows and faults of programs that tools made. Expected rows are what `readelf
//! --debug-dump=frames-interp` prints for the same bytes.
use encoded_pointers::{Bases, Cursor, DwEhPe};
use frame_rows::{CfaRule, Coding, Error, Register, RegisterRule, Row, row_at};
use std::alloc::{AllocError, Global};
use std::test::Fail;

const RBX: Register = Register(3);

const RBP: Register = Register(6);

const RSP: Register = Register(7);

const RA: Register = Register(16);

// What each function begins with, by its common information entry.
const COMMON: &[u8] = &[0x0c, 0x07, 0x08, 0x90, 0x01, 0, 0];

// What `as` makes of a function of 16 bytes that pushes RBX.
const PUSH: &[u8] = &[0x41, 0x0e, 0x10, 0x83, 0x02, 0, 0];

// What `gcc -O2` makes of a function of 62 bytes that saves RBP and RBX and has two ends, the first
// inside a remembered state.
const TWO_ENDS: &[u8] = &[
    0x41, 0x0e, 0x10, 0x86, 0x02, 0x43, 0x0e, 0x18, 0x83, 0x03, 0x46, 0x0e, 0x40, 0x50, 0x0a, 0x0e,
    0x18, 0x44, 0x0e, 0x10, 0x41, 0x0e, 0x08, 0x41, 0x0b, 0x58, 0x0e, 0x18, 0x44, 0x0e, 0x10, 0x41,
    0x0e, 0x08, 0, 0, 0, 0, 0,
];

fn row_of(own: &'static [u8], start: u64, pc: u64) -> Result<Row<'static>, Error> {
    let coding = Coding {
        code_factor: 1,
        data_factor: 0u64.wrapping_sub(8),
        address: DwEhPe::ABSPTR,
        bases: &Bases::default(),
    };
    row_at(
        Cursor::from_offset(COMMON, 0x500000, 0),
        Cursor::from_offset(own, 0x500000, 0),
        coding,
        start,
        pc,
    )
}

// The CFA is RSP and an offset, and registers are saved at offsets below it.
struct Shown {
    own: &'static [u8],
    start: u64,
    pc: u64,
    offset: u64,
    saved: &'static [(Register, u64)],
}

const SHOWN: &[Shown] = &[
    // before a push, and after it
    Shown {
        own: PUSH,
        start: 0x401000,
        pc: 0x401000,
        offset: 8,
        saved: &[(RA, 8)],
    },
    Shown {
        own: PUSH,
        start: 0x401000,
        pc: 0x401001,
        offset: 16,
        saved: &[(RBX, 16), (RA, 8)],
    },
    Shown {
        own: PUSH,
        start: 0x401000,
        pc: 0x401005,
        offset: 16,
        saved: &[(RBX, 16), (RA, 8)],
    },
    // around a remembered state
    Shown {
        own: TWO_ENDS,
        start: 0x402000,
        pc: 0x402019,
        offset: 64,
        saved: &[(RBX, 24), (RBP, 16), (RA, 8)],
    },
    Shown {
        own: TWO_ENDS,
        start: 0x402000,
        pc: 0x40201f,
        offset: 8,
        saved: &[(RBX, 24), (RBP, 16), (RA, 8)],
    },
    Shown {
        own: TWO_ENDS,
        start: 0x402000,
        pc: 0x402020,
        offset: 64,
        saved: &[(RBX, 24), (RBP, 16), (RA, 8)],
    },
];

// The registers come in this order, and each has the rule that it comes with.
fn has_saved(row: &Row<'_>, saved: &[(Register, u64)]) -> bool {
    for ((register, rule), (named, distance)) in row.registers().zip(saved) {
        let wanted = RegisterRule::Offset(below(*distance));
        if register != *named || rule != wanted || row.register(register) != Some(wanted) {
            return false;
        }
    }
    row.registers().count() == saved.len()
}

fn shows(row: &Row<'_>, shown: &Shown) -> bool {
    row.cfa() == stack_pointer_and(shown.offset)
        && row.saved_args_size() == 0
        && row.register(Register(1)).is_none()
        && has_saved(row, shown.saved)
}

fn is_shown(shown: &Shown) -> bool {
    match row_of(shown.own, shown.start, shown.pc) {
        Ok(row) => shows(&row, shown),
        Err(_) => false,
    }
}

#[test]
fn rows_of_tools(rt: HostRuntime) {
    for shown in SHOWN {
        assert!(rt; is_shown(shown));
    }
}

// Where an instruction stands in a function at 0x401000, and the row there: the CFA, the rule of RBX,
// and the size of the arguments.
struct Case {
    own: &'static [u8],
    distance: u64,
    cfa: CfaRule<'static>,
    rbx: Option<RegisterRule<'static>>,
    arguments: u64,
}

fn stack_pointer_and(offset: u64) -> CfaRule<'static> {
    CfaRule::RegisterAndOffset {
        register: RSP,
        offset,
    }
}

fn below(distance: u64) -> u64 {
    0u64.wrapping_sub(distance)
}

fn is_row(row: &Row<'_>, cfa: CfaRule<'_>, rbx: Option<RegisterRule<'_>>, arguments: u64) -> bool {
    row.cfa() == cfa
        && row.register(RBX) == rbx
        && row.register(RA) == Some(RegisterRule::Offset(below(8)))
        && row.saved_args_size() == arguments
}

fn has_row(
    own: &'static [u8],
    distance: u64,
    cfa: CfaRule<'static>,
    rbx: Option<RegisterRule<'static>>,
    arguments: u64,
) -> bool {
    match row_of(own, 0x401000, 0x401000u64.wrapping_add(distance)) {
        Ok(row) => is_row(&row, cfa, rbx, arguments),
        Err(_) => false,
    }
}

// `readelf` prints no size of arguments, and the set location can't be seen in its rows at once: these
// are by DWARF 5 section 6.4.2 alone.
const RULES: &[(&[u8], Option<RegisterRule<'static>>)] = &[
    (&[0x05, 3, 2], Some(RegisterRule::Offset(MINUS_16))),
    (&[0x83, 2, 0x06, 3], None),
    (&[0x07, 3], Some(RegisterRule::Undefined)),
    (&[0x08, 3], Some(RegisterRule::SameValue)),
    (&[0x09, 3, 5], Some(RegisterRule::Register(Register(5)))),
    (&[0x11, 3, 0x7e], Some(RegisterRule::Offset(16))),
    (&[0x14, 3, 2], Some(RegisterRule::ValOffset(MINUS_16))),
    (&[0x15, 3, 0x7e], Some(RegisterRule::ValOffset(16))),
    (
        &[0x10, 3, 2, 0x23, 8],
        Some(RegisterRule::Expression(b"\x23\x08")),
    ),
    (
        &[0x16, 3, 2, 0x23, 8],
        Some(RegisterRule::ValExpression(b"\x23\x08")),
    ),
    // the initial rule of the return address
    (&[0x90, 2, 0x06, 16], None),
];

const MINUS_16: u64 = u64::MAX - 15;

#[test]
fn rules_of_registers(rt: HostRuntime) {
    for (own, rbx) in RULES {
        assert!(rt; has_row(own, 0, stack_pointer_and(8), *rbx, 0));
    }
}

// How far from the function's start the offset of the CFA is so.
const OFFSETS: &[(&[u8], u64, u64)] = &[
    (&[0x12, 7, 0x7e], 0, 16),
    (&[0x13, 0x7e], 0, 16),
    (&[0x02, 10, 0x0e, 16], 9, 8),
    (&[0x02, 10, 0x0e, 16], 10, 16),
    (&[0x03, 3, 1, 0x0e, 16], 0x102, 8),
    (&[0x03, 3, 1, 0x0e, 16], 0x103, 16),
    (&[0x01, 8, 0x10, 0x40, 0, 0, 0, 0, 0, 0x0e, 16], 7, 8),
    (&[0x01, 8, 0x10, 0x40, 0, 0, 0, 0, 0, 0x0e, 16], 8, 16),
];

#[test]
fn the_cfa_and_the_arguments(rt: HostRuntime) {
    for (own, distance, offset) in OFFSETS {
        assert!(rt; has_row(own, *distance, stack_pointer_and(*offset), None, 0));
    }
    assert!(rt;
        has_row(
            b"\x0f\x02\x77\x08",
            0,
            CfaRule::Expression(b"\x77\x08"),
            None,
            0
        )
    );
    assert!(rt; has_row(b"\x2e\x10", 0, stack_pointer_and(8), None, 16));
}

// Why a program has no row at its end, after one that says nothing.
fn fault_of(own: &[u8]) -> Option<Error> {
    let common = Cursor::from_offset(&[], 0, 0);
    let coding = Coding {
        code_factor: 1 << 33,
        data_factor: 8,
        address: DwEhPe::ABSPTR,
        bases: &Bases::default(),
    };
    row_at(
        common,
        Cursor::from_offset(own, 0, 0),
        coding,
        0x401000,
        u64::MAX,
    )
    .err()
}

const FAULTS: &[(&[u8], Option<Error>)] = &[
    (&[0x0c, 0x07, 0x08], None),
    (&[], Some(Error::NoCfaRegister)),
    (&[0x0e, 0x10], Some(Error::NoCfaRegister)),
    (&[0x0a, 0x0a], Some(Error::StackFull)),
    (&[0x0b], Some(Error::PopWithEmptyStack)),
    (
        &[0x04, 0xff, 0xff, 0xff, 0xff],
        Some(Error::AddressOverflow),
    ),
    (&[0x3f], Some(Error::UnknownInstruction)),
    (&[0x0e], Some(Error::UnexpectedEof)),
    (&[0x07, 0x80, 0x80, 0x04], Some(Error::UnsupportedRegister)),
    (&[0x0c, 0x07, 0x08, 0x41, 0x0a, 0x0b], None),
    (
        &[0x01, 0, 0, 0, 0, 0, 0, 0, 0],
        Some(Error::LocationGoesBack),
    ),
    (&[0x01, 0, 0], Some(Error::UnexpectedEof)),
    (&[0x0f, 1, 0x30, 0x0e, 8], Some(Error::NoCfaRegister)),
    (&[0x13, 8], Some(Error::NoCfaRegister)),
    (&[0x10, 3, 2, 0x30], Some(Error::UnexpectedEof)),
    (&[0x17], Some(Error::UnknownInstruction)),
    (&[0x2f, 3, 8], Some(Error::UnknownInstruction)),
];

#[test]
fn faults(rt: HostRuntime) {
    for (own, wanted) in FAULTS {
        assert!(rt; fault_of(own) == *wanted);
    }
}

// A CFA, rules of 32 registers, and further bytes.
fn with_32_rules(alloc: Global, further: &[u8]) -> Result<Vec<u8>, AllocError> {
    let mut own = vec![in alloc; 0x0cu8, 0x07, 0x08]?;
    for register in 0..32 {
        own.extend_from_slice(&[0x07, register])?;
    }
    own.extend_from_slice(further)?;
    Ok(own)
}

const FURTHER: &[(&[u8], Option<Error>)] = &[
    (&[], None),
    (&[0x07, 0x05], None),
    (&[0x07, 0x05, 0x07, 0x20], Some(Error::TooManyRegisterRules)),
    (&[0x07, 0x05, 0xc5, 0x07, 0x20], None),
];

#[test]
fn a_33rd_rule(rt: HostRuntime) -> Result<(), Fail> {
    for (further, wanted) in FURTHER {
        let own = with_32_rules(rt.alloc(), further)?;
        assert!(rt; fault_of(&own) == *wanted);
    }
    Ok(())
}
