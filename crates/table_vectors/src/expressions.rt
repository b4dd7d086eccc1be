//! Values and faults that an evaluator written in Python from the standard finds for the same
//! bytes.

ghost use Rattle.std.specs.Prelude.{Some, None, ◌==◌};
ghost use Rattle.std.specs.Prelude.{if◌then◌else◌};

use crate::asserting::expect_equal;
use frame_expressions::*;
use memory_image::{ImageError, MemoryImage};
use std::alloc::Global;
use std::process::Abort;
use unwind_arch::{Register, RegisterMap};

/// Four registers, by their columns on x86-64.
#[derive(Clone, Copy)]
struct Registers {
    rax: u64,
    rbx: u64,
    rsp: u64,
    mxcsr: u64,
}

impl RegisterMap for Registers {
    type Word = u64;

    ghost columns = { λ r k. if k == 0 then Some r.rax else
        (if k == 3 then Some r.rbx else
        (if k == 7 then Some r.rsp else (if k == 64 then Some r.mxcsr else None))) };

    fn get(&self, register: Register) -> Option<u64> {
        match register.0 {
            0 => Some(self.rax),
            3 => Some(self.rbx),
            7 => Some(self.rsp),
            64 => Some(self.mxcsr),
            _ => None,
        }
    }

    fn set(&mut self, register: Register, value: u64) -> Option<()> {
        match register.0 {
            0 => self.rax = value,
            3 => self.rbx = value,
            7 => self.rsp = value,
            64 => self.mxcsr = value,
            _ => return None,
        }
        Some(())
    }
}

static REGISTERS: Registers = Registers {
    rax: 0x1111_1111_1111_1111,
    rbx: 0x7008,
    rsp: 0xffff_ffff_ffff_fff0,
    mxcsr: 0x1f80,
};

// At 0x7000.
static WORDS: [u8; 16] = [
    0x11, 0x12, 0x13, 0x14, 0x15, 0x16, 0x17, 0x18, 0x19, 0x1a, 0x1b, 0x1c, 0x1d, 0x1e, 0x1f, 0x20,
];

// After them, at 0x7010.
static HALF: [u8; 4] = [0xfe, 0xdc, 0xba, 0x98];

// The last four addresses.
static LAST: [u8; 4] = [1, 2, 3, 4];

fn memory(alloc: Global) -> Result<MemoryImage<'static>, ImageError> {
    let mut image = MemoryImage::new(alloc);
    image.add(0x7000, &WORDS)?;
    image.add(0x7010, &HALF)?;
    image.add(0xffff_ffff_ffff_fffc, &LAST)?;
    Ok(image)
}

/// An expression, the word that its stack begins with, and its value or fault.
type Case = (&'static [u8], Option<u64>, Result<u64, EvalError>);

fn agree(rt: &impl Abort, image: &MemoryImage<'_>, cases: &[Case]) {
    for (expression, initial, wanted) in cases {
        assert_eq!(rt;
            evaluate(expression, *initial, &REGISTERS, image),
            *wanted,
            "of {expression:?}"
        );
    }
}

// Numbers that stand in the bytes: unsigned, signed, LEB128, literals.
static CONSTANTS: [Case; 15] = [
    (
        &[0x03, 0xef, 0xcd, 0xab, 0x89, 0x67, 0x45, 0x23, 0x01],
        None,
        Ok(0x123456789abcdef),
    ),
    (&[0x08, 0x80], None, Ok(0x80)),
    (&[0x09, 0x80], None, Ok(0xffffffffffffff80)),
    (&[0x0a, 0x34, 0x80], None, Ok(0x8034)),
    (&[0x0b, 0x34, 0x80], None, Ok(0xffffffffffff8034)),
    (&[0x0c, 0x78, 0x56, 0x34, 0x82], None, Ok(0x82345678)),
    (
        &[0x0d, 0x78, 0x56, 0x34, 0x82],
        None,
        Ok(0xffffffff82345678),
    ),
    (
        &[0x0e, 0x10, 0x32, 0x54, 0x76, 0x98, 0xba, 0xdc, 0xfe],
        None,
        Ok(0xfedcba9876543210),
    ),
    (
        &[0x0f, 0x10, 0x32, 0x54, 0x76, 0x98, 0xba, 0xdc, 0xfe],
        None,
        Ok(0xfedcba9876543210),
    ),
    (
        &[
            0x10, 0x80, 0x80, 0x80, 0x80, 0x80, 0x80, 0x80, 0x80, 0x80, 0x01,
        ],
        None,
        Ok(0x8000000000000000),
    ),
    (
        &[
            0x11, 0x80, 0x80, 0x80, 0x80, 0x80, 0x80, 0x80, 0x80, 0x80, 0x7f,
        ],
        None,
        Ok(0x8000000000000000),
    ),
    (&[0x11, 0xff, 0x00], None, Ok(0x7f)),
    (&[0x11, 0x80, 0x80, 0x7f], None, Ok(0xffffffffffffc000)),
    (&[0x30], None, Ok(0x0)),
    (&[0x4f], None, Ok(0x1f)),
];

// dup, drop, over, pick, swap and rot, each folded to one word that tells their order.
static STACK: [Case; 7] = [
    (&[0x35, 0x37, 0x3b, 0x12, 0x1c, 0x1e], None, Ok(0x0)),
    (&[0x09, 0xff, 0x37, 0x09, 0xff, 0x13], None, Ok(0x7)),
    (&[0x35, 0x37, 0x3b, 0x14, 0x1c, 0x1e], None, Ok(0x1c)),
    (&[0x35, 0x37, 0x3b, 0x15, 0x02, 0x1c, 0x1e], None, Ok(0x2a)),
    (&[0x35, 0x37, 0x3b, 0x16, 0x1c, 0x1e], None, Ok(0x14)),
    (
        &[0x35, 0x37, 0x3b, 0x17, 0x1c, 0x1e],
        None,
        Ok(0xffffffffffffffea),
    ),
    (
        &[0x35, 0x37, 0x3b, 0x15, 0x03, 0x1c, 0x1e],
        None,
        Err(EvalError::Table(Error::PopWithEmptyStack)),
    ),
];

// Signed and unsigned arithmetic, logic and shifts.
static ARITHMETIC: [Case; 22] = [
    (
        &[0x0e, 0x00, 0x00, 0x00, 0x00, 0x00, 0x00, 0x00, 0x80, 0x19],
        None,
        Ok(0x8000000000000000),
    ),
    (&[0x09, 0xf9, 0x20], None, Ok(0x6)),
    (&[0x35, 0x1f], None, Ok(0xfffffffffffffffb)),
    (&[0x09, 0xf8, 0x23, 0xac, 0x02], None, Ok(0x124)),
    (
        &[
            0x0e, 0x00, 0x00, 0x00, 0x00, 0x00, 0x00, 0x00, 0x80, 0x23, 0x85, 0x80, 0x80, 0x80,
            0x80, 0x80, 0x80, 0x80, 0x80, 0x01,
        ],
        None,
        Ok(0x5),
    ),
    (
        &[0x09, 0x9c, 0x09, 0xf9, 0x1a],
        None,
        Ok(0xffffffffffffff98),
    ),
    (&[0x09, 0xf9, 0x32, 0x1b], None, Ok(0xfffffffffffffffd)),
    (
        &[
            0x0e, 0x00, 0x00, 0x00, 0x00, 0x00, 0x00, 0x00, 0x80, 0x09, 0xff, 0x1b,
        ],
        None,
        Ok(0x8000000000000000),
    ),
    (&[0x33, 0x35, 0x1c], None, Ok(0xfffffffffffffffe)),
    (&[0x09, 0xf9, 0x32, 0x1d], None, Ok(0x1)),
    (
        &[
            0x0e, 0xf0, 0xde, 0xbc, 0x9a, 0x78, 0x56, 0x34, 0x12, 0x0e, 0x01, 0x00, 0x00, 0x00,
            0x00, 0x00, 0x00, 0x80, 0x1e,
        ],
        None,
        Ok(0x123456789abcdef0),
    ),
    (
        &[
            0x09, 0xfe, 0x0e, 0xff, 0xff, 0xff, 0xff, 0xff, 0xff, 0xff, 0x7f, 0x21,
        ],
        None,
        Ok(0xffffffffffffffff),
    ),
    (&[0x09, 0xff, 0x32, 0x22], None, Ok(0x1)),
    (&[0x33, 0x08, 0x3f, 0x24], None, Ok(0x8000000000000000)),
    (&[0x31, 0x08, 0x40, 0x24], None, Ok(0x0)),
    (&[0x35, 0x09, 0xff, 0x24], None, Ok(0x0)),
    (&[0x09, 0xff, 0x08, 0x3f, 0x25], None, Ok(0x1)),
    (&[0x09, 0xff, 0x08, 0x40, 0x25], None, Ok(0x0)),
    (&[0x09, 0x9c, 0x33, 0x26], None, Ok(0xfffffffffffffff3)),
    (
        &[
            0x0e, 0x00, 0x00, 0x00, 0x00, 0x00, 0x00, 0x00, 0x80, 0x08, 0x40, 0x26,
        ],
        None,
        Ok(0xffffffffffffffff),
    ),
    (
        &[
            0x0e, 0xff, 0xff, 0xff, 0xff, 0xff, 0xff, 0xff, 0x7f, 0x0e, 0x00, 0x00, 0x00, 0x00,
            0x00, 0x00, 0x00, 0x80, 0x26,
        ],
        None,
        Ok(0x0),
    ),
    (
        &[
            0x0e, 0xf0, 0xde, 0xbc, 0x9a, 0x78, 0x56, 0x34, 0x12, 0x0e, 0xff, 0xff, 0xff, 0xff,
            0xff, 0xff, 0xff, 0x7f, 0x27,
        ],
        None,
        Ok(0x6dcba9876543210f),
    ),
];

// Comparisons of -1 and 1, and of 5 and 5.
static COMPARISONS: [Case; 10] = [
    (&[0x35, 0x35, 0x29], None, Ok(0x1)),
    (&[0x09, 0xff, 0x31, 0x2a], None, Ok(0x0)),
    (&[0x35, 0x35, 0x2a], None, Ok(0x1)),
    (&[0x31, 0x09, 0xff, 0x2b], None, Ok(0x1)),
    (&[0x35, 0x35, 0x2b], None, Ok(0x0)),
    (&[0x09, 0xff, 0x31, 0x2c], None, Ok(0x1)),
    (&[0x35, 0x35, 0x2c], None, Ok(0x1)),
    (&[0x09, 0xff, 0x31, 0x2d], None, Ok(0x1)),
    (&[0x31, 0x09, 0xff, 0x2d], None, Ok(0x0)),
    (&[0x35, 0x35, 0x2e], None, Ok(0x0)),
];

// Registers by short and long numbers, those that the machine lacks, and one past 65535.
static OFFSETS: [Case; 7] = [
    (&[0x70, 0x00], None, Ok(0x1111111111111111)),
    (&[0x73, 0x70], None, Ok(0x6ff8)),
    (&[0x77, 0x10], None, Ok(0x0)),
    (&[0x92, 0xc0, 0x00, 0x7f], None, Ok(0x1f7f)),
    (
        &[0x71, 0x00],
        None,
        Err(EvalError::Table(Error::UnsupportedRegister)),
    ),
    (
        &[0x92, 0x01, 0x00],
        None,
        Err(EvalError::Table(Error::UnsupportedRegister)),
    ),
    (
        &[0x92, 0x80, 0x80, 0x04, 0x00],
        None,
        Err(EvalError::Table(Error::UnsupportedRegister)),
    ),
];

// Words and numbers of 1 to 8 bytes, across two regions and where a byte is missing.
static MEMORY: [Case; 10] = [
    (&[0x06], Some(0x700c), Ok(0x98badcfe201f1e1d)),
    (&[0x06], Some(0x700d), Err(EvalError::Unmapped(0x700d))),
    (&[0x94, 0x02], Some(0x700f), Ok(0xfe20)),
    (&[0x94, 0x03], Some(0x7000), Ok(0x131211)),
    (&[0x94, 0x04], Some(0xfffffffffffffffc), Ok(0x4030201)),
    (
        &[0x94, 0x04],
        Some(0xfffffffffffffffd),
        Err(EvalError::Unmapped(0xfffffffffffffffd)),
    ),
    (&[0x94, 0x08], Some(0x7003), Ok(0x1b1a191817161514)),
    (&[0x06], Some(0x9), Err(EvalError::Unmapped(0x9))),
    (
        &[0x94, 0x09],
        Some(0x7000),
        Err(EvalError::Table(Error::UnknownOperation)),
    ),
    (
        &[0x94, 0x00],
        None,
        Err(EvalError::Table(Error::UnknownOperation)),
    ),
];

// Branches on and back, to the end, out of the bytes, and for ever.
static BRANCHES: [Case; 10] = [
    (&[0x2f, 0x00, 0x00, 0x31], None, Ok(0x1)),
    (&[0x30, 0x28, 0x01, 0x00, 0x33], Some(0x1), Ok(0x3)),
    (&[0x30, 0x28, 0x01, 0x00, 0x33, 0x34], None, Ok(0x4)),
    (&[0x3a, 0x31, 0x1c, 0x12, 0x28, 0xfa, 0xff], None, Ok(0x0)),
    (
        &[0x2f, 0x01, 0x00],
        Some(0x3),
        Err(EvalError::Table(Error::BadBranch)),
    ),
    (
        &[0x2f, 0xfc, 0x7f],
        None,
        Err(EvalError::Table(Error::BadBranch)),
    ),
    (&[0x30, 0x28, 0x00, 0x80, 0x31], None, Ok(0x1)),
    (
        &[0x31, 0x28, 0x00, 0x80],
        None,
        Err(EvalError::Table(Error::BadBranch)),
    ),
    (
        &[0x28, 0x00, 0x00],
        None,
        Err(EvalError::Table(Error::PopWithEmptyStack)),
    ),
    (
        &[0x2f, 0xfd, 0xff],
        None,
        Err(EvalError::Table(Error::TooManyOperations)),
    ),
];

// The first fault is reported.
static FAULTS: [Case; 13] = [
    (&[], None, Err(EvalError::Table(Error::PopWithEmptyStack))),
    (
        &[0x30, 0x16],
        None,
        Err(EvalError::Table(Error::PopWithEmptyStack)),
    ),
    (
        &[0x31, 0x32, 0x17],
        None,
        Err(EvalError::Table(Error::PopWithEmptyStack)),
    ),
    (
        &[0x30, 0x1b],
        None,
        Err(EvalError::Table(Error::PopWithEmptyStack)),
    ),
    (
        &[0x31, 0x30, 0x1b],
        None,
        Err(EvalError::Table(Error::DivisionByZero)),
    ),
    (
        &[0x31, 0x30, 0x1d],
        None,
        Err(EvalError::Table(Error::DivisionByZero)),
    ),
    (
        &[0x18],
        None,
        Err(EvalError::Table(Error::UnknownOperation)),
    ),
    (
        &[0x6f],
        None,
        Err(EvalError::Table(Error::UnknownOperation)),
    ),
    (
        &[0x97],
        None,
        Err(EvalError::Table(Error::UnknownOperation)),
    ),
    (
        &[0x0e, 0x00, 0x00, 0x00, 0x00, 0x00, 0x00, 0x00],
        None,
        Err(EvalError::Table(Error::UnexpectedEof)),
    ),
    (
        &[
            0x10, 0x80, 0x80, 0x80, 0x80, 0x80, 0x80, 0x80, 0x80, 0x80, 0x02,
        ],
        None,
        Err(EvalError::Table(Error::BadUnsignedLeb128)),
    ),
    (
        &[
            0x11, 0x80, 0x80, 0x80, 0x80, 0x80, 0x80, 0x80, 0x80, 0x80, 0x40,
        ],
        None,
        Err(EvalError::Table(Error::BadSignedLeb128)),
    ),
    (
        &[0x2f, 0x00],
        None,
        Err(EvalError::Table(Error::UnexpectedEof)),
    ),
];

#[test]
fn expressions_have_their_values(rt: HostRuntime) -> Result<(), ImageError> {
    let image = memory(rt.alloc())?;
    for cases in [
        CONSTANTS.as_slice(),
        STACK.as_slice(),
        ARITHMETIC.as_slice(),
        COMPARISONS.as_slice(),
        OFFSETS.as_slice(),
        MEMORY.as_slice(),
        BRANCHES.as_slice(),
        FAULTS.as_slice(),
    ] {
        agree(&rt, &image, cases);
    }
    Ok(())
}

// The rule of a register saved 8 bytes above the frame's address, which is what its stack begins
// with.
#[test]
fn a_saved_register(rt: HostRuntime) {
    let image = MemoryImage::new(rt.alloc());
    let none = Err(EvalError::Table(Error::PopWithEmptyStack));
    for (initial, wanted) in [(Some(0x7010), Ok(0x7018)), (None, none)] {
        let found = evaluate(&[0x23, 0x08], initial, &REGISTERS, &image);
        expect_equal(&rt, found, wanted);
    }
}

#[test]
fn sixty_four_words(rt: HostRuntime) {
    let image = MemoryImage::new(rt.alloc());
    let full = Err(EvalError::Table(Error::StackFull));
    for (initial, wanted) in [(None, Ok(1)), (Some(5), full)] {
        let found = evaluate(&[0x31; 64], initial, &REGISTERS, &image);
        expect_equal(&rt, found, wanted);
    }
}

// A turn of this loop takes six operations and counts down by one. The expression has eight bytes,
// so 10,008 operations are allowed, and 1,668 turns take just as many.
#[test]
fn the_last_operation_is_done(rt: HostRuntime) {
    let image = MemoryImage::new(rt.alloc());
    // lit1, minus, nop, nop, dup, bra -8
    let expression = [0x31, 0x1c, 0x96, 0x96, 0x12, 0x28, 0xf8, 0xff];
    let many = Err(EvalError::Table(Error::TooManyOperations));
    for (initial, wanted) in [(1668, Ok(0)), (1669, many)] {
        let found = evaluate(&expression, Some(initial), &REGISTERS, &image);
        expect_equal(&rt, found, wanted);
    }
}
