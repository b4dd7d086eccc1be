//! Steps over memory written out byte for byte: a Mach-O module and PE modules whose unwind data is
//! given, with the registers that a machine would have.

ghost use Rattle.std.specs.Prelude.{◌≡◌, ◌<◌, ◌≤◌};

use eh_frame::RowRoom;
use format_frames::{FrameError, MachoModule, PeModule, compact_step, macho_step, pe_step};
use macho_unwind_info::opcodes::OpcodeX86_64;
use memory_image::{ImageError, MemoryImage};
use std::alloc::Global;
use std::fmt::Debug;
use std::process::Abort;
use std::test::Fail;
use unwind_arch::x86_64::{Context, R12, RBP, RBX, RSP};
use unwinding_frames::Window;

/// Asserts that a value is the one that is expected. It is proved once, and a call of it is a call.
fn expect_equal<T: PartialEq + Debug + Drop>(rt: &impl Abort, value: T, expected: T) {
    assert_eq!(rt; value, expected);
}

// An image of regions, each with its address.
fn image_of<'a>(alloc: Global, regions: &[(u64, &'a [u8])]) -> Result<MemoryImage<'a>, ImageError> {
    let mut image = MemoryImage::new(alloc);
    for (address, bytes) in regions {
        image.add(*address, *bytes)?;
    }
    Ok(image)
}

// Registers of a frame that stands at an address.
fn stopped_at(ra: u64, rsp: u64) -> Context
    ensures { result.ra ≡ ra }
{
    let mut context = Context::default();
    context.ra = ra;
    context.registers[RSP] = rsp;
    context
}

const PE_MODULE: PeModule = PeModule {
    base: 0x140000000,
    size: 0x3000,
    table_rva: 0x2000,
    table_size: 12,
};

// A compressed page at 0x1000 with two entries, the second of which names an opcode that isn't
// there; a regular page at 0x2000 with one entry; and the sentinel at 0x3000.
const SECTION: [u8; 104] = [
    0x01, 0x00, 0x00, 0x00, 0x1c, 0x00, 0x00, 0x00, 0x01, 0x00, 0x00, 0x00, 0x00, 0x00, 0x00, 0x00,
    0x00, 0x00, 0x00, 0x00, 0x20, 0x00, 0x00, 0x00, 0x03, 0x00, 0x00, 0x00, 0x00, 0x00, 0x01, 0x02,
    0x00, 0x10, 0x00, 0x00, 0x44, 0x00, 0x00, 0x00, 0x00, 0x00, 0x00, 0x00, 0x00, 0x20, 0x00, 0x00,
    0x58, 0x00, 0x00, 0x00, 0x00, 0x00, 0x00, 0x00, 0x00, 0x30, 0x00, 0x00, 0x00, 0x00, 0x00, 0x00,
    0x00, 0x00, 0x00, 0x00, 0x03, 0x00, 0x00, 0x00, 0x0c, 0x00, 0x02, 0x00, 0x14, 0x00, 0x00, 0x00,
    0x00, 0x00, 0x00, 0x00, 0x00, 0x01, 0x00, 0x01, 0x02, 0x00, 0x00, 0x00, 0x08, 0x00, 0x01, 0x00,
    0x00, 0x20, 0x00, 0x00, 0x01, 0x00, 0x01, 0x01,
];

// The words from 0x70a0 on: 0x140001050, five zeros, 0x22, 0x401060 and a zero.
const STACK: [u8; 72] = [
    0x50, 0x10, 0, 0x40, 0x01, 0, 0, 0, 0, 0, 0, 0, 0, 0, 0, 0, 0, 0, 0, 0, 0, 0, 0, 0, 0, 0, 0, 0,
    0, 0, 0, 0, 0, 0, 0, 0, 0, 0, 0, 0, 0, 0, 0, 0, 0, 0, 0, 0, 0x22, 0, 0, 0, 0, 0, 0, 0, 0x60,
    0x10, 0x40, 0, 0, 0, 0, 0, 0, 0, 0, 0, 0, 0, 0, 0,
];

// A record from 0x1000 to 0x1100, and its unwind record at 0x2010.
const TABLE: [u8; 12] = [0, 0x10, 0, 0, 0, 0x11, 0, 0, 0x10, 0x20, 0, 0];

const CODE: [u8; 256] = [0x90; 256];

#[test]
fn a_stack_is_left_through_two_formats(rt: HostRuntime) -> Result<(), Fail> {
    let info = [0x01, 0x05, 0x02, 0x00, 0x05, 0x42, 0x01, 0x30];
    let image = image_of(
        rt.alloc(),
        &[
            (0x70a0, STACK.as_slice()),
            (0x600000, SECTION.as_slice()),
            (0x140001000, CODE.as_slice()),
            (0x140002000, TABLE.as_slice()),
            (0x140002010, info.as_slice()),
        ],
    )?;
    let module = MachoModule {
        base: 0x100000000,
        size: 0x4000,
        unwind_info: 0x600000,
        frames: None,
    };
    let mut context = stopped_at(0x100001010, 0x70a0);
    context.registers[RBX] = 0x11;
    let mut rows = RowRoom::new();
    let mut stack = Window::new(&image, 0x70a0);
    let stepped = macho_step(&mut stack, &module, 0x10000100f, &context, &mut rows)?.ok_or("end")?;
    let outer = stepped.context;
    expect_equal(
        &rt,
        (outer.ra, outer.registers[RSP], outer.registers[RBX]),
        (0x140001050, 0x70a8, 0x11),
    );
    let last = pe_step(&mut stack, &PE_MODULE, 0x14000104f, &outer)?;
    expect_equal(
        &rt,
        (last.ra, last.registers[RSP], last.registers[RBX]),
        (0x401060, 0x70e0, 0x22),
    );
    let end = macho_step(&mut stack, &module, 0x100000fff, &context, &mut rows)?;
    assert!(rt; end.is_none());
    Ok(())
}

// The caller of a frame in a PE module with this code, function table and unwind record, whose
// stack begins at 0x7000.
fn pe_caller(
    alloc: Global,
    code: &[u8],
    table: &[u8],
    info: &[u8],
    stack: &[u8],
    context: &Context,
) -> Result<Result<Context, FrameError>, ImageError>
    requires from { 0x140000000 ≤ context.now.ra }
    requires near { context.now.ra < 0x140003000 }
{
    let image = image_of(
        alloc,
        &[
            (0x7000, stack),
            (0x140001000, code),
            (0x140002000, table),
            (0x140002010, info),
        ],
    )?;
    let mut stack = Window::new(&image, 0x7000);
    Ok(pe_step(&mut stack, &PE_MODULE, context.ra, context))
}

#[test]
fn what_can_not_be_read_is_reported(rt: HostRuntime) -> Result<(), Fail> {
    // a record that is chained to itself
    let looped = [
        0x21, 0, 0, 0, 0, 0x10, 0, 0, 0, 0x11, 0, 0, 0x10, 0x20, 0, 0,
    ];
    let context = stopped_at(0x140001050, 0x7000);
    let endless = pe_caller(rt.alloc(), &CODE, &TABLE, &looped, &[0; 8], &context)?;
    expect_equal(&rt, endless, Err(FrameError::ChainLimit));
    let short = pe_caller(rt.alloc(), &CODE, &TABLE, &looped[..3], &[0; 8], &context)?;
    expect_equal(&rt, short, Err(FrameError::PeInfo(0x140002010)));
    let cut = pe_caller(rt.alloc(), &CODE, &TABLE[..11], &looped, &[0; 8], &context)?;
    expect_equal(&rt, cut, Err(FrameError::PeInfo(0x140002000)));
    let leaf = stopped_at(0x140001100, 0x7001);
    let unmapped = pe_caller(rt.alloc(), &CODE, &TABLE, &looped, &[0; 8], &leaf)?;
    expect_equal(&rt, unmapped, Err(FrameError::Unmapped(0x7001)));
    Ok(())
}

#[test]
fn a_size_is_read_from_the_code(rt: HostRuntime) -> Result<(), Fail> {
    // push rbp, r15, r14, r13, r12 and rbx, and sub rsp, 0x1000
    let code = [
        0x55, 0x41, 0x57, 0x41, 0x56, 0x41, 0x55, 0x41, 0x54, 0x53, 0x48, 0x81, 0xec, 0x00, 0x10,
        0x00, 0x00,
    ];
    let mut stack = [0; 56];
    for i in 0..7 {
        stack[8 * i] = i as u8 + 1;
    }
    let image = image_of(
        rt.alloc(),
        &[(0x9000, stack.as_slice()), (0x3000, code.as_slice())],
    )?;
    let context = stopped_at(0x3018, 0x8000);
    let opcode = OpcodeX86_64::parse(0x030d_f800);
    let mut rows = RowRoom::new();
    let mut stack = Window::new(&image, 0x9000);
    let stepped = compact_step(
        &mut stack, None, 0x3000, 0x3017, &context, &opcode, &mut rows,
    )?;
    let caller = stepped.ok_or("no caller")?.context;
    expect_equal(&rt, (caller.ra, caller.registers[RSP]), (7, 0x9038));
    expect_equal(&rt, (caller.registers[RBX], caller.registers[RBP]), (1, 6));
    let saved = [2, 3, 4, 5];
    expect_equal(&rt, &caller.registers[R12..], saved.as_slice());
    let dwarf = OpcodeX86_64::parse(0x0400_0018);
    let none = compact_step(
        &mut stack, None, 0x3000, 0x3017, &context, &dwarf, &mut rows,
    )?;
    assert!(rt; none.is_none());
    Ok(())
}
