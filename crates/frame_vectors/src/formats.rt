// Modules of three formats in one space, each added by the call for its format: the walk through them, and
// which modules each call refuses. The tables, the stack and the states are worked out by hand from the
// formats.
use crate::asserting::expect_equal;
use memory_image::MemoryImage;
use stack_deliver::{Context, FrameInfo, FrameInfoKind, Space, SpaceError, Visited, walk};
use std::alloc::Global;
use std::test::Fail;
use unwind_arch::x86_64::{R14, RBP, RBX, RSP};

/// The frame table of the ELF module, at 0x500000. Its function at 0x401050 pushes R14 and RBX and
/// allocates 8 bytes.
const FRAMES: &str =
    "1400000000000000017a5200017810011b0c070890010000180000001c000000e00ff0ff2000000000410e10860\
    2430d064583031c00000000000000017a504c5200017810079bb92f00001b1b0c07089001000018000000240000\
    00c40ff0ff30000000049b1f0000410e10830200002000000040000000d80ff0ff30000000048b1f0000420e104\
    10e18440e2083038e02000000000000";

/// The section of compact unwinding, at 0x600000. The function at 0x100001000 has a frame of 8 bytes.
const SECTION: &str =
    "010000001c000000010000000000000000000000200000000300000000000102001000004400000000000000002\
    000005800000000000000003000000000000000000000030000000c000200140000000000000000010001020000\
    00080001000020000001000101";

/// The code of the PE function from 0x140001000 to 0x140001100, all of it `nop`.
const CODE: [u8; 256] = [0x90; 256];

/// Its record in the function table, at 0x140002000.
const RECORD: &str = "001000000011000010200000";

/// Its unwind record, at 0x140002010: it allocates 40 bytes after it has pushed RBX.
const INFO: &str = "0105020005420130";

/// From 0x70a0 on the return address of the Mach-O function; 40 bytes, the value of RBX and the return
/// address of the PE function; 8 bytes, the values of RBX and R14 and the return address of the ELF
/// function.
const STACK: [u64; 12] = [
    0x1_4000_1050,
    0,
    0,
    0,
    0,
    0,
    0x22,
    0x40_1060,
    0,
    0xb,
    0xe,
    0,
];

/// Where a module of 0x1000 bytes ends at 2^64, which is no address.
const TOO_HIGH: u64 = 0xffff_ffff_ffff_f000;

/// What the memory holds beside the code: addresses, and the bytes there.
fn regions_of(alloc: Global) -> Result<Vec<(u64, Vec<u8>)>, Fail> {
    let mut stack = Vec::new(alloc);
    for word in STACK {
        stack.extend_from_slice(&word.to_le_bytes())?;
    }
    let mut regions = Vec::new(alloc);
    regions.push((0x70a0, stack))?;
    regions.push((0x50_0000, hex::decode(alloc, FRAMES)?))?;
    regions.push((0x60_0000, hex::decode(alloc, SECTION)?))?;
    regions.push((0x1_4000_2000, hex::decode(alloc, RECORD)?))?;
    regions.push((0x1_4000_2010, hex::decode(alloc, INFO)?))?;
    Ok(regions)
}

/// The memory, and no module.
fn space_of<'a>(alloc: Global, regions: &'a [(u64, Vec<u8>)]) -> Result<Space<'a>, Fail> {
    let mut image = MemoryImage::new(alloc);
    image.add(0x1_4000_1000, &CODE)?;
    for (address, bytes) in regions {
        image.add(*address, bytes)?;
    }
    Ok(Space::new(alloc, image))
}

fn frame_table() -> FrameInfo {
    FrameInfo {
        text_base: None,
        kind: FrameInfoKind::EhFrame(0x50_0000),
    }
}

/// The registers after a call in the Mach-O function.
fn start() -> Context {
    let mut context = Context::default();
    context.ra = 0x1_0000_1010;
    context.registers[RSP] = 0x70a0;
    context.registers[RBX] = 0x11;
    context.registers[RBP] = 0xc;
    context.registers[R14] = 0x2e;
    context
}

/// The return address, RSP, RBX, RBP and R14 of a state.
fn shown(states: &Visited, place: usize) -> Option<[u64; 5]> {
    let state = states.get(place)?;
    let registers = &state.registers;
    Some([
        state.ra,
        registers[RSP],
        registers[RBX],
        registers[RBP],
        registers[R14],
    ])
}

#[test]
fn three_formats_are_walked(rt: HostRuntime) -> Result<(), Fail> {
    let regions = regions_of(rt.alloc())?;
    let mut space = space_of(rt.alloc(), &regions)?;
    expect_equal(
        &rt,
        space.add_macho(0x1_0000_0000, 0x4000, 0x60_0000, None),
        Ok(()),
    );
    expect_equal(&rt, space.add_pe(0x1_4000_0000, 0x3000, 0x2000, 12), Ok(()));
    expect_equal(
        &rt,
        space.add_elf(0x40_1000, 0x40_1080, frame_table()),
        Ok(()),
    );
    let states = walk(rt.alloc(), &space, &start(), false, 8)?;
    expect_equal(&rt, states.len(), 4);
    let callers = [
        [0x1_0000_1010, 0x70a0, 0x11, 0xc, 0x2e],
        [0x1_4000_1050, 0x70a8, 0x11, 0xc, 0x2e],
        [0x40_1060, 0x70e0, 0x22, 0xc, 0x2e],
        [0, 0x7100, 0xb, 0xc, 0xe],
    ];
    for place in 0..4 {
        expect_equal(&rt, shown(&states, place), Some(callers[place]));
    }
    Ok(())
}

/// What a space that holds one ELF module, from 0x401000 to 0x401080, answers to a further module of each
/// format with so many bytes from `base` on: to an ELF, a Mach-O and a PE module. None is taken twice.
fn answers(alloc: Global, base: u64, size: u32) -> Result<[Result<(), SpaceError>; 3], Fail> {
    let mut answers = [Ok(()); 3];
    for format in 0..3 {
        let mut space = Space::new(alloc, MemoryImage::new(alloc));
        space.add_elf(0x40_1000, 0x40_1080, frame_table())?;
        answers[format] = match format {
            0 => space.add_elf(base, base.wrapping_add(u64::from(size)), frame_table()),
            1 => space.add_macho(base, size, 0x60_0000, None),
            _ => space.add_pe(base, size, 0x2000, 12),
        };
    }
    Ok(answers)
}

#[test]
fn modules_are_refused(rt: HostRuntime) -> Result<(), Fail> {
    let cases = [
        // The last byte is at 2^64 - 2, and at 2^64 - 1: no address is after that.
        (TOO_HIGH, 0xfff, Ok(())),
        (TOO_HIGH, 0x1000, Err(SpaceError::Wraps)),
        (TOO_HIGH, 0x1001, Err(SpaceError::Wraps)),
        (0x40_0000, 0, Err(SpaceError::Wraps)),
        // Up to the module's first address, to the one after it, and from its last and the next.
        (0x40_0000, 0x1000, Ok(())),
        (0x40_0000, 0x1001, Err(SpaceError::Overlap(0x40_1000))),
        (0x40_107f, 1, Err(SpaceError::Overlap(0x40_1000))),
        (0x40_1080, 1, Ok(())),
    ];
    for (base, size, answer) in cases {
        expect_equal(&rt, answers(rt.alloc(), base, size)?, [answer; 3]);
    }
    Ok(())
}
