// Prepared modules: which become so, what is counted, and that a walk visits the same.
use crate::asserting::expect_equal;
use memory_image::{Counted, MemoryImage, Steps};
use stack_deliver::{
    Context, DeliverError, FrameInfo, FrameInfoKind, Room, Space, Stepped, step, walk_into,
};
use std::alloc::Global;
use std::test::Fail;
use unwind_arch::x86_64::{RBX, RSP};

/// A frame table at 0x500000 with one function, 0x401000 to 0x401010, that pushes RBX.
pub(crate) const TABLE: [u8; 52] =
    *b"\x14\0\0\0\0\0\0\0\x01zR\0\x01\x78\x10\x01\x1b\x0c\x07\x08\x90\x01\0\0\x14\0\0\0\x1c\0\0\0\
    \xe0\x0f\xf0\xff\x10\0\0\0\0\x41\x0e\x10\x83\x02\0\0\0\0\0\0";

/// A header at 0x504000 that leads to the table, and lists the function.
pub(crate) const HEADER: [u8; 20] =
    *b"\x01\x1b\x03\x3b\xfc\xbf\xff\xff\x01\0\0\0\0\xd0\xef\xff\x18\xc0\xff\xff";

/// RBX 5, and the return address 0.
const STACK: [u8; 16] = *b"\x05\0\0\0\0\0\0\0\0\0\0\0\0\0\0\0";

/// The function's module, which names the table or the header.
fn space_of(alloc: Global, kind: FrameInfoKind) -> Result<Space<'static>, Fail> {
    let mut image = MemoryImage::new(alloc);
    image.add(0x50_0000, &TABLE)?;
    image.add(0x50_4000, &HEADER)?;
    image.add(0x7000, &STACK)?;
    let mut space = Space::new(alloc, image);
    let text_base = None;
    space.add_elf(0x40_1000, 0x40_1010, FrameInfo { text_base, kind })?;
    Ok(space)
}

/// The registers in the function's body.
fn start() -> Context {
    let mut context = Context::default();
    context.ra = 0x40_1006;
    context.registers[RSP] = 0x7000;
    context.registers[RBX] = 9;
    context
}

/// One step from the start, and how many steps it counts.
fn counted_step(space: &Space<'_>) -> (Result<Option<Stepped>, DeliverError>, u64) {
    let mut steps = Steps::new(Counted { count: 0 });
    let stepped = step(space, &start(), false, &mut steps);
    (stepped, steps.ledger().count)
}

#[test]
fn a_module_is_prepared_once(rt: HostRuntime) -> Result<(), Fail> {
    let mut space = space_of(rt.alloc(), FrameInfoKind::EhFrame(0x50_0000))?;
    expect_equal(&rt, space.prepared_len(0x40_1005), 0);
    let (before, count) = counted_step(&space);
    expect_equal(&rt, count, 0);
    expect_equal(&rt, space.prepare(), Ok(1));
    expect_equal(&rt, space.prepared_len(0x40_1005), 1);
    expect_equal(&rt, space.prepared_len(0x40_1010), 0);
    let (after, count) = counted_step(&space);
    expect_equal(&rt, count, 1);
    expect_equal(&rt, after, before);
    expect_equal(&rt, space.prepare(), Ok(0));
    Ok(())
}

#[test]
fn a_header_that_lists_the_table_is_prepared(rt: HostRuntime) -> Result<(), Fail> {
    let alloc = rt.alloc();
    let mut space = space_of(alloc, FrameInfoKind::EhFrameHdr(0x50_4000))?;
    // One beside it without a table isn't.
    let nowhere = FrameInfo {
        text_base: None,
        kind: FrameInfoKind::EhFrame(0x60_0000),
    };
    space.add_elf(0x40_2000, 0x40_3000, nowhere)?;
    expect_equal(&rt, space.prepare(), Ok(1));
    expect_equal(&rt, space.prepared_len(0x40_1005), 1);
    expect_equal(&rt, space.prepared_len(0x40_2005), 0);
    let mut room = Room::new(alloc, 2)?;
    let mut steps = Steps::new(Counted { count: 0 });
    expect_equal(
        &rt,
        walk_into(&space, &start(), false, 2, &mut room, &mut steps),
        Ok(()),
    );
    let caller = room.visited(1).unwrap_or(Context::default());
    expect_equal(&rt, caller.ra, 0);
    expect_equal(&rt, caller.registers[RSP], 0x7010);
    expect_equal(&rt, caller.registers[RBX], 5);
    Ok(())
}
