// Walks and deliveries into a room that is reserved once.
use crate::asserting::expect_equal;
use memory_image::{MemoryImage, NoLedger, Steps};
use stack_deliver::{
    Context, DeliverError, FrameInfo, FrameInfoKind, Outcome, Resumes, Room, Space, deliver_into,
    walk_into,
};
use std::alloc::{AllocError, Global};
use std::test::Fail;
use unwind_arch::x86_64::{RBX, RSP};

/// A frame table at 0x500000 with one function, 0x401000 to 0x401010, that pushes RBX.
const TABLE: [u8; 52] =
    *b"\x14\0\0\0\0\0\0\0\x01zR\0\x01\x78\x10\x01\x1b\x0c\x07\x08\x90\x01\0\0\x14\0\0\0\x1c\0\0\0\
    \xe0\x0f\xf0\xff\x10\0\0\0\0\x41\x0e\x10\x83\x02\0\0\0\0\0\0";

const CODE: u64 = 0x40_1006;

const STACK: u64 = 0x7fff_0000_0000;

/// The stack of so many calls of the function, each of which holds its caller's RBX, the place of
/// the caller from 1 on, and returns into the function; the last one returns to 0.
fn stack_of(alloc: Global, calls: u64) -> Result<Vec<u8>, AllocError> {
    let mut bytes = Vec::new(alloc);
    for caller in 1..=calls {
        let back = if caller == calls { 0 } else { CODE };
        bytes.extend_from_slice(&caller.to_le_bytes())?;
        bytes.extend_from_slice(&back.to_le_bytes())?;
    }
    Ok(bytes)
}

fn space_of<'a>(alloc: Global, stack: &'a [u8]) -> Result<Space<'a>, Fail> {
    let mut image = MemoryImage::new(alloc);
    image.add(0x50_0000, &TABLE)?;
    image.add(STACK, stack)?;
    let mut space = Space::new(alloc, image);
    let frame = FrameInfo {
        text_base: None,
        kind: FrameInfoKind::EhFrame(0x50_0000),
    };
    space.add_elf(0x40_1000, 0x40_1010, frame)?;
    Ok(space)
}

/// The registers at the innermost call, with 0 in RBX.
fn start() -> Context {
    let mut context = Context::default();
    context.ra = CODE;
    context.registers[RSP] = STACK;
    context
}

#[test]
fn a_hundred_thousand_calls_are_walked(rt: HostRuntime) -> Result<(), Fail> {
    let alloc = rt.alloc();
    let calls = 100_000u32;
    let stack = stack_of(alloc, calls as u64)?;
    let space = space_of(alloc, &stack)?;
    let mut room = Room::new(alloc, calls + 1)?;
    let mut steps = Steps::new(NoLedger);
    expect_equal(
        &rt,
        walk_into(&space, &start(), false, calls + 1, &mut room, &mut steps),
        Ok(()),
    );
    expect_equal(&rt, room.visited_len(), 100_001);
    for place in 0..room.visited_len() {
        let state = room.visited(place).unwrap_or(Context::default());
        expect_equal(&rt, state.registers[RSP], STACK + 16 * place as u64);
        expect_equal(&rt, state.registers[RBX], place as u64);
        expect_equal(&rt, state.ra, if place == 100_000 { 0 } else { CODE });
    }
    expect_equal(&rt, room.visited(100_001), None);
    Ok(())
}

#[test]
fn a_room_is_used_again(rt: HostRuntime) -> Result<(), Fail> {
    let alloc = rt.alloc();
    let stack = stack_of(alloc, 3)?;
    let space = space_of(alloc, &stack)?;
    let mut room = Room::new(alloc, 8)?;
    let mut steps = Steps::new(NoLedger);
    let resumes = Resumes::new(alloc);
    expect_equal(
        &rt,
        walk_into(&space, &start(), false, 4, &mut room, &mut steps),
        Ok(()),
    );
    expect_equal(
        &rt,
        (room.visited_len(), room.trail_len(), room.limit()),
        (4, 0, 8),
    );
    // A refusal leaves nothing in it, and its places stay.
    let refused = walk_into(&space, &start(), false, 3, &mut room, &mut steps);
    expect_equal(&rt, refused, Err(DeliverError::FrameLimit));
    expect_equal(
        &rt,
        (room.visited_len(), room.trail_len(), room.limit()),
        (0, 0, 8),
    );
    let mut below = start();
    below.registers[RSP] = STACK - 8;
    let refused = walk_into(&space, &below, false, 8, &mut room, &mut steps);
    expect_equal(&rt, refused, Err(DeliverError::Unmapped(STACK - 8)));
    expect_equal(&rt, room.visited(0), None);
    let ending = deliver_into(&space, &start(), 1, 2, &resumes, 8, &mut room, &mut steps)?;
    expect_equal(&rt, ending.outcome, Outcome::EndOfStack);
    expect_equal(&rt, ending.landing, None);
    expect_equal(
        &rt,
        (room.visited_len(), room.trail_len(), room.limit()),
        (4, 0, 8),
    );
    expect_equal(&rt, room.trail(0), None);
    Ok(())
}

#[test]
fn a_room_of_no_places_has_no_room(rt: HostRuntime) -> Result<(), Fail> {
    let alloc = rt.alloc();
    let stack = stack_of(alloc, 1)?;
    let space = space_of(alloc, &stack)?;
    let mut room = Room::new(alloc, 0)?;
    let mut steps = Steps::new(NoLedger);
    let refused = walk_into(&space, &start(), false, 0, &mut room, &mut steps);
    expect_equal(&rt, refused, Err(DeliverError::FrameLimit));
    expect_equal(&rt, room.limit(), 0);
    Ok(())
}
