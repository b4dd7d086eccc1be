// Walks by rows that are kept on the way: the states, and how many searches are counted.
use crate::asserting::expect_equal;
use crate::prepared::HEADER;
use memory_image::{Counted, MemoryImage, Steps};
use stack_deliver::{
    Context, EndReason, FrameInfo, FrameInfoKind, MadeRows, Room, Space, walk_to_end_made,
};
use std::alloc::Global;
use std::test::Fail;
use unwind_arch::x86_64::{RBX, RSP};

const STACK: u64 = 0x7000;

/// The frame table of `prepared`, whose function pushes RBX, where it has 256 bytes.
const TABLE: [u8; 52] =
    *b"\x14\0\0\0\0\0\0\0\x01zR\0\x01\x78\x10\x01\x1b\x0c\x07\x08\x90\x01\0\0\x14\0\0\0\x1c\0\0\0\
    \xe0\x0f\xf0\xff\0\x01\0\0\0\x41\x0e\x10\x83\x02\0\0\0\0\0\0";

/// Where the calls of a stack are, the innermost first, and how many searches they need.
struct Case {
    calls: [u64; 4],
    searches: u64,
}

// The rows of the three calls have two places.
const CASES: [Case; 4] = [
    // a recursion
    Case {
        calls: [0x40_1006; 4],
        searches: 1,
    },
    // two calls by turns
    Case {
        calls: [0x40_1006, 0x40_103d, 0x40_1006, 0x40_103d],
        searches: 2,
    },
    // a third, which takes the place of the first
    Case {
        calls: [0x40_1006, 0x40_103d, 0x40_105f, 0x40_1006],
        searches: 4,
    },
    // and leaves that of the second
    Case {
        calls: [0x40_1006, 0x40_103d, 0x40_105f, 0x40_103d],
        searches: 3,
    },
];

/// The stack of such calls: RBX of each caller, which is the number of calls inside of it, and where it
/// goes on.
fn stack_of(alloc: Global, calls: &[u64; 4]) -> Result<Vec<u8>, Fail> {
    let mut stack = Vec::new(alloc);
    for i in 1..5 {
        let outer = calls.get(i).copied().unwrap_or(0);
        stack.extend_from_slice(&(i as u64).to_le_bytes())?;
        stack.extend_from_slice(&outer.to_le_bytes())?;
    }
    Ok(stack)
}

/// The function's module, which names the header, and a stack.
fn space_of<'a>(alloc: Global, stack: &'a [u8]) -> Result<Space<'a>, Fail> {
    let mut image = MemoryImage::new(alloc);
    image.add(0x50_0000, &TABLE)?;
    image.add(0x50_4000, &HEADER)?;
    image.add(STACK, stack)?;
    let mut space = Space::new(alloc, image);
    let frame = FrameInfo {
        text_base: None,
        kind: FrameInfoKind::EhFrameHdr(0x50_4000),
    };
    space.add_elf(0x40_1000, 0x40_1100, frame)?;
    Ok(space)
}

/// Walks a case, and answers why it ends, how many searches were counted, and the states.
fn walk_case(alloc: Global, case: &Case) -> Result<(EndReason, u64, Room), Fail> {
    let stack = stack_of(alloc, &case.calls)?;
    let space = space_of(alloc, &stack)?;
    let mut start = Context::default();
    start.ra = case.calls[0];
    start.registers[RSP] = STACK;
    let mut room = Room::new(alloc, 8)?;
    let mut made = MadeRows::new(alloc)?;
    let mut steps = Steps::new(Counted { count: 0 });
    let own = space.over_own_image();
    let end = walk_to_end_made(&mut made, &own, &start, false, 8, &mut room, &mut steps);
    Ok((end, steps.ledger().count, room))
}

/// The numbers of the calls inside of each state, and the stack pointers, are those of the calls.
fn are_callers(room: &Room) -> bool {
    for i in 0..room.visited_len() {
        let state = room.visited(i).unwrap();
        let inner = i as u64;
        let stack = STACK.wrapping_add(inner.wrapping_mul(16));
        if state.registers[RBX] != inner || state.registers[RSP] != stack {
            return false;
        }
    }
    true
}

#[test]
fn a_kept_row_needs_no_search(rt: HostRuntime) -> Result<(), Fail> {
    for case in &CASES {
        let (end, searches, room) = walk_case(rt.alloc(), case)?;
        expect_equal(&rt, (end, searches), (EndReason::Outermost, case.searches));
        expect_equal(&rt, room.visited_len(), 5);
        assert!(rt; are_callers(&room));
    }
    Ok(())
}
