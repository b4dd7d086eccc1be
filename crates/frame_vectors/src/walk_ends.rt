// Walks as far as they go, and why they go no further.
use crate::asserting::expect_equal;
use memory_image::{MemoryImage, NoLedger, Steps};
use stack_deliver::{
    Context, DeliverError, EndReason, Error, FrameInfo, FrameInfoKind, Room, Space,
    walk_to_end_into,
};
use std::alloc::Global;
use std::test::Fail;
use unwind_arch::x86_64::RSP;

/// A frame table with one function, 0x401000 to 0x401010, that pushes RBX. Its common information
/// entry stands at 0, the description at 24.
const TABLE: [u8; 52] =
    *b"\x14\0\0\0\0\0\0\0\x01zR\0\x01\x78\x10\x01\x1b\x0c\x07\x08\x90\x01\0\0\x14\0\0\0\x1c\0\0\0\
    \xe0\x0f\xf0\xff\x10\0\0\0\0\x41\x0e\x10\x83\x02\0\0\0\0\0\0";

/// The same, where the description names a common information entry before the table.
const DAMAGED: [u8; 52] =
    *b"\x14\0\0\0\0\0\0\0\x01zR\0\x01\x78\x10\x01\x1b\x0c\x07\x08\x90\x01\0\0\x14\0\0\0\xff\0\0\0\
    \xe0\x0f\xf0\xff\x10\0\0\0\0\x41\x0e\x10\x83\x02\0\0\0\0\0\0";

/// After a call in the function, after its push.
const CODE: u64 = 0x40_1006;

const STACK: u64 = 0x7000;

/// A stack: RBX and the return address of each call, a start, a limit, and what is to come of it.
struct Case {
    words: &'static [u64],
    tables: FrameInfoKind,
    ra: u64,
    interrupted: bool,
    limit: u32,
    end: EndReason,
    states: usize,
}

const WHOLE: FrameInfoKind = FrameInfoKind::EhFrame(0x50_0000);

const CASES: [Case; 9] = [
    // three calls, the last of which returns to 0
    Case {
        words: &[1, CODE, 2, CODE, 3, 0],
        tables: WHOLE,
        ra: CODE,
        interrupted: false,
        limit: 9,
        end: EndReason::Outermost,
        states: 4,
    },
    Case {
        words: &[1, CODE, 2, CODE, 3, 0],
        tables: WHOLE,
        ra: CODE,
        interrupted: false,
        limit: 4,
        end: EndReason::Outermost,
        states: 4,
    },
    Case {
        words: &[1, CODE, 2, CODE, 3, 0],
        tables: WHOLE,
        ra: CODE,
        interrupted: false,
        limit: 3,
        end: EndReason::Limit,
        states: 3,
    },
    // a stack that is cut after one call
    Case {
        words: &[1, CODE],
        tables: WHOLE,
        ra: CODE,
        interrupted: false,
        limit: 9,
        end: EndReason::Refused {
            address: CODE - 1,
            error: DeliverError::Unmapped(STACK + 16),
        },
        states: 2,
    },
    // a call from where no module is
    Case {
        words: &[1, 0x500],
        tables: WHOLE,
        ra: CODE,
        interrupted: false,
        limit: 9,
        end: EndReason::NoModule(0x4ff),
        states: 2,
    },
    // a wild jump
    Case {
        words: &[1, CODE],
        tables: WHOLE,
        ra: 7,
        interrupted: true,
        limit: 9,
        end: EndReason::NoModule(7),
        states: 1,
    },
    // a module without tables, by either name of them
    Case {
        words: &[1, CODE],
        tables: FrameInfoKind::EhFrame(0x90_0000),
        ra: CODE,
        interrupted: false,
        limit: 9,
        end: EndReason::NoDescription(CODE - 1),
        states: 1,
    },
    Case {
        words: &[1, CODE],
        tables: FrameInfoKind::EhFrameHdr(0x90_0000),
        ra: CODE,
        interrupted: false,
        limit: 9,
        end: EndReason::NoDescription(CODE - 1),
        states: 1,
    },
    // a damaged table
    Case {
        words: &[1, CODE],
        tables: FrameInfoKind::EhFrame(0x60_0000),
        ra: CODE,
        interrupted: false,
        limit: 9,
        end: EndReason::UnreadableTable {
            address: CODE - 1,
            offset: 24,
            error: Error::NotCie,
        },
        states: 1,
    },
];

/// How many states a walk of the case comes to, and why it goes no further.
fn walked(alloc: Global, case: &Case) -> Result<(EndReason, usize), Fail> {
    let mut stack = Vec::new(alloc);
    for word in case.words {
        stack.extend_from_slice(&word.to_le_bytes())?;
    }
    let mut image = MemoryImage::new(alloc);
    image.add(0x50_0000, &TABLE)?;
    image.add(0x60_0000, &DAMAGED)?;
    image.add(STACK, &stack)?;
    let mut space = Space::new(alloc, image);
    let frame = FrameInfo {
        text_base: None,
        kind: case.tables,
    };
    space.add_elf(0x40_1000, 0x40_1010, frame)?;
    let mut start = Context::default();
    start.ra = case.ra;
    start.registers[RSP] = STACK;
    let mut room = Room::new(alloc, 16)?;
    let end = walk_to_end_into(
        &space,
        &start,
        case.interrupted,
        case.limit.min(16),
        &mut room,
        &mut Steps::new(NoLedger),
    );
    Ok((end, room.visited_len()))
}

#[test]
fn a_walk_says_why_it_ends(rt: HostRuntime) -> Result<(), Fail> {
    for case in &CASES {
        let found = walked(rt.alloc(), case)?;
        expect_equal(&rt, found, (case.end, case.states));
    }
    Ok(())
}
