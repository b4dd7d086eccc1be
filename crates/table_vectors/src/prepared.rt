//! Prepared indexes, beside the scan and the rows of descriptions.

use crate::headers::FRAMES;
use crate::tables::{PUSH_RBX, VERSION_TWO};
use eh_frame::*;
use memory_image::{Counted, Steps};
use std::alloc::{AllocError, Global};
use std::test::Fail;

const BASE: u64 = 0x500000;

// Three functions from 0x401020 to 0x401030, 0x401000 to 0x401010 and 0x401010 to 0x401018, and one
// of no bytes at 0x401004. The second advances past its end, and the third has an unknown
// instruction (3f) at 0x401012.
const OUT_OF_ORDER: &[u8] =
    b"\x14\x00\x00\x00\x00\x00\x00\x00\x01\x7a\x52\x00\x01\x78\x10\x01\x1b\x0c\x07\x08\x90\x01\x00\x00\
    \x14\x00\x00\x00\x1c\x00\x00\x00\x00\x10\xf0\xff\x10\x00\x00\x00\x00\x41\x0e\x10\x83\x02\x00\x00\
    \x14\x00\x00\x00\x34\x00\x00\x00\xc8\x0f\xf0\xff\x10\x00\x00\x00\x00\x44\x0e\x10\x4d\x0e\x18\x00\
    \x14\x00\x00\x00\x4c\x00\x00\x00\xc0\x0f\xf0\xff\x08\x00\x00\x00\x00\x42\x3f\x00\x00\x00\x00\x00\
    \x14\x00\x00\x00\x64\x00\x00\x00\x9c\x0f\xf0\xff\x00\x00\x00\x00\x00\x41\x0e\x10\x00\x00\x00\x00\
    \x00\x00\x00\x00";

// A function of 16 bytes from 0x401000 on whose program sets the location to 0x401004 (01, and the
// distance of 0x401004 from the operand at 0x50002a), then to 0x401004 again, then back to 0x401003.
const LOCATION_SET: &[u8] =
    b"\x14\x00\x00\x00\x00\x00\x00\x00\x01\x7a\x52\x00\x01\x78\x10\x01\x1b\x0c\x07\x08\x90\x01\x00\x00\
    \x21\x00\x00\x00\x1c\x00\x00\x00\xe0\x0f\xf0\xff\x10\x00\x00\x00\x00\x01\xda\x0f\xf0\xff\x0e\x10\
    \x01\xd3\x0f\xf0\xff\x0e\x18\x41\x01\xca\x0f\xf0\xff";

// A frame table at an address, how many rows and rules an index of it may keep, and what is in the
// index: how many descriptions, rows and rules there are, the ranges of the first descriptions, the CFA
// or the fault at some addresses, and what is found for one: where its description stands in the table
// and in the index, and by how many steps at most.
struct Case {
    bytes: &'static [u8],
    address: u64,
    room: (u32, u32),
    sizes: (u64, u32, u32),
    ranges: &'static [(u64, u64)],
    rows: &'static [(u64, Result<CfaRule<'static>, Error>)],
    found: (u64, Option<(u64, u64)>, u64),
    // the addresses that are asked
    asked: (u64, u64),
}

const CFA_8: CfaRule<'static> = CfaRule::RegisterAndOffset {
    register: Register(7),
    offset: 8,
};

const CFA_24: CfaRule<'static> = CfaRule::RegisterAndOffset {
    register: Register(7),
    offset: 24,
};

const CASES: &[Case] = &[
    Case {
        bytes: PUSH_RBX,
        address: BASE,
        room: (2, 3),
        sizes: (1, 2, 3),
        ranges: &[(0x401000, 0x401010)],
        rows: &[(0x401000, Ok(CFA_8))],
        found: (0x401010, None, 1),
        asked: (0x400ff0, 0x401020),
    },
    // what is listed out of order is sorted by its starts
    Case {
        bytes: OUT_OF_ORDER,
        address: BASE,
        room: (9, 9),
        sizes: (3, 6, 6),
        ranges: &[
            (0x401000, 0x401010),
            (0x401010, 0x401018),
            (0x401020, 0x401030),
        ],
        rows: &[
            (0x401011, Ok(CFA_8)),
            (0x401012, Err(Error::UnknownInstruction)),
        ],
        found: (0x401020, Some((24, 2)), 2),
        asked: (0x400ff0, 0x401040),
    },
    Case {
        bytes: LOCATION_SET,
        address: BASE,
        room: (9, 9),
        sizes: (1, 3, 2),
        ranges: &[(0x401000, 0x401010)],
        rows: &[
            (0x401004, Ok(CFA_24)),
            (0x401005, Err(Error::LocationGoesBack)),
        ],
        found: (0x401010, None, 1),
        asked: (0x400ff0, 0x401020),
    },
    // what gcc and ld made of seven functions; the one at the lowest address stands sixth
    Case {
        bytes: FRAMES,
        address: 0x402048,
        room: (17, 17),
        sizes: (7, 16, 16),
        ranges: &[(0x401000, 0x401019)],
        rows: &[],
        found: (0x4010b3, Some((0x5c, 4)), 3),
        asked: (0x400ff0, 0x4010f0),
    },
];

fn built<'a>(
    alloc: Global,
    bytes: &'a [u8],
    address: u64,
    room: (u32, u32),
) -> Result<Option<Prepared<'a>>, AllocError> {
    let frames = EhFrame::new(bytes, address);
    Prepared::build(alloc, &frames, &Bases::default(), room.0, room.1)
}

// Whether the first ranges are these, and each takes one step.
fn has_ranges(index: &Prepared<'_>, ranges: &[(u64, u64)]) -> bool {
    let mut next = 0;
    for range in ranges {
        let mut steps = Steps::new(Counted { count: 0 });
        if next >= index.len() || index.range(next, &mut steps) != *range {
            return false;
        }
        if steps.ledger().count != 1 {
            return false;
        }
        next = next.saturating_add(1);
    }
    true
}

fn are_same(one: &Row<'_>, other: &Row<'_>) -> bool {
    for column in 0..32u16 {
        if one.register(Register(column)) != other.register(Register(column)) {
            return false;
        }
    }
    one.cfa() == other.cfa() && one.saved_args_size() == other.saved_args_size()
}

fn are_same_answers(one: Result<Row<'_>, Error>, other: Result<Row<'_>, Error>) -> bool {
    match (one, other) {
        (Ok(one), Ok(other)) => are_same(&one, &other),
        (Err(one), Err(other)) => one == other,
        _ => false,
    }
}

// The row that an index answers at an address, and where its description stands.
fn row_in<'a>(index: &Prepared<'a>, pc: u64) -> (Option<u64>, Result<Row<'a>, Error>) {
    let mut steps = Steps::new(Counted { count: 0 });
    match index.find(pc, &mut steps) {
        Some(found) => (Some(found.fde.offset()), index.row(&found, pc)),
        None => (None, Err(Error::NoUnwindInfoForAddress)),
    }
}

// The row that a scan of the table answers.
fn row_by_scan<'a>(frames: &EhFrame<'a>, pc: u64) -> (Option<u64>, Result<Row<'a>, Error>) {
    let bases = Bases::default();
    match frames.fde_for_address(&bases, pc) {
        Ok(fde) => (
            Some(fde.offset()),
            fde.unwind_info_for_address(frames, &bases, pc),
        ),
        Err(error) => (None, Err(error)),
    }
}

fn has_rows(index: &Prepared<'_>, rows: &[(u64, Result<CfaRule<'static>, Error>)]) -> bool {
    for (pc, wanted) in rows {
        let cfa = match row_in(index, *pc).1 {
            Ok(row) => Ok(row.cfa()),
            Err(error) => Err(error),
        };
        if cfa != *wanted {
            return false;
        }
    }
    true
}

fn finds(index: &Prepared<'_>, wanted: (u64, Option<(u64, u64)>, u64)) -> bool {
    let (pc, place, most) = wanted;
    let mut steps = Steps::new(Counted { count: 0 });
    let found = match index.find(pc, &mut steps) {
        Some(found) => Some((found.fde.offset(), found.index)),
        None => None,
    };
    found == place && steps.ledger().count <= most
}

fn answers_as_scan(index: &Prepared<'_>, case: &Case) -> bool {
    let frames = EhFrame::new(case.bytes, case.address);
    for pc in case.asked.0..case.asked.1 {
        let (offset, row) = row_in(index, pc);
        let (scanned, due) = row_by_scan(&frames, pc);
        if offset != scanned || !are_same_answers(row, due) {
            return false;
        }
    }
    true
}

fn is_prepared_as(index: &Prepared<'_>, case: &Case) -> bool {
    (index.len(), index.rows_len(), index.rules_len()) == case.sizes
        && has_ranges(index, case.ranges)
        && has_rows(index, case.rows)
        && finds(index, case.found)
        && answers_as_scan(index, case)
}

fn is_prepared(alloc: Global, case: &Case) -> Result<bool, AllocError> {
    match built(alloc, case.bytes, case.address, case.room)? {
        Some(index) => Ok(is_prepared_as(&index, case)),
        None => Ok(false),
    }
}

#[test]
fn indexes_answer_as_scans(rt: HostRuntime) -> Result<(), Fail> {
    for case in CASES {
        assert!(rt; is_prepared(rt.alloc(), case)?);
    }
    Ok(())
}

// Tables at 0x500000 that have no index, or none in a room for so many rows and rules.
const NO_INDEX: &[(&[u8], (u32, u32))] = &[
    // a row and a rule too much
    (PUSH_RBX, (1, 3)),
    (PUSH_RBX, (2, 2)),
    // nothing
    (b"", (9, 9)),
    // the common information entry alone
    (
        b"\x14\x00\x00\x00\x00\x00\x00\x00\x01\x7a\x52\x00\x01\x78\x10\x01\x1b\x0c\x07\x08\x90\x01\x00\x00",
        (9, 9),
    ),
    // cut after the description's start
    (
        b"\x14\x00\x00\x00\x00\x00\x00\x00\x01\x7a\x52\x00\x01\x78\x10\x01\x1b\x0c\x07\x08\x90\x01\x00\x00\
        \x14\x00\x00\x00\x1c\x00\x00\x00\xe0\x0f\xf0\xff\x10\x00\x00\x00",
        (9, 9),
    ),
    // the description, and an entry of version 2
    (VERSION_TWO, (9, 9)),
    // a range without bytes
    (
        b"\x14\x00\x00\x00\x00\x00\x00\x00\x01\x7a\x52\x00\x01\x78\x10\x01\x1b\x0c\x07\x08\x90\x01\x00\x00\
        \x14\x00\x00\x00\x1c\x00\x00\x00\xe0\x0f\xf0\xff\x00\x00\x00\x00\x00\x41\x0e\x10\x83\x02\x00\x00",
        (9, 9),
    ),
    // the same function twice
    (
        b"\x14\x00\x00\x00\x00\x00\x00\x00\x01\x7a\x52\x00\x01\x78\x10\x01\x1b\x0c\x07\x08\x90\x01\x00\x00\
        \x14\x00\x00\x00\x1c\x00\x00\x00\xe0\x0f\xf0\xff\x10\x00\x00\x00\x00\x41\x0e\x10\x83\x02\x00\x00\
        \x14\x00\x00\x00\x34\x00\x00\x00\xc8\x0f\xf0\xff\x10\x00\x00\x00\x00\x41\x0e\x10\x83\x02\x00\x00",
        (9, 9),
    ),
    // a second function that begins at the last byte of the first
    (
        b"\x14\x00\x00\x00\x00\x00\x00\x00\x01\x7a\x52\x00\x01\x78\x10\x01\x1b\x0c\x07\x08\x90\x01\x00\x00\
        \x14\x00\x00\x00\x1c\x00\x00\x00\xe0\x0f\xf0\xff\x10\x00\x00\x00\x00\x41\x0e\x10\x83\x02\x00\x00\
        \x14\x00\x00\x00\x34\x00\x00\x00\xd7\x0f\xf0\xff\x10\x00\x00\x00\x00\x41\x0e\x10\x83\x02\x00\x00",
        (9, 9),
    ),
];

fn has_no_index(alloc: Global, bytes: &[u8], room: (u32, u32)) -> Result<bool, AllocError> {
    Ok(built(alloc, bytes, BASE, room)?.is_none())
}

#[test]
fn tables_without_an_index(rt: HostRuntime) -> Result<(), Fail> {
    for (bytes, room) in NO_INDEX {
        assert!(rt; has_no_index(rt.alloc(), bytes, *room)?);
    }
    Ok(())
}
