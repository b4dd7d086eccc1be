//! Headers and what other tools say of them.

use eh_frame::*;
use memory_image::{Counted, Steps};

// What gcc 12 at -O2 and ld made of seven functions, with the frame table at 0x402048 and its
// header at 0x402000 (`objdump -s`).
pub(crate) const FRAMES: &[u8] = &[
    0x14, 0, 0, 0, 0, 0, 0, 0, 0x01, 0x7a, 0x52, 0, 0x01, 0x78, 0x10, 0x01, 0x1b, 0x0c, 0x07, 0x08,
    0x90, 0x01, 0, 0, 0x10, 0, 0, 0, 0x1c, 0, 0, 0, 0xb8, 0xef, 0xff, 0xff, 0x07, 0, 0, 0, 0, 0, 0,
    0, 0x14, 0, 0, 0, 0x30, 0, 0, 0, 0xb4, 0xef, 0xff, 0xff, 0x18, 0, 0, 0, 0, 0x44, 0x0e, 0x20,
    0x51, 0x0e, 0x08, 0, 0x14, 0, 0, 0, 0x48, 0, 0, 0, 0xbc, 0xef, 0xff, 0xff, 0x28, 0, 0, 0, 0,
    0x44, 0x0e, 0x10, 0x61, 0x0e, 0x08, 0, 0x14, 0, 0, 0, 0x60, 0, 0, 0, 0xd4, 0xef, 0xff, 0xff,
    0x34, 0, 0, 0, 0, 0x44, 0x0e, 0x10, 0x6c, 0x0e, 0x08, 0, 0x10, 0, 0, 0, 0x78, 0, 0, 0, 0xfc,
    0xef, 0xff, 0xff, 0x04, 0, 0, 0, 0, 0, 0, 0, 0x14, 0, 0, 0, 0x8c, 0, 0, 0, 0x28, 0xef, 0xff,
    0xff, 0x19, 0, 0, 0, 0, 0x44, 0x0e, 0x10, 0x4e, 0x0e, 0x08, 0, 0x10, 0, 0, 0, 0xa4, 0, 0, 0,
    0xe0, 0xef, 0xff, 0xff, 0x10, 0, 0, 0, 0, 0x44, 0x0e, 0x10,
];

const HEADER: &[u8] = &[
    0x01, 0x1b, 0x03, 0x3b, 0x44, 0, 0, 0, 0x07, 0, 0, 0, 0, 0xf0, 0xff, 0xff, 0xd0, 0, 0, 0, 0x20,
    0xf0, 0xff, 0xff, 0x60, 0, 0, 0, 0x30, 0xf0, 0xff, 0xff, 0x74, 0, 0, 0, 0x50, 0xf0, 0xff, 0xff,
    0x8c, 0, 0, 0, 0x80, 0xf0, 0xff, 0xff, 0xa4, 0, 0, 0, 0xc0, 0xf0, 0xff, 0xff, 0xbc, 0, 0, 0,
    0xd0, 0xf0, 0xff, 0xff, 0xe8, 0, 0, 0,
];

// The table of a header.
fn table_in(header: &[u8], address: u64) -> Option<HdrTable<'_>> {
    match EhFrameHdr::parse(header, address, &Bases::default()) {
        Ok(header) => header.table(),
        Err(_) => None,
    }
}

// Whether a search finds a description for an address, by its start and its offset, or the error, and
// takes at most so many steps.
fn finds(
    table: &HdrTable<'_>,
    frames: &EhFrame<'_>,
    pc: u64,
    wanted: Result<(u64, u64), Error>,
    most: u64,
) -> bool {
    let mut steps = Steps::new(Counted { count: 0 });
    let found = match table.fde_for_address(frames, &Bases::default(), pc, &mut steps) {
        Ok(fde) => Ok((fde.initial_address(), fde.offset())),
        Err(error) => Err(error),
    };
    found == wanted && steps.ledger().count <= most
}

fn finds_in_linked(pc: u64, wanted: Result<(u64, u64), Error>) -> bool {
    match table_in(HEADER, 0x402000) {
        Some(table) => finds(&table, &EhFrame::new(FRAMES, 0x402048), pc, wanted, 3),
        None => false,
    }
}

// Start, end and offset of each description are those that `readelf --debug-dump=frames` prints.
const PRINTED: &[(u64, u64, u64)] = &[
    (0x401000, 0x401019, 0x88),
    (0x401020, 0x401027, 0x18),
    (0x401030, 0x401048, 0x2c),
    (0x401050, 0x401078, 0x44),
    (0x401080, 0x4010b4, 0x5c),
    (0x4010c0, 0x4010c4, 0x74),
    (0x4010d0, 0x4010e0, 0xa0),
];

#[test]
fn a_linked_table_is_searched(rt: HostRuntime) {
    let none = Err(Error::NoUnwindInfoForAddress);
    for (start, end, offset) in PRINTED {
        assert!(rt; finds_in_linked(*start, Ok((*start, *offset))));
        assert!(rt; finds_in_linked(end.wrapping_sub(1), Ok((*start, *offset))));
        assert!(rt; finds_in_linked(*end, none));
    }
    assert!(rt; finds_in_linked(0x400fff, none));
}

// Whether a header at an address names the frame table at another, and how many entries it says that
// its own table has.
fn names(header: &[u8], address: u64, frames: u64, count: u64) -> bool {
    match EhFrameHdr::parse(header, address, &Bases::default()) {
        Ok(header) => {
            header.eh_frame_ptr() == Pointer::Direct(frames)
                && header.table().is_some_and(|table| table.len() == count)
        }
        Err(_) => false,
    }
}

#[test]
fn headers_name_their_frame_tables(rt: HostRuntime) {
    assert!(rt; names(HEADER, 0x402000, 0x402048, 7));
    assert!(rt; names(HEADER_OF_THREE, 0x504000, 0x500000, 3));
}

// A frame table of three functions at 0x500000, of which two have language tables, and its header
// at 0x504000.
const THREE: [u8; 152] = [
    0x14, 0, 0, 0, 0, 0, 0, 0, 0x01, 0x7a, 0x52, 0, 0x01, 0x78, 0x10, 0x01, 0x1b, 0x0c, 0x07, 0x08,
    0x90, 0x01, 0, 0, 0x18, 0, 0, 0, 0x1c, 0, 0, 0, 0xe0, 0x0f, 0xf0, 0xff, 0x20, 0, 0, 0, 0, 0x41,
    0x0e, 0x10, 0x86, 0x02, 0x43, 0x0d, 0x06, 0x45, 0x83, 0x03, 0x1c, 0, 0, 0, 0, 0, 0, 0, 0x01,
    0x7a, 0x50, 0x4c, 0x52, 0, 0x01, 0x78, 0x10, 0x07, 0x9b, 0xb9, 0x2f, 0, 0, 0x1b, 0x1b, 0x0c,
    0x07, 0x08, 0x90, 0x01, 0, 0, 0x18, 0, 0, 0, 0x24, 0, 0, 0, 0xc4, 0x0f, 0xf0, 0xff, 0x30, 0, 0,
    0, 0x04, 0x9b, 0x1f, 0, 0, 0x41, 0x0e, 0x10, 0x83, 0x02, 0, 0, 0x20, 0, 0, 0, 0x40, 0, 0, 0,
    0xd8, 0x0f, 0xf0, 0xff, 0x30, 0, 0, 0, 0x04, 0x8b, 0x1f, 0, 0, 0x42, 0x0e, 0x10, 0x41, 0x0e,
    0x18, 0x44, 0x0e, 0x20, 0x83, 0x03, 0x8e, 0x02, 0, 0, 0, 0, 0, 0,
];

const HEADER_OF_THREE: &[u8] = &[
    0x01, 0x1b, 0x03, 0x3b, 0xfc, 0xbf, 0xff, 0xff, 0x03, 0, 0, 0, 0, 0xd0, 0xef, 0xff, 0x18, 0xc0,
    0xff, 0xff, 0x20, 0xd0, 0xef, 0xff, 0x54, 0xc0, 0xff, 0xff, 0x50, 0xd0, 0xef, 0xff, 0x70, 0xc0,
    0xff, 0xff,
];

fn finds_in_three(frames: &[u8], pc: u64, wanted: Result<(u64, u64), Error>) -> bool {
    match table_in(HEADER_OF_THREE, 0x504000) {
        Some(table) => finds(&table, &EhFrame::new(frames, 0x500000), pc, wanted, 2),
        None => false,
    }
}

// The same frame table, whose first entry has version 2.
fn damaged() -> [u8; 152] {
    let mut frames = THREE;
    frames[8] = 2;
    frames
}

fn scanned_for(frames: &[u8], pc: u64) -> Option<Error> {
    EhFrame::new(frames, 0x500000)
        .fde_for_address(&Bases::default(), pc)
        .err()
}

// The header leads after an entry that can't be read, where a scan finds nothing.
const FUNCTIONS: &[(u64, u64, Result<(u64, u64), Error>)] = &[
    (0x401000, 0x18, Err(Error::UnknownVersion)),
    (0x401020, 0x54, Ok((0x401020, 0x54))),
    (0x401050, 0x70, Ok((0x401050, 0x70))),
];

#[test]
fn three_functions_take_two_steps(rt: HostRuntime) {
    let frames = THREE;
    let unread = damaged();
    for (start, offset, after) in FUNCTIONS {
        let pc = start.wrapping_add(0x1f);
        assert!(rt; finds_in_three(&frames, pc, Ok((*start, *offset))));
        assert!(rt; finds_in_three(&unread, pc, *after));
    }
    assert!(rt; scanned_for(&unread, 0x401020) == Some(Error::UnknownVersion));
}

fn fault_of(header: &[u8]) -> Option<Error> {
    EhFrameHdr::parse(header, 0x504000, &Bases::default()).err()
}

const FAULTS: &[(&[u8], Error)] = &[
    (b"", Error::UnexpectedEof),
    // version 2, and nothing after it
    (b"\x02", Error::UnknownVersion),
    (b"\x01\x1b\x03", Error::UnexpectedEof),
    // encodings with the formats 0d and 05
    (b"\x01\x0d", Error::UnknownPointerEncoding),
    (b"\x01\x1b\x05", Error::UnknownPointerEncoding),
    (b"\x01\x1b\x03\x6b", Error::UnknownPointerEncoding),
    // no pointer to the frame table, an aligned one, and one relative to a text that isn't known
    (b"\x01\xff\x03\x3b", Error::CannotParseOmitPointerEncoding),
    (b"\x01\x50\x03\x3b", Error::UnsupportedPointerEncoding),
    (b"\x01\x2b\x03\x3b", Error::UndefinedBase),
    (b"\x01\x1b\x03\x3b\x00\x00\x00", Error::UnexpectedEof),
    // a count that is relative to its place, and one that is cut
    (
        b"\x01\x1b\x13\x3b\x00\x00\x00\x00\x01\x00\x00\x00",
        Error::UnsupportedPointerEncoding,
    ),
    (
        b"\x01\x1b\x03\x3b\x00\x00\x00\x00\x01",
        Error::UnexpectedEof,
    ),
];

#[test]
fn the_first_fault_of_a_header_is_told(rt: HostRuntime) {
    for (header, fault) in FAULTS {
        assert!(rt; fault_of(header) == Some(*fault));
    }
}

fn has_no_table(header: &[u8]) -> bool {
    match EhFrameHdr::parse(header, 0x504000, &Bases::default()) {
        Ok(header) => header.table().is_none(),
        Err(_) => false,
    }
}

const WITHOUT_TABLE: &[&[u8]] = &[
    // no count, and a count of 0
    b"\x01\x1b\xff\x3b\x00\x00\x00\x00",
    b"\x01\x1b\x03\x3b\x00\x00\x00\x00\x00\x00\x00\x00",
    // no table, and addresses in LEB128
    b"\x01\x1b\x03\xff\x00\x00\x00\x00",
    b"\x01\x1b\x03\x01\x00\x00\x00\x00\x01\x00\x00\x00\x01\x02",
    b"\x01\x1b\x03\x39\x00\x00\x00\x00\x01\x00\x00\x00\x01\x02",
];

#[test]
fn headers_without_a_table(rt: HostRuntime) {
    for header in WITHOUT_TABLE {
        assert!(rt; has_no_table(header));
    }
}

// Whether the only entry of a table is read so, in one step.
fn only_entry(table: &HdrTable<'_>, wanted: Result<(u64, u64), Error>) -> bool {
    if table.len() != 1 {
        return false;
    }
    let mut steps = Steps::new(Counted { count: 0 });
    table.entry(0, &mut steps) == wanted && steps.ledger().count == 1
}

// The only entry of a table whose addresses are encoded so, and whose bytes are 00 to 0e. It stands
// at 0x50400a.
fn is_entry(encoding: u8, wanted: Result<(u64, u64), Error>) -> bool {
    let mut header =
        *b"\x01\x1b\x02\x00\x00\x00\x00\x00\x01\x00\x00\x01\x02\x03\x04\x05\x06\x07\x08\x09\x0a\x0b\x0c\x0d\x0e";
    header[3] = encoding;
    match table_in(&header, 0x504000) {
        Some(table) => only_entry(&table, wanted),
        None => false,
    }
}

// Of each format what Python's `struct` gives.
const ENTRIES: &[(u8, Result<(u64, u64), Error>)] = &[
    (0x02, Ok((0x0100, 0x0302))),
    (0x03, Ok((0x03020100, 0x07060504))),
    // relative to the header, and each to its own place
    (0x3a, Ok((0x504100, 0x504302))),
    (0x1b, Ok((0x0352410a, 0x07564512))),
    // eight bytes each, of which the last is missing
    (0x00, Err(Error::UnexpectedEof)),
    (0x2b, Err(Error::UndefinedBase)),
    (0x5b, Err(Error::UnsupportedPointerEncoding)),
    (0xbb, Err(Error::UnsupportedPointerEncoding)),
];

#[test]
fn entries_by_their_encoding(rt: HostRuntime) {
    for (encoding, wanted) in ENTRIES {
        assert!(rt; is_entry(*encoding, *wanted));
    }
}
