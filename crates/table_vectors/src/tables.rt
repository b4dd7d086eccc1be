//! Tables and what the standard says of them.

use eh_frame::*;

// A CIE, the FDE of a function of 16 bytes that pushes RBX, and the end of the list.
pub(crate) const PUSH_RBX: &[u8] =
    b"\x14\x00\x00\x00\x00\x00\x00\x00\x01\x7a\x52\x00\x01\x78\x10\x01\x1b\x0c\x07\x08\x90\x01\x00\x00\
    \x14\x00\x00\x00\x1c\x00\x00\x00\xe0\x0f\xf0\xff\x10\x00\x00\x00\x00\x41\x0e\x10\x83\x02\x00\x00\
    \x00\x00\x00\x00";

// The description that a scan of a table at 0x500000 finds.
fn scanned(table: &[u8], pc: u64) -> Result<Fde<'_>, Error> {
    EhFrame::new(table, 0x500000).fde_for_address(&Bases::default(), pc)
}

fn is_cie_of_push(cie: &Cie<'_>) -> bool {
    (cie.offset(), cie.version()) == (0, 1)
        && (cie.code_alignment(), cie.data_alignment()) == (1, -8)
        && cie.augmentation() == b"zR".as_slice()
        && cie.return_column() == Register(16)
}

fn is_push(fde: &Fde<'_>) -> bool {
    (fde.initial_address(), fde.len(), fde.offset()) == (0x401000, 16, 24)
        && fde.program() == b"\x41\x0e\x10\x83\x02\x00\x00".as_slice()
        && fde.contains(0x401005)
        && !fde.contains(0x401010)
        && is_cie_of_push(&fde.cie())
}

fn push_is_found() -> bool {
    match scanned(PUSH_RBX, 0x401005) {
        Ok(fde) => is_push(&fde),
        Err(_) => false,
    }
}

#[test]
fn a_description_is_found(rt: HostRuntime) {
    assert!(rt; push_is_found());
}

// The row at an address of the description that a scan finds for another.
fn row_at(table: &'static [u8], scanned_for: u64, pc: u64) -> Result<Row<'static>, Error> {
    let fde = scanned(table, scanned_for)?;
    fde.unwind_info_for_address(&EhFrame::new(table, 0x500000), &Bases::default(), pc)
}

fn is_row_after_push(row: &Row<'_>) -> bool {
    let cfa = CfaRule::RegisterAndOffset {
        register: Register(7),
        offset: 16,
    };
    row.cfa() == cfa
        && row.register(Register(3)) == Some(RegisterRule::Offset(0u64.wrapping_sub(16)))
        && row.registers().count() == 2
}

fn push_has_its_row() -> bool {
    match row_at(PUSH_RBX, 0x401005, 0x401005) {
        Ok(row) => is_row_after_push(&row),
        Err(_) => false,
    }
}

#[test]
fn the_row_of_a_description(rt: HostRuntime) {
    assert!(rt; push_has_its_row());
    let outside = row_at(PUSH_RBX, 0x401005, 0x401010);
    assert!(rt; outside.err() == Some(Error::NoUnwindInfoForAddress));
}

// Where the description begins that a scan finds, or the fault.
fn start_of(table: &[u8], pc: u64) -> Result<u64, Error> {
    match scanned(table, pc) {
        Ok(fde) => Ok(fde.initial_address()),
        Err(error) => Err(error),
    }
}

// The same function, and after it an entry of version 2.
pub(crate) const VERSION_TWO: &[u8] =
    b"\x14\x00\x00\x00\x00\x00\x00\x00\x01\x7a\x52\x00\x01\x78\x10\x01\x1b\x0c\x07\x08\x90\x01\x00\x00\
    \x14\x00\x00\x00\x1c\x00\x00\x00\xe0\x0f\xf0\xff\x10\x00\x00\x00\x00\x41\x0e\x10\x83\x02\x00\x00\
    \x05\x00\x00\x00\x00\x00\x00\x00\x02";

#[test]
fn an_unreadable_entry_ends_the_search(rt: HostRuntime) {
    assert!(rt; start_of(PUSH_RBX, 0x401010) == Err(Error::NoUnwindInfoForAddress));
    assert!(rt; start_of(VERSION_TWO, 0x40100f) == Ok(0x401000));
    assert!(rt; start_of(VERSION_TWO, 0x401010) == Err(Error::UnknownVersion));
}

const FAULTS: &[(&[u8], Error)] = &[
    // a length of two bytes
    (b"\x14\x00", Error::UnexpectedEof),
    // a body that is longer than the table
    (b"\x05\x00\x00\x00\x00\x00\x00\x00", Error::UnexpectedEof),
    // augmentation zPR, nothing after it
    (
        b"\x09\x00\x00\x00\x00\x00\x00\x00\x01\x7a\x50\x52\x00",
        Error::UnexpectedEof,
    ),
    // augmentation zRX
    (
        b"\x09\x00\x00\x00\x00\x00\x00\x00\x01\x7a\x52\x58\x00",
        Error::UnknownAugmentation,
    ),
    // augmentation zPR, whose personality is relative to a text that isn't known
    (
        b"\x0f\x00\x00\x00\x00\x00\x00\x00\x01\x7a\x50\x52\x00\x01\x78\x10\x02\x2b\x1b",
        Error::UndefinedBase,
    ),
    // an augmentation without a zero byte
    (
        b"\x07\x00\x00\x00\x00\x00\x00\x00\x01\x7a\x52",
        Error::UnexpectedEof,
    ),
    // tenth byte of the code alignment
    (
        b"\x12\x00\x00\x00\x00\x00\x00\x00\x01\x7a\x52\x00\x80\x80\x80\x80\x80\x80\x80\x80\x80\x02",
        Error::BadUnsignedLeb128,
    ),
    // tenth byte of the data alignment
    (
        b"\x13\x00\x00\x00\x00\x00\x00\x00\x01\x7a\x52\x00\x01\x80\x80\x80\x80\x80\x80\x80\x80\x80\x01",
        Error::BadSignedLeb128,
    ),
    // encoding 0d
    (
        b"\x0d\x00\x00\x00\x00\x00\x00\x00\x01\x7a\x52\x00\x01\x78\x10\x01\x0d",
        Error::UnknownPointerEncoding,
    ),
    // encoding 00, and no address
    (
        b"\x0d\x00\x00\x00\x00\x00\x00\x00\x01\x7a\x52\x00\x01\x78\x10\x01\x00\x04\x00\x00\x00\x15\x00\x00\x00",
        Error::UnexpectedEof,
    ),
    // encoding 9b
    (
        b"\x0d\x00\x00\x00\x00\x00\x00\x00\x01\x7a\x52\x00\x01\x78\x10\x01\x9b\x08\x00\x00\x00\
        \x15\x00\x00\x00\x00\x00\x00\x00",
        Error::UnsupportedPointerEncoding,
    ),
    // a distance that leads before the table
    (b"\x04\x00\x00\x00\x05\x00\x00\x00", Error::NotCie),
    // a distance that leads to the description itself
    (b"\x04\x00\x00\x00\x04\x00\x00\x00", Error::NotCie),
    // a length of -1
    (
        b"\x0d\x00\x00\x00\x00\x00\x00\x00\x01\x7a\x52\x00\x01\x78\x10\x01\x1b\x0c\x00\x00\x00\
        \x15\x00\x00\x00\x00\x00\x00\x00\xff\xff\xff\xff",
        Error::AddressOverflow,
    ),
    // augmentation bytes after the description
    (
        b"\x0d\x00\x00\x00\x00\x00\x00\x00\x01\x7a\x52\x00\x01\x78\x10\x01\x1b\x0d\x00\x00\x00\
        \x15\x00\x00\x00\x00\x00\x00\x00\x01\x00\x00\x00\x01",
        Error::UnexpectedEof,
    ),
    // no entry
    (b"", Error::NoUnwindInfoForAddress),
];

#[test]
fn the_first_fault_is_told(rt: HostRuntime) {
    for (table, fault) in FAULTS {
        assert!(rt; start_of(table, 0x401005) == Err(*fault));
    }
}

// What `clang` and `ld` make of three functions at 0x401000, 0x401008 and 0x401009: one with a
// personality by a cell and a language table, one with neither, and one with a personality alone.
const LANGUAGES: &[u8] = &[
    0x14, 0, 0, 0, 0, 0, 0, 0, 0x01, 0x7a, 0x52, 0, 0x01, 0x78, 0x10, 0x01, 0x1b, 0x0c, 0x07, 0x08,
    0x90, 0x01, 0, 0, 0x10, 0, 0, 0, 0x1c, 0, 0, 0, 0xe8, 0x0f, 0xf0, 0xff, 0x01, 0, 0, 0, 0, 0, 0,
    0, 0x1c, 0, 0, 0, 0, 0, 0, 0, 0x01, 0x7a, 0x50, 0x4c, 0x52, 0, 0x01, 0x78, 0x10, 0x07, 0x9b,
    0xc1, 0x0f, 0x10, 0, 0x1b, 0x1b, 0x0c, 0x07, 0x08, 0x90, 0x01, 0, 0, 0x1c, 0, 0, 0, 0x24, 0, 0,
    0, 0xac, 0x0f, 0xf0, 0xff, 0x08, 0, 0, 0, 0x04, 0xa3, 0xff, 0x0f, 0, 0x41, 0x0e, 0x10, 0x83,
    0x02, 0x46, 0x0e, 0x08, 0, 0, 0, 0x18, 0, 0, 0, 0, 0, 0, 0, 0x01, 0x7a, 0x50, 0x52, 0, 0x01,
    0x78, 0x10, 0x06, 0x1b, 0x8b, 0x0f, 0xf0, 0xff, 0x1b, 0x0c, 0x07, 0x08, 0x90, 0x01, 0x10, 0, 0,
    0, 0x20, 0, 0, 0, 0x79, 0x0f, 0xf0, 0xff, 0x01, 0, 0, 0, 0, 0, 0, 0,
];

// What a description says of its language: where its code begins and how long it is, where the
// language table and the personality are, and the letters and encodings of those.
struct Language {
    range: (u64, u64),
    lsda: Option<Pointer>,
    personality: Option<Pointer>,
    augmentation: &'static [u8],
    encodings: (Option<DwEhPe>, Option<DwEhPe>),
}

// The addresses are those that `nm` and `readelf` tell of the linked file.
const SAID: &[(u64, Language)] = &[
    (
        0x401007,
        Language {
            range: (0x401000, 8),
            lsda: Some(Pointer::Direct(0x600000)),
            personality: Some(Pointer::Indirect(0x601000)),
            augmentation: b"zPLR",
            encodings: (Some(DwEhPe(0x9b)), Some(DwEhPe(0x1b))),
        },
    ),
    (
        0x401008,
        Language {
            range: (0x401008, 1),
            lsda: None,
            personality: None,
            augmentation: b"zR",
            encodings: (None, None),
        },
    ),
    (
        0x401009,
        Language {
            range: (0x401009, 1),
            lsda: None,
            personality: Some(Pointer::Direct(0x401009)),
            augmentation: b"zPR",
            encodings: (Some(DwEhPe(0x1b)), None),
        },
    ),
];

fn has_encodings(cie: &Cie<'_>, said: &Language) -> bool {
    cie.augmentation() == said.augmentation
        && cie.personality() == said.personality
        && cie.personality_encoding() == said.encodings.0
        && cie.lsda_encoding() == said.encodings.1
        && cie.address_encoding() == Some(DwEhPe(0x1b))
}

fn has_language(fde: &Fde<'_>, said: &Language) -> bool {
    (fde.initial_address(), fde.len()) == said.range
        && fde.lsda() == said.lsda
        && fde.personality() == said.personality
        && has_encodings(&fde.cie(), said)
}

fn is_said(pc: u64, said: &Language) -> bool {
    match scanned(LANGUAGES, pc) {
        Ok(fde) => has_language(&fde, said),
        Err(_) => false,
    }
}

#[test]
fn personalities_and_language_tables(rt: HostRuntime) {
    for (pc, said) in SAID {
        assert!(rt; is_said(*pc, said));
    }
}
