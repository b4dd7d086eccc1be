//! Entries of all forms, and what the LSB and DWARF 5 section 6.4.1 say of them.

use eh_frame::*;

fn table_of(bytes: &[u8]) -> EhFrame<'_> {
    EhFrame::new(bytes, 0x500000)
}

// The common information entry of the functions that signals return to, the description of one of
// 16 bytes, and the end of the list.
const SIGNAL: &[u8] =
    b"\x14\x00\x00\x00\x00\x00\x00\x00\x01zRS\x00\x01\x78\x10\x01\x1b\x0c\x07\x08\x90\x01\x00\
    \x14\x00\x00\x00\x1c\x00\x00\x00\xe0\x0f\xf0\xff\x10\x00\x00\x00\x00\x00\x00\x00\x00\x00\x00\x00\
    \x00\x00\x00\x00";

fn is_signal_cie(entry: Result<Option<Entry<'_>>, Error>) -> bool {
    let Ok(Some(Entry::Cie(cie))) = entry else {
        return false;
    };
    cie.offset() == 0
        && cie.augmentation() == b"zRS".as_slice()
        && cie.program() == b"\x0c\x07\x08\x90\x01\x00".as_slice()
        && cie.is_signal_trampoline()
}

fn is_signal_fde(entry: Result<Option<Entry<'_>>, Error>) -> bool {
    let Ok(Some(Entry::Fde(fde))) = entry else {
        return false;
    };
    (fde.offset(), fde.cie().offset()) == (24, 0)
        && (fde.initial_address(), fde.len()) == (0x401000, 16)
        && fde.is_signal_trampoline()
}

// Whether the entries are over, and stay so.
fn are_over(entries: &mut Entries<'_>, offset: u64) -> bool {
    entries.offset() == offset
        && matches!(entries.next(), Ok(None))
        && entries.offset() == offset
        && matches!(entries.next(), Ok(None))
}

fn signal_entries_come_in_order() -> bool {
    let mut entries = table_of(SIGNAL).entries(&Bases::default());
    entries.offset() == 0
        && is_signal_cie(entries.next())
        && entries.offset() == 24
        && is_signal_fde(entries.next())
        && are_over(&mut entries, 48)
}

#[test]
fn entries_come_in_order(rt: HostRuntime) {
    assert!(rt; signal_entries_come_in_order());
}

// Whether the first entry is the common one, and the second an error that ends the entries.
fn ends_by_an_error(table: &[u8]) -> bool {
    let mut entries = table_of(table).entries(&Bases::default());
    is_signal_cie(entries.next())
        && entries.next().err() == Some(Error::UnexpectedEof)
        && are_over(&mut entries, 24)
}

// The second entry's body is longer than the table.
#[test]
fn an_error_ends_the_entries(rt: HostRuntime) {
    assert!(rt; ends_by_an_error(&SIGNAL[..47]));
}

// What a common information entry says: version, return column, factors, and the encodings of P, L
// and R.
struct Said {
    version: u8,
    column: u16,
    factors: (u64, i64),
    encodings: (Option<DwEhPe>, Option<DwEhPe>, Option<DwEhPe>),
}

const RELATIVE: Option<DwEhPe> = Some(DwEhPe::RELATIVE_SDATA4);

// `readelf` tells the same of all but the first and the last, which it doesn't read.
const SAID: &[(&[u8], Said)] = &[
    // version 3 spells the return column by LEB128
    (
        b"\x10\x00\x00\x00\x00\x00\x00\x00\x03zR\x00\x01\x78\x90\x01\x01\x1b\x00\x00",
        Said {
            version: 3,
            column: 144,
            factors: (1, -8),
            encodings: (None, None, RELATIVE),
        },
    ),
    // version 4 names the sizes of addresses and segments
    (
        b"\x10\x00\x00\x00\x00\x00\x00\x00\x04zR\x00\x08\x00\x02\x7c\x10\x01\x1b\x00",
        Said {
            version: 4,
            column: 16,
            factors: (2, -4),
            encodings: (None, None, RELATIVE),
        },
    ),
    // no augmentation
    (
        b"\x10\x00\x00\x00\x00\x00\x00\x00\x01\x00\x01\x78\x10\x0c\x07\x08\x90\x01\x00\x00",
        Said {
            version: 1,
            column: 16,
            factors: (1, -8),
            encodings: (None, None, None),
        },
    ),
    // letters in another order
    (
        b"\x18\x00\x00\x00\x00\x00\x00\x00\x01zSRPL\x00\x01\x78\x10\x07\x1b\x03\x78\x56\x34\x12\x1b\x00\x00",
        Said {
            version: 1,
            column: 16,
            factors: (1, -8),
            encodings: (Some(DwEhPe(3)), RELATIVE, RELATIVE),
        },
    ),
    // the later of two
    (
        b"\x10\x00\x00\x00\x00\x00\x00\x00\x01zRR\x00\x01\x78\x10\x02\x00\x1b\x00",
        Said {
            version: 1,
            column: 16,
            factors: (1, -8),
            encodings: (None, None, RELATIVE),
        },
    ),
    // a length of eight bytes
    (
        b"\xff\xff\xff\xff\x10\x00\x00\x00\x00\x00\x00\x00\x00\x00\x00\x00\x01zR\x00\x01\x78\x10\x01\x1b\x00\x00\x00",
        Said {
            version: 1,
            column: 16,
            factors: (1, -8),
            encodings: (None, None, RELATIVE),
        },
    ),
];

fn says(cie: &Cie<'_>, said: &Said) -> bool {
    cie.version() == said.version
        && cie.return_column() == Register(said.column)
        && (cie.code_alignment(), cie.data_alignment()) == said.factors
        && cie.personality_encoding() == said.encodings.0
        && cie.lsda_encoding() == said.encodings.1
        && cie.address_encoding() == said.encodings.2
}

fn first_entry_says(table: &[u8], said: &Said) -> bool {
    match table_of(table).entries(&Bases::default()).next() {
        Ok(Some(Entry::Cie(cie))) => says(&cie, said),
        _ => false,
    }
}

#[test]
fn versions_letters_and_lengths(rt: HostRuntime) {
    for (table, said) in SAID {
        assert!(rt; first_entry_says(table, said));
    }
}

const FAULTS: &[(&[u8], Error)] = &[
    // version 2
    (
        b"\x05\x00\x00\x00\x00\x00\x00\x00\x02",
        Error::UnknownVersion,
    ),
    // addresses of 4 bytes, and segments of 1
    (
        b"\x0a\x00\x00\x00\x00\x00\x00\x00\x04zR\x00\x04\x00",
        Error::UnsupportedAddressSize,
    ),
    (
        b"\x0a\x00\x00\x00\x00\x00\x00\x00\x04zR\x00\x08\x01",
        Error::UnsupportedAddressSize,
    ),
    // the old augmentation eh, and letters without a z
    (
        b"\x08\x00\x00\x00\x00\x00\x00\x00\x01eh\x00",
        Error::UnknownAugmentation,
    ),
    (
        b"\x07\x00\x00\x00\x00\x00\x00\x00\x01R\x00",
        Error::UnknownAugmentation,
    ),
    // column 65536 of version 3
    (
        b"\x0d\x00\x00\x00\x00\x00\x00\x00\x03zR\x00\x01\x78\x80\x80\x04",
        Error::UnsupportedRegister,
    ),
    // a length of eight bytes of which seven are there, and one past the table
    (
        b"\xff\xff\xff\xff\x10\x00\x00\x00\x00\x00\x00",
        Error::UnexpectedEof,
    ),
    (
        b"\xff\xff\xff\xff\x00\x00\x00\x00\x01\x00\x00\x00\x00",
        Error::UnexpectedEof,
    ),
    // a length of eight bytes that is 0, which ends no table: an entry without content
    (
        b"\xff\xff\xff\xff\x00\x00\x00\x00\x00\x00\x00\x00",
        Error::UnexpectedEof,
    ),
];

fn first_fault(table: &[u8]) -> Option<Error> {
    table_of(table).entries(&Bases::default()).next().err()
}

#[test]
fn faults_of_entries(rt: HostRuntime) {
    for (table, fault) in FAULTS {
        assert!(rt; first_fault(table) == Some(*fault));
    }
}

// Without an augmentation addresses are whole words, and no bytes of letters follow.
const PLAIN: &[u8] =
    b"\x10\x00\x00\x00\x00\x00\x00\x00\x01\x00\x01\x78\x10\x0c\x07\x08\x90\x01\x00\x00\
    \x18\x00\x00\x00\x18\x00\x00\x00\x00\x10\x40\x00\x00\x00\x00\x00\x10\x00\x00\x00\x00\x00\x00\x00\x41\x0e\x10\x00";

fn is_plain(fde: &Fde<'_>) -> bool {
    (fde.initial_address(), fde.len()) == (0x401000, 16)
        && fde.program() == b"\x41\x0e\x10\x00".as_slice()
        && fde.lsda().is_none()
        && fde.personality().is_none()
}

fn plain_is_read() -> bool {
    match table_of(PLAIN).fde_at(&Bases::default(), 20) {
        Ok(fde) => is_plain(&fde),
        Err(_) => false,
    }
}

// With the letter L a pointer may still be left out.
const OMITTED: &[u8] = b"\x0f\x00\x00\x00\x00\x00\x00\x00\x01zLR\x00\x01\x78\x10\x02\xff\x1b\
    \x0d\x00\x00\x00\x17\x00\x00\x00\xe5\x0f\xf0\xff\x10\x00\x00\x00\x00";

fn is_omitted(fde: &Fde<'_>) -> bool {
    fde.initial_address() == 0x401000
        && fde.lsda().is_none()
        && fde.cie().lsda_encoding() == Some(DwEhPe::OMIT)
}

fn omitted_is_read() -> bool {
    match table_of(OMITTED).fde_at(&Bases::default(), 19) {
        Ok(fde) => is_omitted(&fde),
        Err(_) => false,
    }
}

#[test]
fn descriptions_without_pointers(rt: HostRuntime) {
    assert!(rt; plain_is_read());
    assert!(rt; omitted_is_read());
    let no_description = table_of(PLAIN).fde_at(&Bases::default(), 0);
    assert!(rt; no_description.err() == Some(Error::NotFde));
}
