//! Numbers and pointers, with the values that the standard and Python's `struct` give them.

use encoded_pointers::*;

// Whether a number in LEB128 is read so, by so many bytes.
fn unsigned(bytes: &[u8], number: Result<u64, Error>, size: u64) -> bool {
    let mut input = Cursor::new(bytes, 0);
    input.read_uleb128() == number && input.address() == size
}

fn signed(bytes: &[u8], number: Result<i64, Error>, size: u64) -> bool {
    let mut input = Cursor::new(bytes, 0);
    input.read_sleb128() == number && input.address() == size
}

const UNSIGNED: &[(&[u8], Result<u64, Error>, u64)] = &[
    // the examples of DWARF 5 section 7.6
    (b"\x02", Ok(2), 1),
    (b"\x7f", Ok(127), 1),
    (b"\x80\x01", Ok(128), 2),
    (b"\x81\x01", Ok(129), 2),
    (b"\xb9\x64", Ok(12857), 2),
    // tenth bytes
    (b"\x80\x80\x80\x80\x80\x80\x80\x80\x80\x00", Ok(0), 10),
    (b"\x80\x80\x80\x80\x80\x80\x80\x80\x80\x01", Ok(1 << 63), 10),
    (
        b"\x80\x80\x80\x80\x80\x80\x80\x80\x80\x02",
        Err(Error::BadUnsignedLeb128),
        0,
    ),
    (
        b"\x80\x80\x80\x80\x80\x80\x80\x80\x80\x80",
        Err(Error::BadUnsignedLeb128),
        0,
    ),
    // an end that comes too early
    (b"\x80\x80", Err(Error::UnexpectedEof), 0),
];

#[test]
fn unsigned_numbers(rt: HostRuntime) {
    for (bytes, number, size) in UNSIGNED {
        assert!(rt; unsigned(bytes, *number, *size));
    }
}

const SIGNED: &[(&[u8], Result<i64, Error>, u64)] = &[
    // the examples of DWARF 5 section 7.6
    (b"\x02", Ok(2), 1),
    (b"\x7e", Ok(-2), 1),
    (b"\xff\x00", Ok(127), 2),
    (b"\x81\x7f", Ok(-127), 2),
    (b"\x80\x01", Ok(128), 2),
    (b"\x80\x7f", Ok(-128), 2),
    (b"\x81\x01", Ok(129), 2),
    (b"\xff\x7e", Ok(-129), 2),
    // tenth bytes
    (b"\xff\xff\xff\xff\xff\xff\xff\xff\xff\x7f", Ok(-1), 10),
    (
        b"\x80\x80\x80\x80\x80\x80\x80\x80\x80\x7f",
        Ok(i64::MIN),
        10,
    ),
    (
        b"\x80\x80\x80\x80\x80\x80\x80\x80\x80\x01",
        Err(Error::BadSignedLeb128),
        0,
    ),
    (
        b"\xff\xff\xff\xff\xff\xff\xff\xff\xff\x7e",
        Err(Error::BadSignedLeb128),
        0,
    ),
    // an end that comes too early
    (b"\x80\x80", Err(Error::UnexpectedEof), 0),
];

#[test]
fn signed_numbers(rt: HostRuntime) {
    for (bytes, number, size) in SIGNED {
        assert!(rt; signed(bytes, *number, *size));
    }
}

// Whether the first byte is read so, as a number without and with a sign.
fn one_byte(bytes: &[u8], number: Result<u8, Error>, signed: Result<i8, Error>) -> bool {
    let mut input = Cursor::new(bytes, 0x1000);
    let mut again = input;
    input.read_u8() == number
        && again.read_i8() == signed
        && input.address() == 0x1000 + number.is_ok() as u64
        && again.address() == input.address()
}

fn two_bytes(bytes: &[u8], number: Result<u16, Error>, signed: Result<i16, Error>) -> bool {
    let mut input = Cursor::new(bytes, 0x1000);
    let mut again = input;
    input.read_u16() == number
        && again.read_i16() == signed
        && input.address() == 0x1000 + 2 * number.is_ok() as u64
        && again.address() == input.address()
}

fn four_bytes(bytes: &[u8], number: Result<u32, Error>, signed: Result<i32, Error>) -> bool {
    let mut input = Cursor::new(bytes, 0x1000);
    let mut again = input;
    input.read_u32() == number
        && again.read_i32() == signed
        && input.address() == 0x1000 + 4 * number.is_ok() as u64
        && again.address() == input.address()
}

fn eight_bytes(bytes: &[u8], number: Result<u64, Error>, signed: Result<i64, Error>) -> bool {
    let mut input = Cursor::new(bytes, 0x1000);
    let mut again = input;
    input.read_u64() == number
        && again.read_i64() == signed
        && input.address() == 0x1000 + 8 * number.is_ok() as u64
        && again.address() == input.address()
}

const BYTES: &[u8] = &[0xfe, 0xff, 0x80, 0xf1, 0x02, 0x03, 0x04, 0xf5];

// What `struct.unpack('<B')` and so on of Python give for the same bytes.
#[test]
fn fixed_numbers(rt: HostRuntime) {
    assert!(rt; one_byte(BYTES, Ok(254), Ok(-2)));
    assert!(rt; two_bytes(BYTES, Ok(65534), Ok(-2)));
    assert!(rt; four_bytes(BYTES, Ok(4051763198), Ok(-243204098)));
    assert!(rt; eight_bytes(BYTES, Ok(17655239750375768062), Ok(-791504323333783554)));
}

#[test]
fn numbers_that_end_too_early(rt: HostRuntime) {
    let end = Error::UnexpectedEof;
    assert!(rt; one_byte(b"", Err(end), Err(end)));
    assert!(rt; two_bytes(b"\x80", Err(end), Err(end)));
    assert!(rt; four_bytes(b"\x80\x80", Err(end), Err(end)));
    assert!(rt; eight_bytes(b"\x80\x80", Err(end), Err(end)));
}

// Whether no more than two bytes can be passed over and split off.
fn three_are_too_many(bytes: &[u8]) -> bool {
    let mut input = Cursor::new(bytes, 0x1000);
    let stays = input.skip(3) == Err(Error::UnexpectedEof)
        && input.split(3).err() == Some(Error::UnexpectedEof)
        && input.address() == 0x1000;
    stays && input.skip(1) == Ok(()) && input.skip(1) == Ok(()) && input.address() == 0x1002
}

// The parts of two bytes and of one, of which the second has no number of two bytes.
fn part_of_three(mut part: Cursor<'_>) -> bool {
    part.address() == 0x1002
        && part.read_u16() == Ok(0xf180)
        && part.read_u16() == Err(Error::UnexpectedEof)
        && part.read_u8() == Ok(2)
        && part.is_empty()
}

fn has_parts(bytes: &[u8]) -> bool {
    let mut input = Cursor::new(bytes, 0x1000);
    if input.skip(2).is_err() {
        return false;
    }
    match input.split(3) {
        Ok(part) => part_of_three(part) && input.address() == 0x1005 && input.read_u8() == Ok(3),
        Err(_) => false,
    }
}

// Addresses are words.
fn comes_to_address_zero(bytes: &[u8]) -> bool {
    let mut last = Cursor::new(bytes, u64::MAX);
    last.skip(1) == Ok(()) && last.address() == 0
}

#[test]
fn parts_of_a_table(rt: HostRuntime) {
    assert!(rt; three_are_too_many(b"\x80\x80"));
    assert!(rt; has_parts(BYTES));
    assert!(rt; comes_to_address_zero(BYTES));
}

const BASES: Bases = Bases {
    text: Some(0x10_0000),
    data_base: Some(0x20_0000),
    func: Some(0x30_0000),
    hdr: None,
    frame: None,
};

const NO_BASES: Bases = Bases {
    text: None,
    data_base: None,
    func: None,
    hdr: None,
    frame: None,
};

// Whether a pointer by an encoding, from bytes at 0x4000, is read so, by so many bytes.
fn is_pointer(
    bytes: &[u8],
    bases: &Bases,
    encoding: u8,
    pointer: Result<Pointer, Error>,
    size: u64,
) -> bool {
    let mut input = Cursor::new(bytes, 0x4000);
    parse_encoded_pointer(DwEhPe(encoding), bases, &mut input) == pointer
        && input.address().wrapping_sub(0x4000) == size
}

// Of each format what Python's `struct` and the rules of LEB128 give.
const FORMATS: &[(u8, u64, u64)] = &[
    (0x00, 0xf5040302f180fffe, 8),
    (0x01, 0x2e203ffe, 5),
    (0x02, 0xfffe, 2),
    (0x03, 0xf180fffe, 4),
    (0x04, 0xf5040302f180fffe, 8),
    (0x09, 0x2e203ffe, 5),
    (0x0a, 0xfffffffffffffffe, 2),
    (0x0b, 0xfffffffff180fffe, 4),
    (0x0c, 0xf5040302f180fffe, 8),
];

#[test]
fn formats(rt: HostRuntime) {
    for (format, number, size) in FORMATS {
        let direct = Ok(Pointer::Direct(*number));
        assert!(rt; is_pointer(BYTES, &NO_BASES, *format, direct, *size));
        let indirect = Ok(Pointer::Indirect(*number));
        assert!(rt; is_pointer(BYTES, &NO_BASES, *format | 0x80, indirect, *size));
    }
}

// The two bytes of udata2 are 0xfffe, and those of sdata2 -2.
const APPLICATIONS: &[(u8, Pointer)] = &[
    (0x02, Pointer::Direct(0xfffe)),
    (0x12, Pointer::Direct(0x1_3ffe)),
    (0x22, Pointer::Direct(0x10_fffe)),
    (0x32, Pointer::Direct(0x20_fffe)),
    (0x42, Pointer::Direct(0x30_fffe)),
    // from the text, as a word
    (0xaa, Pointer::Indirect(0xf_fffe)),
];

#[test]
fn applications(rt: HostRuntime) {
    for (encoding, pointer) in APPLICATIONS {
        assert!(rt; is_pointer(BYTES, &BASES, *encoding, Ok(*pointer), 2));
    }
    // from their own place, which needs no base
    assert!(rt; is_pointer(BYTES, &NO_BASES, 0x1a, Ok(Pointer::Direct(0x3ffe)), 2));
}

const REFUSED: &[(u8, Error)] = &[
    (0xff, Error::CannotParseOmitPointerEncoding),
    (0x05, Error::UnknownPointerEncoding),
    (0x08, Error::UnknownPointerEncoding),
    (0x0d, Error::UnknownPointerEncoding),
    (0x5f, Error::UnknownPointerEncoding),
    (0x60, Error::UnknownPointerEncoding),
    (0x50, Error::UnsupportedPointerEncoding),
    (0xdb, Error::UnsupportedPointerEncoding),
    (0x22, Error::UndefinedBase),
    (0x32, Error::UndefinedBase),
    (0xc2, Error::UndefinedBase),
];

#[test]
fn refused_pointers(rt: HostRuntime) {
    for (encoding, fault) in REFUSED {
        assert!(rt; is_pointer(BYTES, &NO_BASES, *encoding, Err(*fault), 0));
    }
    // a base that isn't known is reported before bytes that are missing
    assert!(rt; is_pointer(b"\xfe", &NO_BASES, 0x22, Err(Error::UndefinedBase), 0));
    assert!(rt; is_pointer(b"\xfe", &BASES, 0x22, Err(Error::UnexpectedEof), 0));
}

// Whether the first byte is read as an encoding, and passed over if it is one.
fn is_encoding(bytes: &[u8], encoding: Result<DwEhPe, Error>) -> bool {
    let mut input = Cursor::new(bytes, 0);
    parse_pointer_encoding(&mut input) == encoding && input.address() == encoding.is_ok() as u64
}

#[test]
fn encodings(rt: HostRuntime) {
    for byte in b"\x00\x1b\x9b\x3b\x50\xdc\xff" {
        assert!(rt; is_encoding(&[*byte], Ok(DwEhPe(*byte))));
    }
    for byte in b"\x05\x0d\x1f\x60\x7c\xfe" {
        assert!(rt; is_encoding(&[*byte], Err(Error::UnknownPointerEncoding)));
    }
    assert!(rt; is_encoding(b"", Err(Error::UnexpectedEof)));
}

#[test]
fn parts_of_an_encoding(rt: HostRuntime) {
    let encoding = DwEhPe(0x9b);
    assert!(rt; encoding.format() == DwEhPe(0x0b));
    assert!(rt; encoding.application() == DwEhPe(0x10));
    assert!(rt; encoding.is_indirect() && !encoding.is_absent());
    assert!(rt; !DwEhPe::OMIT.is_indirect() && DwEhPe::OMIT.is_absent());
}
