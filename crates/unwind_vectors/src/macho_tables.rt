// Personalities and language tables of sections of compact unwinding.
use macho_unwind_info::raw::U32;
use macho_unwind_info::{Error, Function, ReadError, UnwindInfo};
use memory_image::Records;
use std::test::Fail;

// One page at 0x1000 with one entry, the sentinel at 0x2000, one personality, at 0x3000, and one
// language table, at 0x1800.
const SECTION: [u8; 84] = [
    0x01, 0x00, 0x00, 0x00, 0x1c, 0x00, 0x00, 0x00, 0x01, 0x00, 0x00, 0x00, 0x20, 0x00, 0x00, 0x00,
    0x01, 0x00, 0x00, 0x00, 0x24, 0x00, 0x00, 0x00, 0x02, 0x00, 0x00, 0x00, 0x00, 0x00, 0x01, 0x52,
    0x00, 0x30, 0x00, 0x00, 0x00, 0x10, 0x00, 0x00, 0x44, 0x00, 0x00, 0x00, 0x3c, 0x00, 0x00, 0x00,
    0x00, 0x20, 0x00, 0x00, 0x00, 0x00, 0x00, 0x00, 0x44, 0x00, 0x00, 0x00, 0x00, 0x10, 0x00, 0x00,
    0x00, 0x18, 0x00, 0x00, 0x02, 0x00, 0x00, 0x00, 0x08, 0x00, 0x01, 0x00, 0x00, 0x10, 0x00, 0x00,
    0x00, 0x00, 0x01, 0x52,
];

const FUNCTION: Function = Function {
    start_address: 0x1000,
    end_address: 0x2000,
    opcode: 0x5201_0000,
};

const NO_TABLES: Result<Option<u32>, Error> = Err(Error::ReadError(ReadError::Lsda));

#[test]
fn a_function_has_its_language_table(rt: HostRuntime) -> Result<(), Fail> {
    let info = UnwindInfo::parse(&SECTION)?;
    assert!(rt; info.lookup(0x100f) == Ok(Some(FUNCTION)));
    assert!(rt; info.lsda_of(&FUNCTION) == Ok(Some(0x1800)));
    let without = Function {
        opcode: 0x1201_0000,
        ..FUNCTION
    };
    assert!(rt; info.lsda_of(&without) == Ok(None));
    let elsewhere = Function {
        start_address: 0x1004,
        ..FUNCTION
    };
    assert!(rt; info.lsda_of(&elsewhere) == Ok(None));
    let outside = Function {
        start_address: 0x2000,
        ..FUNCTION
    };
    assert!(rt; info.lsda_of(&outside) == Ok(None));
    Ok(())
}

// What the section answers of the function's language table with another byte at a place.
fn table_with(place: usize, byte: u8) -> Result<Option<u32>, Error> {
    let mut bytes = SECTION;
    if let Some(changed) = bytes.get_mut(place) {
        *changed = byte;
    }
    UnwindInfo::parse(&bytes)?.lsda_of(&FUNCTION)
}

#[test]
fn parts_that_are_no_lists_are_refused(rt: HostRuntime) {
    // The part ends at 0x40, before it begins, past the section's end; it begins and ends there.
    assert!(rt; table_with(0x38, 0x40) == NO_TABLES);
    assert!(rt; table_with(0x38, 0x34) == NO_TABLES);
    assert!(rt; table_with(0x38, 0x5c) == NO_TABLES);
    assert!(rt; table_with(0x38, 0x3c) == Ok(None));
}

// Whether a list holds one word alone.
fn is_only(words: &Records<'_, U32>, word: u32) -> bool {
    words.len() == 1 && words.get(0).map(u32::from) == Some(word)
}

#[test]
fn personalities_are_read(rt: HostRuntime) -> Result<(), Fail> {
    assert!(rt; is_only(&UnwindInfo::parse(&SECTION)?.personalities()?, 0x3000));
    let mut none = SECTION;
    none[0x10] = 0;
    assert!(rt; UnwindInfo::parse(&none)?.personalities()?.len() == 0);
    let mut many = SECTION;
    many[0x10] = 14;
    let read = UnwindInfo::parse(&many)?.personalities();
    assert!(rt; matches!(read, Err(ReadError::Personalities)));
    Ok(())
}

// A section that a linker wrote. The C++ file was
//
//     extern "C" void may_throw(int);
//     extern "C" void leave(int *) noexcept;
//     struct Guard { int *place; ~Guard() { leave(place); } };
//     extern "C" int plain(int a) { return a * 3 + 1; }
//     extern "C" int cleans(int a) { Guard guard = {&a}; may_throw(a); return a; }
//     extern "C" int catches(int a) { try { may_throw(a); return 1; } catch (int caught) { return caught; } }
//     extern "C" int passes(int a) { may_throw(a); return a + 1; }
//     extern "C" int both(int a) { try { Guard guard = {&a}; may_throw(a); } catch (...) { a += 7; } return a; }
//     int main() { return cleans(1) + catches(2) + passes(3) + both(4) + plain(5); }
//
// compiled by Debian clang 14.0.6 with
//
//     clang --target=x86_64-apple-macos11 -O1 -fno-inline -fexceptions -c v.cpp -o v.o
//
// and linked and dumped as the sections of `macho_linked.rt` are. What is expected is what
// `llvm-objdump --macho --unwind-info v` printed: of each function its start and its encoding, and
// where it has an LSDA descriptor, that one's LSDA offset; and the one personality.
const LINKED: &[u8] = &[
    0x01, 0x00, 0x00, 0x00, 0x1c, 0x00, 0x00, 0x00, 0x04, 0x00, 0x00, 0x00, 0x2c, 0x00, 0x00, 0x00,
    0x01, 0x00, 0x00, 0x00, 0x30, 0x00, 0x00, 0x00, 0x02, 0x00, 0x00, 0x00, 0x01, 0x00, 0x01, 0x51,
    0x00, 0x00, 0x00, 0x01, 0x21, 0x00, 0x02, 0x01, 0x01, 0x00, 0x01, 0x01, 0x08, 0x20, 0x00, 0x00,
    0xa0, 0x05, 0x00, 0x00, 0x60, 0x00, 0x00, 0x00, 0x48, 0x00, 0x00, 0x00, 0x1e, 0x07, 0x00, 0x00,
    0x00, 0x00, 0x00, 0x00, 0x60, 0x00, 0x00, 0x00, 0xb0, 0x05, 0x00, 0x00, 0x84, 0x07, 0x00, 0x00,
    0x10, 0x06, 0x00, 0x00, 0x90, 0x07, 0x00, 0x00, 0x60, 0x06, 0x00, 0x00, 0xa4, 0x07, 0x00, 0x00,
    0x03, 0x00, 0x00, 0x00, 0x0c, 0x00, 0x08, 0x00, 0x2c, 0x00, 0x00, 0x00, 0x00, 0x00, 0x00, 0x01,
    0x10, 0x00, 0x00, 0x00, 0x60, 0x00, 0x00, 0x01, 0x70, 0x00, 0x00, 0x00, 0xa0, 0x00, 0x00, 0x03,
    0xc0, 0x00, 0x00, 0x00, 0x10, 0x01, 0x00, 0x02, 0x70, 0x01, 0x00, 0x01,
];

// A function's start, its encoding and where its language table lies.
type Listed = (u32, u32, Option<u32>);

const LISTED: &[Listed] = &[
    (0x5a0, 0x0100_0000, None),
    (0x5b0, 0x5101_0001, Some(0x784)),
    (0x600, 0x0100_0000, None),
    (0x610, 0x5101_0001, Some(0x790)),
    (0x640, 0x0101_0001, None),
    (0x660, 0x5101_0001, Some(0x7a4)),
    (0x6b0, 0x0102_0021, None),
    (0x710, 0x0100_0000, None),
];

fn listed_at(info: &UnwindInfo<'_>, address: u32) -> Result<Option<Listed>, Error> {
    let Some(function) = info.lookup(address)? else {
        return Ok(None);
    };
    let table = info.lsda_of(&function)?;
    Ok(Some((function.start_address, function.opcode, table)))
}

#[test]
fn linked_functions_have_their_language_tables(rt: HostRuntime) -> Result<(), Fail> {
    let info = UnwindInfo::parse(LINKED)?;
    assert!(rt; is_only(&info.personalities()?, 0x2008));
    for listed in LISTED {
        assert!(rt; listed_at(&info, listed.0)? == Some(*listed));
    }
    Ok(())
}
