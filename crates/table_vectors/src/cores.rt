//! Core files: a worked one, byte by byte, what isn't one, and notes as programs write them.

use crate::asserting::expect_equal;
use core_file::{AddError, CoreError, CoreFile, CoreFront, SegmentPlace, front_size, mapped_parts};
use memory_image::MemoryImage;
use std::alloc::{AllocError, Global};
use std::test::Fail;
use unwind_arch::x86_64::{RBX, RSP};

// Two program headers from byte 64 on: notes from byte 176 on, and memory at 0x7000 from byte 532 on.
const HEADERS: &[u8] = b"\
    \x7fELF\x02\x01\x01\0\0\0\0\0\0\0\0\0\x04\0\x3e\0\x01\0\0\0\
    \0\0\0\0\0\0\0\0\x40\0\0\0\0\0\0\0\0\0\0\0\0\0\0\0\
    \0\0\0\0\x40\0\x38\0\x02\0\0\0\0\0\0\0\
    \x04\0\0\0\x04\0\0\0\xb0\0\0\0\0\0\0\0\0\0\0\0\0\0\0\0\0\0\0\0\0\0\0\0\
    \x64\x01\0\0\0\0\0\0\0\0\0\0\0\0\0\0\x04\0\0\0\0\0\0\0\
    \x01\0\0\0\x06\0\0\0\x14\x02\0\0\0\0\0\0\0\x70\0\0\0\0\0\0\0\0\0\0\0\0\0\0\
    \x10\0\0\0\0\0\0\0\x10\0\0\0\0\0\0\0\x01\0\0\0\0\0\0\0";

// The head of the note of a thread, whose description has 336 bytes.
const NOTE: &[u8] = b"\x05\0\0\0\x50\x01\0\0\x01\0\0\0CORE\0\0\0\0";

const STACK: &[u8] = b"\x05\0\0\0\0\0\0\0\0\0\0\0\0\0\0\0";

// The worked file: a thread with RBX 9, RIP 0x401006 and RSP 0x7000.
fn worked_file(alloc: Global) -> Result<Vec<u8>, AllocError> {
    let mut file = Vec::from_slice(alloc, HEADERS)?;
    file.extend_from_slice(NOTE)?;
    file.extend_from_slice(&[0; 152])?;
    file.extend_from_slice(&9u64.to_le_bytes())?;
    file.extend_from_slice(&[0; 80])?;
    file.extend_from_slice(&0x40_1006u64.to_le_bytes())?;
    file.extend_from_slice(&[0; 16])?;
    file.extend_from_slice(&0x7000u64.to_le_bytes())?;
    file.extend_from_slice(&[0; 64])?;
    file.extend_from_slice(STACK)?;
    Ok(file)
}

// The threads of a file of up to this size can be counted.
const MOST_COUNTED: usize = 1 << 48;

// How many threads a core file has.
fn thread_count(file: &[u8]) -> Option<usize> {
    let core = CoreFile::parse(file).ok()?;
    if file.len() > MOST_COUNTED {
        return None;
    }
    Some(core.threads().count())
}

// Why a file is no core file.
fn error_of(file: &[u8]) -> Option<CoreError> {
    CoreFile::parse(file).err()
}

// The error of the worked file with another byte at an index.
fn error_with(alloc: Global, index: usize, byte: u8) -> Result<Option<CoreError>, AllocError> {
    let mut file = worked_file(alloc)?;
    if let Some(place) = file.get_mut(index) {
        *place = byte;
    }
    Ok(error_of(&file))
}

#[test]
fn the_worked_file_is_read(rt: HostRuntime) -> Result<(), Fail> {
    let file = worked_file(rt.alloc())?;
    expect_equal(&rt, file.len(), 548);
    let core = CoreFile::parse(&file)?;
    expect_equal(&rt, core.segments_len(), 1);
    expect_equal(&rt, core.segment(0), Some((0x7000, STACK)));
    expect_equal(&rt, core.segment(1).is_none(), true);
    expect_equal(&rt, core.segments().count(), 1);
    expect_equal(&rt, thread_count(&file), Some(1));
    let thread = core.threads().next().ok_or("no thread")?;
    expect_equal(&rt, thread.ra, 0x40_1006);
    expect_equal(&rt, thread.registers[RBX], 9);
    expect_equal(&rt, thread.registers[RSP], 0x7000);
    let mut image = MemoryImage::new(rt.alloc());
    expect_equal(&rt, core.add_to(&mut image), Ok(()));
    expect_equal(&rt, image.read_u64(0x7000), Some(5));
    expect_equal(&rt, core.add_to(&mut image), Err(AddError::Region(0)));
    Ok(())
}

#[test]
fn what_is_no_core_file_is_refused(rt: HostRuntime) -> Result<(), Fail> {
    let alloc = rt.alloc();
    let file = worked_file(alloc)?;
    for (size, error) in [(547, CoreError::Segments), (63, CoreError::Header)] {
        let part = file.get(..size).ok_or("the file is short")?;
        expect_equal(&rt, error_of(part), Some(error));
    }
    for (index, byte, error) in [
        (0, 0, CoreError::Header),
        (16, 2, CoreError::Header),
        (18, 0x3f, CoreError::Header),
        (54, 0x40, CoreError::Header),
        (33, 4, CoreError::Segments),
        (56, 9, CoreError::Segments),
        (176, 0xff, CoreError::Notes),
        (180, 0x51, CoreError::Notes),
    ] {
        expect_equal(&rt, error_with(alloc, index, byte)?, Some(error));
    }
    let mut many = worked_file(alloc)?;
    for place in many.iter_mut().skip(56).take(2) {
        *place = 0xff;
    }
    expect_equal(&rt, error_of(&many), Some(CoreError::ManySegments));
    for (error, text) in [
        (AddError::Region(3), "the image refuses segment 3"),
        (AddError::NoMemory, "no memory"),
    ] {
        expect_equal(&rt, format!(in alloc; "{error}")?.as_str(), text);
    }
    Ok(())
}

#[test]
fn the_front_of_the_worked_file_is_read(rt: HostRuntime) -> Result<(), Fail> {
    let file = worked_file(rt.alloc())?;
    let bytes = file.get(..532).ok_or("the file is short")?;
    let front = CoreFront::parse(bytes).ok_or("no front")?;
    let mut places = front.places();
    let place = SegmentPlace {
        address: 0x7000,
        offset: 532,
        size: 16,
    };
    expect_equal(&rt, places.next(), Some(place));
    expect_equal(&rt, places.next(), None);
    expect_equal(&rt, front.end(), 548);
    expect_equal(&rt, front.mapped_parts().is_none(), true);
    let mut threads = front.threads();
    let thread = threads.next().ok_or("no thread")?;
    expect_equal(&rt, thread.ra, 0x40_1006);
    expect_equal(&rt, thread.registers[RSP], 0x7000);
    expect_equal(&rt, threads.next().is_none(), true);
    Ok(())
}

#[test]
fn a_front_has_the_headers_and_the_notes(rt: HostRuntime) -> Result<(), Fail> {
    let file = worked_file(rt.alloc())?;
    for (size, needed, is_read) in [
        (63, None, false),
        (64, Some(176), false),
        (175, Some(176), false),
        (176, Some(532), false),
        (531, Some(532), false),
        (532, Some(532), true),
        (548, Some(532), true),
    ] {
        let part = file.get(..size).ok_or("the file is short")?;
        expect_equal(&rt, front_size(part), needed);
        expect_equal(&rt, CoreFront::parse(part).is_some(), is_read);
    }
    Ok(())
}

// Whether the worked file with other bytes at some indexes is read as a front.
fn has_front_with(alloc: Global, others: &[(usize, u8)]) -> Result<bool, AllocError> {
    let mut file = worked_file(alloc)?;
    for (index, byte) in others {
        if let Some(place) = file.get_mut(*index) {
            *place = *byte;
        }
    }
    Ok(CoreFront::parse(&file).is_some())
}

#[test]
fn what_is_no_front_is_refused(rt: HostRuntime) -> Result<(), Fail> {
    let alloc = rt.alloc();
    // Memory may end past these bytes, and not past 2^64.
    expect_equal(&rt, has_front_with(alloc, &[(135, 0xff)])?, true);
    expect_equal(&rt, has_front_with(alloc, &[(135, 0xff), (159, 1)])?, false);
    // Another type of file, too many program headers, and notes that end past their segment.
    expect_equal(&rt, has_front_with(alloc, &[(16, 2)])?, false);
    expect_equal(
        &rt,
        has_front_with(alloc, &[(56, 0xff), (57, 0xff)])?,
        false,
    );
    expect_equal(&rt, has_front_with(alloc, &[(176, 0xff)])?, false);
    Ok(())
}

// Whether the worked file with other bytes at some indexes has a thread.
fn has_thread_with(alloc: Global, others: &[(usize, u8)]) -> Result<bool, AllocError> {
    let mut file = worked_file(alloc)?;
    for (index, byte) in others {
        if let Some(place) = file.get_mut(*index) {
            *place = *byte;
        }
    }
    Ok(thread_count(&file) == Some(1))
}

#[test]
fn notes_of_threads_are_known(rt: HostRuntime) -> Result<(), Fail> {
    let alloc = rt.alloc();
    // Another type, another name, and a longer one.
    for (index, byte) in [(184, 3), (188, b'L'), (192, b'X')] {
        expect_equal(&rt, has_thread_with(alloc, &[(index, byte)])?, false);
    }
    // The name without its zero byte, and four bytes more for the description.
    expect_equal(&rt, has_thread_with(alloc, &[(176, 4), (180, 0x54)])?, true);
    Ok(())
}

// A program header from byte 64 on: notes from byte 120 on.
const HEADERS_OF_NOTES: &[u8] = b"\
    \x7fELF\x02\x01\x01\0\0\0\0\0\0\0\0\0\x04\0\x3e\0\x01\0\0\0\
    \0\0\0\0\0\0\0\0\x40\0\0\0\0\0\0\0\0\0\0\0\0\0\0\0\
    \0\0\0\0\x40\0\x38\0\x01\0\0\0\0\0\0\0\
    \x04\0\0\0\x04\0\0\0\x78\0\0\0\0\0\0\0\0\0\0\0\0\0\0\0\0\0\0\0\0\0\0\0\
    \xd0\0\0\0\0\0\0\0\0\0\0\0\0\0\0\0\x04\0\0\0\0\0\0\0";

// The note NT_FILE of the core that Linux wrote of a static program, with another path of as many bytes.
const FILES: &[u8] = b"\
    \x05\0\0\0\xba\0\0\0ELIFCORE\0\0\0\0\x05\0\0\0\
    \0\0\0\0\0\x10\0\0\0\0\0\0\0\0@\0\0\0\0\0\0\x10@\0\
    \0\0\0\0\0\0\0\0\0\0\0\0\0\x10@\0\0\0\0\0\0\xb0H\0\
    \0\0\0\0\x01\0\0\0\0\0\0\0\0\xb0H\0\0\0\0\0\0PK\0\
    \0\0\0\0\x8b\0\0\0\0\0\0\0\0PK\0\0\0\0\0\0\x90K\0\
    \0\0\0\0\xb5\0\0\0\0\0\0\0\0\x90K\0\0\0\0\0\0\xc0K\0\
    \0\0\0\0\xb9\0\0\0\0\0\0\0/bin/true\0\
    /bin/true\0/bin/true\0\
    /bin/true\0/bin/true\0\0\0";

// What eu-readelf says of the parts: their addresses, and where they begin in the file.
const PARTS: [(u64, u64, u64); 5] = [
    (0x40_0000, 0x40_1000, 0),
    (0x40_1000, 0x48_b000, 0x1000),
    (0x48_b000, 0x4b_5000, 0x8_b000),
    (0x4b_5000, 0x4b_9000, 0xb_5000),
    (0x4b_9000, 0x4b_c000, 0xb_9000),
];

// How many parts of files a core has, with another byte at an index of its note. None where there is no note on them.
fn part_count_with(alloc: Global, index: usize, byte: u8) -> Result<Option<usize>, AllocError> {
    let mut file = Vec::from_slice(alloc, HEADERS_OF_NOTES)?;
    file.extend_from_slice(FILES)?;
    if let Some(place) = file.get_mut(index.saturating_add(120)) {
        *place = byte;
    }
    let Some(parts) = mapped_parts(&file) else {
        return Ok(None);
    };
    let mut parts = parts;
    let mut count = 0usize;
    while parts.next().is_some() {
        count = count.saturating_add(1);
    }
    Ok(Some(count))
}

#[test]
fn the_parts_of_mapped_files_are_read(rt: HostRuntime) -> Result<(), Fail> {
    let alloc = rt.alloc();
    let mut file = Vec::from_slice(alloc, HEADERS_OF_NOTES)?;
    file.extend_from_slice(FILES)?;
    let mut parts = mapped_parts(&file).ok_or("no parts")?;
    for (start, end, offset) in PARTS {
        let part = parts.next().ok_or("too few parts")?;
        expect_equal(&rt, part.start, start);
        expect_equal(&rt, part.end, end);
        expect_equal(&rt, part.offset, offset);
        expect_equal(&rt, part.path, b"/bin/true".as_slice());
    }
    expect_equal(&rt, parts.next().is_none(), true);
    // Fewer parts, more than the note has, another type of note, another name, and no zero byte after the last path.
    for (index, byte, count) in [
        (20, 4, Some(4)),
        (20, 9, None),
        (8, 0x44, None),
        (12, b'K', None),
        (205, b'/', Some(4)),
    ] {
        expect_equal(&rt, part_count_with(alloc, index, byte)?, count);
    }
    Ok(())
}
