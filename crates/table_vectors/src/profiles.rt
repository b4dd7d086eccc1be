//! perf.data files: a worked one, byte by byte, and what is cut, damaged or foreign.

use crate::asserting::expect_equal;
use perf_data::{PerfError, PerfFile, Record, Task, Thread};
use std::alloc::{AllocError, Global};
use std::test::Fail;
use unwind_arch::x86_64::{RBP, RSP};

// An attribute of 96 bytes from byte 104 on, with the section of its identifiers; 224 bytes of records from byte 216 on.
const HEADER: &[u8] = b"\
    PERFILE2\x68\0\0\0\0\0\0\0\x70\0\0\0\0\0\0\0\
    \x68\0\0\0\0\0\0\0\x70\0\0\0\0\0\0\0\xd8\0\0\0\0\0\0\0\xe0\0\0\0\0\0\0\0\
    \0\0\0\0\0\0\0\0\0\0\0\0\0\0\0\0\
    \0\0\0\0\0\0\0\0\0\0\0\0\0\0\0\0\0\0\0\0\0\0\0\0\0\0\0\0\0\0\0\0";

// Its samples have IP, TID, TIME, REGS_USER with BP, SP and IP, and STACK_USER.
const ATTRIBUTE: &[u8] = b"\
    \x01\0\0\0\x60\0\0\0\0\0\0\0\0\0\0\0\x01\0\0\0\0\0\0\0\x07\x30\0\0\0\0\0\0\
    \0\0\0\0\0\0\0\0\0\0\0\0\0\0\0\0\0\0\0\0\0\0\0\0\0\0\0\0\0\0\0\0\0\0\0\0\0\0\0\0\
    \0\0\0\0\0\0\0\0\xc0\x01\0\0\0\0\0\0\x10\0\0\0\0\0\0\0\
    \0\0\0\0\0\0\0\0\0\0\0\0\0\0\0\0";

const MAPPING: &[u8] = b"\
    \x0a\0\0\0\x02\x40\x50\0\x07\0\0\0\x08\0\0\0\0\x10\x40\0\0\0\0\0\0\x10\0\0\0\0\0\0\
    \0\x10\0\0\0\0\0\0\x04\0\0\0\xde\xad\xbe\xef\0\0\0\0\0\0\0\0\0\0\0\0\0\0\0\0\
    \x05\0\0\0\x02\0\0\0a.out\0\0\0";

const NAME: &[u8] = b"\x03\0\0\0\0\x20\x18\0\x07\0\0\0\x08\0\0\0ab\0\0\0\0\0\0";

// A record that ends a round, which isn't read.
const ROUND: &[u8] = b"\x44\0\0\0\0\0\x18\0\0\0\0\0\0\0\0\0\0\0\0\0\0\0\0\0";

// Thread 8 of process 7 starts thread 10 of process 9.
const START: &[u8] = b"\
    \x07\0\0\0\0\0\x20\0\x09\0\0\0\x07\0\0\0\x0a\0\0\0\x08\0\0\0\x05\0\0\0\0\0\0\0";

// The same thread ends.
const END: &[u8] = b"\
    \x04\0\0\0\0\0\x20\0\x09\0\0\0\x07\0\0\0\x0a\0\0\0\x08\0\0\0\x06\0\0\0\0\0\0\0";

// Sixteen bytes of stack, of which eight were copied.
const SAMPLE: &[u8] = b"\
    \x09\0\0\0\x02\0\x60\0\x06\x10\x40\0\0\0\0\0\x07\0\0\0\x08\0\0\0\x09\0\0\0\0\0\0\0\
    \x02\0\0\0\0\0\0\0\x05\0\0\0\0\0\0\0\0\x70\0\0\0\0\0\0\x06\x10\x40\0\0\0\0\0\
    \x10\0\0\0\0\0\0\0\x01\0\0\0\0\0\0\0\x02\0\0\0\0\0\0\0\x08\0\0\0\0\0\0\0";

fn worked_file(alloc: Global) -> Result<Vec<u8>, AllocError> {
    let mut file = Vec::from_slice(alloc, HEADER)?;
    for part in [ATTRIBUTE, MAPPING, NAME, ROUND, SAMPLE] {
        file.extend_from_slice(part)?;
    }
    Ok(file)
}

// Why a file isn't read, or why reading stops at a record.
fn error_of(bytes: &[u8]) -> Option<PerfError> {
    let file = match PerfFile::parse(bytes) {
        Ok(file) => file,
        Err(error) => return Some(error),
    };
    for item in file.records() {
        if let Err(error) = item {
            return Some(error);
        }
    }
    None
}

// The error of the worked file with another byte at an index.
fn error_with(alloc: Global, index: usize, byte: u8) -> Result<Option<PerfError>, AllocError> {
    let mut file = worked_file(alloc)?;
    if let Some(place) = file.get_mut(index) {
        *place = byte;
    }
    Ok(error_of(&file))
}

#[test]
fn a_worked_profile_is_read(rt: HostRuntime) -> Result<(), Fail> {
    let bytes = worked_file(rt.alloc())?;
    expect_equal(&rt, bytes.len(), 440);
    let file = PerfFile::parse(&bytes)?;
    let mut records = file.records();
    let thread = Thread { pid: 7, tid: 8 };
    let Some(Ok(Record::Mapping(mapping))) = records.next() else {
        return Err("no mapping".into());
    };
    expect_equal(&rt, mapping.thread, thread);
    expect_equal(&rt, mapping.address, 0x40_1000);
    expect_equal(&rt, mapping.name, b"a.out".as_slice());
    let Some(Ok(Record::Comm(comm))) = records.next() else {
        return Err("no name".into());
    };
    expect_equal(&rt, comm.by_exec, true);
    expect_equal(&rt, comm.name, b"ab".as_slice());
    let Some(Ok(Record::Other(kind))) = records.next() else {
        return Err("no end of a round".into());
    };
    expect_equal(&rt, kind, 68);
    let Some(Ok(Record::Sample(sample))) = records.next() else {
        return Err("no sample".into());
    };
    expect_equal(&rt, sample.ip, Some(0x40_1006));
    expect_equal(&rt, sample.thread, Some(thread));
    expect_equal(&rt, sample.time, Some(9));
    expect_equal(&rt, sample.stack, b"\x01\0\0\0\0\0\0\0".as_slice());
    let registers = sample.registers.ok_or("no registers")?;
    expect_equal(&rt, registers.abi(), 2);
    expect_equal(&rt, registers.mask(), 0x1c0);
    expect_equal(&rt, registers.register(6), Some(5));
    expect_equal(&rt, registers.register(9), None);
    let context = registers.context();
    expect_equal(&rt, context.ra, 0x40_1006);
    expect_equal(&rt, context.registers[RBP], 5);
    expect_equal(&rt, context.registers[RSP], 0x7000);
    expect_equal(&rt, records.next().is_none(), true);
    Ok(())
}

#[test]
fn starts_and_ends_of_threads_are_read(rt: HostRuntime) -> Result<(), Fail> {
    let mut bytes = Vec::from_slice(rt.alloc(), HEADER)?;
    for part in [ATTRIBUTE, START, END, START, END, SAMPLE] {
        bytes.extend_from_slice(part)?;
    }
    let file = PerfFile::parse(&bytes)?;
    let mut records = file.records();
    let mut task = Task {
        thread: Thread { pid: 9, tid: 10 },
        parent: Thread { pid: 7, tid: 8 },
        time: 5,
    };
    let Some(Ok(Record::Fork(start))) = records.next() else {
        return Err("no start".into());
    };
    expect_equal(&rt, start, task);
    task.time = 6;
    let Some(Ok(Record::Exit(end))) = records.next() else {
        return Err("no end".into());
    };
    expect_equal(&rt, end, task);
    Ok(())
}

#[test]
fn what_is_cut_damaged_or_foreign_is_refused(rt: HostRuntime) -> Result<(), Fail> {
    let alloc = rt.alloc();
    let file = worked_file(alloc)?;
    expect_equal(&rt, error_of(&file), None);
    for (size, error) in [
        (439, PerfError::Records),
        (215, PerfError::Attributes),
        (103, PerfError::Header),
    ] {
        let part = file.get(..size).ok_or("the file is short")?;
        expect_equal(&rt, error_of(part), Some(error));
    }
    for (index, byte, error) in [
        (0, 0, PerfError::Header),
        (8, 16, PerfError::Pipe),
        (16, 0x6f, PerfError::Attributes),
        (32, 0x6f, PerfError::Attributes),
        // The samples have a register with the number 24, which x86 doesn't give.
        (187, 1, PerfError::Machine),
        (48, 0, PerfError::Unfinished),
        (48, 0xdf, PerfError::Cut(344)),
        (222, 4, PerfError::Size(216)),
        (222, 0x30, PerfError::Body(216)),
        (296, 81, PerfError::Compressed(296)),
        (296, 71, PerfError::Trailing(296)),
        // The stack says that it has more bytes than the record.
        (408, 0x20, PerfError::Body(344)),
    ] {
        expect_equal(&rt, error_with(alloc, index, byte)?, Some(error));
    }
    expect_equal(&rt, error_of(b"2ELIFREP"), Some(PerfError::ByteOrder));
    for (error, text) in [
        (
            PerfError::Cut(344),
            "the record at byte 344 passes the end of the records",
        ),
        (
            PerfError::Layouts,
            "the events of the perf.data file have samples of different layouts",
        ),
    ] {
        expect_equal(&rt, format!(in alloc; "{error}")?.as_str(), text);
    }
    Ok(())
}
