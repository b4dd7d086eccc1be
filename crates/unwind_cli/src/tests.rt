// Whole runs over memory, with what a reader of the formats expects of them. A case is a table's line;
// one function runs it.
use super::*;
use command_ends::Words;
use memory_image::{MemorySink, MemorySource};
use std::alloc::{AllocError, Global};
use std::process::Abort;
use std::test::Fail;

mod audits;
mod checks;
mod cores;
mod damage;
mod deliveries;
mod ends;
mod folds;
mod formats;
mod generated;
mod refusals;
mod rules;
mod throws;
mod walks;

/// A run: its words, the pieces of its input, and the number and the lines that are due.
struct Case {
    words: &'static [&'static str],
    input: &'static [&'static str],
    number: u8,
    lines: &'static [&'static str],
}

/// The pieces, each with the ending after it.
fn joined(alloc: Global, pieces: &[&str], ending: &str) -> Result<String, AllocError> {
    let mut text = String::new(alloc);
    for piece in pieces {
        text.push_str(piece)?;
        text.push_str(ending)?;
    }
    Ok(text)
}

/// How many bytes a read gives at most.
const PIECE: usize = 64;

/// The number that a run answers and the text that it writes. The calls of its ends that are named fail.
fn run_over(
    alloc: Global,
    words: &[&str],
    input: &str,
    reads: &[u64],
    writes: &[u64],
) -> Result<(u8, Vec<u8>), AllocError> {
    let mut list = Words::new(alloc);
    for word in words {
        list.push(word)?;
    }
    let mut source = MemorySource::new(input.as_bytes(), PIECE, reads);
    let mut sink = MemorySink::new(alloc, 4096, writes)?;
    let status = run(alloc, &list, &mut source, &mut sink);
    Ok((status.number(), Vec::from_slice(alloc, sink.held())?))
}

/// Runs over the pieces of an input, and compares the number and the lines with those that are due.
fn run_case(
    rt: &impl Abort,
    alloc: Global,
    words: &[&str],
    input: &[&str],
    number: u8,
    lines: &[&str],
) -> Result<(), Fail> {
    let input = joined(alloc, input, "")?;
    let text = joined(alloc, lines, "\n")?;
    let (answered, written) = run_over(alloc, words, input.as_str(), &[], &[])?;
    assert_eq!(rt; answered, number, "{text}");
    assert_eq!(rt; written.as_slice(), text.as_bytes());
    Ok(())
}

/// Runs the cases.
fn run_cases(rt: &impl Abort, alloc: Global, cases: &[Case]) -> Result<(), Fail> {
    for case in cases {
        run_case(rt, alloc, case.words, case.input, case.number, case.lines)?;
    }
    Ok(())
}

/// One region: a frame table of the function 0x401000 to 0x401010, which pushes RBX; and the start of
/// another, a stack at 0x7000.
const TABLE: &str =
    "{\"regions\":[{\"address\":\"0x500000\",\"bytes\":\"1400000000000000017a5200017810011b0c070\
    890010000140000001c000000e00ff0ff1000000000410e108302000000000000\"},\
    {\"address\":\"0x7000\",\"bytes\":\"";

/// A stack: RBX's value, and 0 for the return address.
const STACK: &str = "05000000000000000000000000000000";

/// The function's module, and what is to come is the start.
const MODULE: &str =
    "\"}],\"modules\":[{\"kind\":\"elf\",\"start\":\"0x401000\",\"end\":\"0x401010\",\
    \"eh_frame\":\"0x500000\"}],\"start\":";

/// A start after a call in the function, after its push.
const START: &str = "{\"rip\":\"0x401006\",\"rsp\":\"0x7000\",\"rbx\":\"0x9\"},";
