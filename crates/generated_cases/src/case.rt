// The snapshot of a generated chain.
ghost use Rattle.std.specs.Prelude.{◌≡◌, ◌<◌, ◌≤◌, IfOk};
ghost use Rattle.unwind_definitions.specs.Delivery.{delivery_of};
ghost use Rattle.generated_chains.specs.Caught.{IsCaught};
ghost use Rattle.generated_chains.specs.Outlines.{outlines};
ghost use Rattle.generated_chains.specs.Code.{functions_of};
ghost use Rattle.generated_chains.specs.Calls.{state_of, calls_of};
ghost use Rattle.stack_deliver.specs.Resumes.{resume_table};
ghost use Rattle.stack_snapshot.specs.Parts.{content_in};
ghost use Rattle.stack_snapshot.specs.Described.{DescribesChain};
ghost use Rattle.generated_cases.specs.Case.{case_of, content_with, context_in, module_over};

use generated_chains::{Chain, FRAMES, HEADER, LANGUAGES, Registers, TEXT, chain_of};
use stack_deliver::{Context, FrameInfo, FrameInfoKind, Module, ModuleTables, Resumes};
use stack_snapshot::{Region, Snapshot, SnapshotError, SnapshotParts};
use std::alloc::{AllocError, Global};

/// The word of the exception that is raised.
const EXCEPTION: u64 = 0x900000;

/// The registers of a state; all others are 0.
fn context_in(innermost: Registers) -> Context
    ensures { result ≡ context_in innermost }
{
    let Registers { ra, sp, rbx, rbp } = innermost;
    Context {
        registers: [0, 0, 0, rbx, 0, 0, rbp, sp, 0, 0, 0, 0, 0, 0, 0, 0],
        ra,
        mcxsr: 0,
        fcw: 0,
    }
}

/// The module of so many functions, which names its header.
fn module_over(count: u32) -> Module
    requires { count ≤ 100000 }
    ensures { result ≡ module_over count }
{
    Module {
        start: u64::from(TEXT),
        end: u64::from(TEXT + 64 * count),
        tables: ModuleTables::Elf(FrameInfo {
            text_base: None,
            kind: FrameInfoKind::EhFrameHdr(u64::from(HEADER)),
        }),
    }
}

/// The table of these return addresses by pad.
fn resumes_in(alloc: Global, entries: &[(u64, u64)]) -> Result<Resumes, AllocError>
    ensures { IfOk result (λ resumes. resumes ≡ resume_table entries.now) }
{
    let mut resumes = Resumes::new(alloc);
    for entry in entries {
        resumes.add(entry.0, entry.1)?;
    }
    Ok(resumes)
}

/// The region that begins at an address.
fn region_at(address: u64, bytes: Vec<u8>) -> Region
    ensures { result ≡ record { address = address; bytes = bytes } }
{
    Region { address, bytes }
}

/// What the snapshot of a chain of so many calls is made of.
fn parts_of(alloc: Global, chain: Chain, count: u32) -> Result<SnapshotParts, AllocError>
    requires { count ≤ 100000 }
    ensures { IfOk result (λ parts. content_in parts ≡ content_with chain count) }
{
    let Chain {
        header,
        frames,
        languages,
        stack,
        innermost,
        resumes,
    } = chain;
    let regions = Vec::from_array(
        alloc,
        [
            region_at(u64::from(HEADER), header),
            region_at(u64::from(FRAMES), frames),
            region_at(u64::from(LANGUAGES), languages),
            region_at(innermost.sp, stack),
        ],
    )?;
    let modules = Vec::from_array(alloc, [module_over(count)])?;
    let resumes = resumes_in(alloc, &resumes)?;
    Ok(SnapshotParts {
        regions,
        modules,
        start: context_in(innermost),
        exception: EXCEPTION,
        class: 0,
        resumes,
        limit: count + 1,
        interrupted: false,
    })
}

/// The snapshot of the chain of so many calls that a seed gives. Its module names the header of its
/// frame table. An exception is raised in the innermost call, and the outermost function catches it.
///
/// # Errors
///
/// `AllocError` where memory ran out.
pub fn make_case(alloc: Global, count: u32, seed: u64) -> Result<Snapshot, AllocError>
    requires some { 0 < count }
    requires few { count ≤ 100000 }
    ensures case { IfOk result (λ s. s ≡ case_of count seed) }
    // Its tables describe the functions of the chain, its start shows the innermost state, and its
    // limit has room for all of them.
    ensures described { IfOk result (λ s. DescribesChain s (functions_of (outlines seed count))
        (state_of seed (outlines seed count)) (calls_of seed (outlines seed count))) }
    // What is delivered to it: a state of each function is visited, each fourth one but the
    // outermost cleans up, and the outermost one catches the exception.
    ensures caught { IfOk result (λ s. IsCaught (delivery_of s.exception
        (state_of seed (outlines seed count)) (calls_of seed (outlines seed count))) count) }
{
    let chain = chain_of(alloc, count, seed)?;
    let parts = parts_of(alloc, chain, count)?;
    match parts.into_snapshot(alloc) {
        Ok(snapshot) => Ok(snapshot),
        Err(SnapshotError::NoMemory) => Err(AllocError),
        Err(_) => unreachable!(),
    }
}
