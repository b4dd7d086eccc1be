//! Unwinds the snapshots that a debugger took of live programs, and prints each report; then audits claims
//! of real files' code. The snapshots lie where the program runs; examples/README.md says how they and the
//! expected lines were made.
#![tactic(auto)]

mod audits;

use crate::audits::print_audits;
use anyhow::{Result, bail};
use stack_deliver::{Space, deliver, throw, walk};
use stack_report::{Report, report_of, walk_report_of};
use stack_snapshot::{Snapshot, ThrownSnapshot, read_snapshot, read_thrown_snapshot};
use std::alloc::Global;
use std::{fs, str};

/// Programs to be walked. In their names are those of the compilers, and how far they optimise.
const WALKS: [&str; 8] = [
    "nested-gcc-O0",
    "nested-gcc-O2",
    "nested-clang-O0",
    "nested-clang-O2",
    "frame_pointer-gcc-O0",
    "frame_pointer-gcc-O2",
    "frame_pointer-clang-O0",
    "frame_pointer-clang-O2",
];

/// Snapshots to be walked by frame tables alone, four of them stopped at a lazily bound call, in signal
/// handlers and in `vfork`, of which three have all modules of their processes; and by those of ELF, PE
/// and Mach-O modules that call one another.
const MORE_WALKS: [&str; 10] = [
    "realigned-gcc-O0.json",
    "realigned-gcc-O2.json",
    "lazy_call-gcc-O0.json",
    "lazy_call-gcc-O2.json",
    "signals-gcc-O2.json",
    "vfork-gcc-O2.json",
    "three_formats-gcc-O0.json",
    "three_formats-gcc-O2.json",
    "three_formats-clang-O0.json",
    "three_formats-clang-O2.json",
];

/// Programs that throw, to be delivered to.
const DELIVERIES: [&str; 4] = [
    "cleanups-gcc-O0",
    "cleanups-gcc-O2",
    "cleanups-clang-O0",
    "cleanups-clang-O2",
];

/// Snapshots of throws through ELF, PE and Mach-O modules that call one another, to be delivered by frame
/// tables and unwind data alone. Last in their names is the format of the frame that handles the exception.
const MORE_DELIVERIES: [&str; 3] = [
    "thrown_formats-gcc-O2-elf.json",
    "thrown_formats-clang-O2-macho.json",
    "thrown_formats-gcc-O2-pe.json",
];

/// Throws of C++ programs, to be delivered by the rule of their language: to `catch (...)` behind typed
/// handlers, at a violated exception specification, at a `noexcept` function, by a virtual base, and of
/// an exception that isn't one of C++ at a specification that lists nothing. And with libc++abi, of such an
/// exception at a specification that lists types, and out of a call that no exception may leave.
const THROWS: [&str; 7] = [
    "throw_catch_all.json",
    "throw_specification.json",
    "throw_noexcept.json",
    "throw_virtual_base.json",
    "throw_foreign.json",
    "throw_libcxxabi_foreign.json",
    "throw_libcxxabi_nothrow.json",
];

/// The ends of the names of a program's two snapshots: by its module's frame table, and by its header.
const FORMS: [&str; 2] = [".json", "-by-header.json"];

/// What the reader of the expected lines has to know of the deliveries.
const OF_DELIVERIES: &str =
    "Deliveries. A landing's rdx is 0 here. In the process it was the number of the catch clause, which C++ puts there.";

/// The same of the throws.
const OF_THROWS: &str =
    "Throws. A landing's rdx is the number of the action record, as in the process.";

/// The space of a snapshot, with or without indexes of its modules.
fn space_of<'a>(alloc: Global, snapshot: &'a Snapshot, prepared: bool) -> Result<Space<'a>> {
    let mut space = snapshot.space(alloc)?;
    if prepared {
        space.prepare()?;
    }
    Ok(space)
}

/// The report of a snapshot's walk.
fn walk_report(alloc: Global, snapshot: &Snapshot, prepared: bool) -> Result<Report> {
    let space = space_of(alloc, snapshot, prepared)?;
    let start = snapshot.start();
    let interrupted = snapshot.interrupted();
    let visited = walk(alloc, &space, &start, interrupted, snapshot.limit())?;
    Ok(walk_report_of(alloc, &visited)?)
}

/// The report of a snapshot's delivery.
fn delivery_report(alloc: Global, snapshot: &Snapshot, prepared: bool) -> Result<Report> {
    let space = space_of(alloc, snapshot, prepared)?;
    let start = snapshot.start();
    let delivery = deliver(
        alloc,
        &space,
        &start,
        snapshot.exception(),
        snapshot.class(),
        snapshot.resumes(),
        snapshot.limit(),
    )?;
    Ok(report_of(alloc, &delivery)?)
}

/// The report of a delivery by the rule of C++.
fn throw_report(alloc: Global, thrown: &ThrownSnapshot, prepared: bool) -> Result<Report> {
    let snapshot = thrown.snapshot();
    let space = space_of(alloc, snapshot, prepared)?;
    let start = snapshot.start();
    let delivery = throw(
        alloc,
        &space,
        &thrown.languages(),
        &start,
        snapshot.exception(),
        snapshot.resumes(),
        snapshot.limit(),
    )?;
    Ok(report_of(alloc, &delivery)?)
}

/// The snapshot in a file.
fn snapshot_in(rt: &HostRuntime, name: &str) -> Result<Snapshot> {
    let text = fs::read_to_string(rt, name)?;
    Ok(read_snapshot(rt.alloc(), text.as_bytes())?)
}

/// Prints the file's name and its report, which has to be the same where the modules are prepared.
fn print_report(rt: &HostRuntime, name: &str, report: &Report, by_indexes: &Report) -> Result<()> {
    if report.bytes() != by_indexes.bytes() {
        bail!("another report where the modules are prepared");
    }
    let lines = str::from_utf8(report.bytes())?;
    print!(rt; "{name}\n{lines}")?;
    Ok(())
}

/// The walk of a snapshot.
fn print_walk(rt: &HostRuntime, name: &str) -> Result<()> {
    let snapshot = snapshot_in(rt, name)?;
    let report = walk_report(rt.alloc(), &snapshot, false)?;
    let by_indexes = walk_report(rt.alloc(), &snapshot, true)?;
    print_report(rt, name, &report, &by_indexes)
}

/// The walks of a program's snapshots.
fn print_walks(rt: &HostRuntime, program: &str) -> Result<()> {
    for form in FORMS {
        let name = format!(in rt.alloc(); "{program}{form}")?;
        print_walk(rt, &name)?;
    }
    Ok(())
}

/// The delivery of a snapshot.
fn print_delivery(rt: &HostRuntime, name: &str) -> Result<()> {
    let snapshot = snapshot_in(rt, name)?;
    let report = delivery_report(rt.alloc(), &snapshot, false)?;
    let by_indexes = delivery_report(rt.alloc(), &snapshot, true)?;
    print_report(rt, name, &report, &by_indexes)
}

/// The deliveries of a program's snapshots.
fn print_deliveries(rt: &HostRuntime, program: &str) -> Result<()> {
    for form in FORMS {
        let name = format!(in rt.alloc(); "{program}{form}")?;
        print_delivery(rt, &name)?;
    }
    Ok(())
}

/// The delivery of a throw.
fn print_throw(rt: &HostRuntime, name: &str) -> Result<()> {
    let text = fs::read_to_string(rt, name)?;
    let thrown = read_thrown_snapshot(rt.alloc(), text.as_bytes())?;
    let report = throw_report(rt.alloc(), &thrown, false)?;
    let by_indexes = throw_report(rt.alloc(), &thrown, true)?;
    print_report(rt, name, &report, &by_indexes)
}

fn main(rt: HostRuntime) -> Result<()> {
    for program in WALKS {
        print_walks(&rt, program)?;
    }
    for name in MORE_WALKS {
        print_walk(&rt, name)?;
    }
    println!(rt; "{OF_DELIVERIES}")?;
    for program in DELIVERIES {
        print_deliveries(&rt, program)?;
    }
    for name in MORE_DELIVERIES {
        print_delivery(&rt, name)?;
    }
    println!(rt; "{OF_THROWS}")?;
    for name in THROWS {
        print_throw(&rt, name)?;
    }
    print_audits(&rt)
}
