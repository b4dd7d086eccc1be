// The reports are those of tools/generated_stack.py, which makes the states as calls do and unwinds nothing.
use generated_cases::{deliver_case, make_case};
use memory_image::{Counted, Steps};
use stack_deliver::{Delivery, Room, Space, Visited, deliver, deliver_into, walk};
use stack_report::{report_of, walk_report_of};
use stack_snapshot::Snapshot;
use std::alloc::{AllocError, Global};
use std::test::Fail;

/// What is delivered to the chain of seven calls that the seed 7 gives.
const DELIVERED: &str =
    "frame 0 ra=0x400020 sp=0x7ffeffffff10 rbx=0x0 rbp=0x7ffeffffff50 r12=0x0 r13=0x0 r14=0x0 r15=0x0
frame 1 ra=0x400060 sp=0x7ffeffffff30 rbx=0x1 rbp=0x7ffeffffff50 r12=0x0 r13=0x0 r14=0x0 r15=0x0
frame 2 ra=0x4000a0 sp=0x7ffeffffff60 rbx=0x2 rbp=0x7ffeffffff80 r12=0x0 r13=0x0 r14=0x0 r15=0x0
frame 3 ra=0x4000e0 sp=0x7ffeffffff90 rbx=0x3 rbp=0x0 r12=0x0 r13=0x0 r14=0x0 r15=0x0
frame 4 ra=0x400120 sp=0x7ffeffffffb0 rbx=0x4 rbp=0x0 r12=0x0 r13=0x0 r14=0x0 r15=0x0
frame 5 ra=0x400160 sp=0x7ffeffffffd0 rbx=0x5 rbp=0x0 r12=0x0 r13=0x0 r14=0x0 r15=0x0
frame 6 ra=0x4001a0 sp=0x7ffeffffffe0 rbx=0x6 rbp=0x0 r12=0x0 r13=0x0 r14=0x0 r15=0x0
cleanup pad=0x4000f0 sp=0x7ffeffffff90
landing ra=0x4001b0 sp=0x7ffeffffffe0 rbx=0x6 rbp=0x0 r12=0x0 r13=0x0 r14=0x0 r15=0x0 rax=0x900000 rdx=0x0
outcome installed
";

/// The states of the chain of three calls that the seed 42 gives.
const WALKED: &str =
    "frame 0 ra=0x400020 sp=0x7ffeffffffc0 rbx=0x1 rbp=0x7ffeffffffc0 r12=0x0 r13=0x0 r14=0x0 r15=0x0
frame 1 ra=0x400060 sp=0x7ffeffffffd0 rbx=0x1 rbp=0x0 r12=0x0 r13=0x0 r14=0x0 r15=0x0
frame 2 ra=0x4000a0 sp=0x7ffeffffffe0 rbx=0x2 rbp=0x0 r12=0x0 r13=0x0 r14=0x0 r15=0x0
frame 3 ra=0x0 sp=0x7fff00000000 rbx=0x2a rbp=0x0 r12=0x0 r13=0x0 r14=0x0 r15=0x0
end
";

// The case of a chain of so many calls.
fn case_of_calls(alloc: Global, count: u32, seed: u64) -> Result<Snapshot, AllocError> {
    if count == 0 || count > 100_000 {
        return Err(AllocError);
    }
    make_case(alloc, count, seed)
}

fn delivery_over(alloc: Global, snapshot: &Snapshot) -> Result<Delivery, Fail> {
    let space = snapshot.space(alloc)?;
    let delivery = deliver(
        alloc,
        &space,
        &snapshot.start(),
        snapshot.exception(),
        snapshot.class(),
        snapshot.resumes(),
        snapshot.limit(),
    )?;
    Ok(delivery)
}

fn is_reported(alloc: Global, delivery: &Delivery, report: &str) -> Result<bool, AllocError> {
    Ok(report_of(alloc, delivery)?.bytes() == report.as_bytes())
}

#[test]
fn generated_case_is_delivered(rt: HostRuntime) -> Result<(), Fail> {
    let snapshot = case_of_calls(rt.alloc(), 7, 7)?;
    let delivery = delivery_over(rt.alloc(), &snapshot)?;
    assert!(rt; is_reported(rt.alloc(), &delivery, DELIVERED)?);
    Ok(())
}

fn walk_over(alloc: Global, snapshot: &Snapshot) -> Result<Visited, Fail> {
    let space = snapshot.space(alloc)?;
    let visited = walk(
        alloc,
        &space,
        &snapshot.start(),
        snapshot.interrupted(),
        snapshot.limit(),
    )?;
    Ok(visited)
}

fn is_walk_reported(alloc: Global, visited: &Visited, report: &str) -> Result<bool, AllocError> {
    Ok(walk_report_of(alloc, visited)?.bytes() == report.as_bytes())
}

#[test]
fn generated_case_is_walked(rt: HostRuntime) -> Result<(), Fail> {
    let snapshot = case_of_calls(rt.alloc(), 3, 42)?;
    let visited = walk_over(rt.alloc(), &snapshot)?;
    assert!(rt; is_walk_reported(rt.alloc(), &visited, WALKED)?);
    Ok(())
}

fn prepared<'a>(alloc: Global, snapshot: &'a Snapshot) -> Result<(Space<'a>, u32), AllocError> {
    let mut space = snapshot.space(alloc)?;
    let count = space.prepare()?;
    Ok((space, count))
}

// How many steps a delivery into a room of 1001 states takes.
fn steps_over(alloc: Global, snapshot: &Snapshot, space: &Space<'_>) -> Result<u64, Fail> {
    let mut room = Room::new(alloc, 1001)?;
    let mut steps = Steps::new(Counted { count: 0 });
    deliver_into(
        space,
        &snapshot.start(),
        snapshot.exception(),
        snapshot.class(),
        snapshot.resumes(),
        1001,
        &mut room,
        &mut steps,
    )?;
    Ok(steps.ledger().count)
}

// The probes of the delivery over a case of 1000 calls, and how many functions, frames and cleanups
// there are.
fn summary_of_1000(alloc: Global) -> Result<(u64, (u32, usize, usize)), AllocError> {
    let summary = deliver_case(alloc, 1000, 7)?;
    let sizes = (summary.functions, summary.frames, summary.cleanups);
    Ok((summary.probes, sizes))
}

/// What is counted is what the delivery's ledger counts.
#[test]
fn probes_are_the_count_of_a_ledger(rt: HostRuntime) -> Result<(), Fail> {
    let snapshot = case_of_calls(rt.alloc(), 1000, 7)?;
    let (space, count) = prepared(rt.alloc(), &snapshot)?;
    assert!(rt; count == 1);
    let steps = steps_over(rt.alloc(), &snapshot, &space)?;
    assert!(rt; summary_of_1000(rt.alloc())? == (steps, (1000, 1000, 249)));
    Ok(())
}
