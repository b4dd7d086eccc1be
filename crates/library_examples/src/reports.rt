// The examples of `stack_snapshot` and `stack_report`.
use anyhow::Result;
use stack_deliver::walk;
use stack_report::walk_report_of;
use stack_snapshot::read_snapshot;
use std::{fs, str};

/// The report of the walk of a snapshot.
pub(crate) fn print_report(rt: &HostRuntime) -> Result<()> {
    // example
    let text = fs::read(rt, "pushed_rbx.json")?;
    let snapshot = read_snapshot(rt.alloc(), &text)?;
    let space = snapshot.space(rt.alloc())?;
    let start = snapshot.start();
    let visited = walk(
        rt.alloc(),
        &space,
        &start,
        snapshot.interrupted(),
        snapshot.limit(),
    )?;
    let report = walk_report_of(rt.alloc(), &visited)?;
    print!(rt; "{}", str::from_utf8(report.bytes())?)?;
    // end
    Ok(())
}
