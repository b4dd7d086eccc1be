// The report of a walk.
ghost use Rattle.std.specs.Prelude.{◌≡◌, ◌++◌, IfOk, OnOk};
ghost use Rattle.stack_report.specs.Report.{walk_report_of};

use crate::buffer::Report;
use crate::states::put_frames;
use stack_deliver::{Room, Visited};
use std::alloc::{AllocError, Global};

impl Report {
    /// Puts the report of the walk whose states stand in a room last: a line for each state, and that
    /// there are no more.
    pub fn put_walk(&mut self, room: &Room) -> Result<(), AllocError>
        ensures { OnOk result (self.new ≡ self.old ++ walk_report_of room.now.visited) }
    {
        put_frames(self, room)?;
        self.put("end")?;
        self.end_line()
    }
}

/// The report of a walk: a line for each state, and that there are no more.
///
/// # Errors
///
/// `AllocError` where memory ran out.
pub fn walk_report_of(alloc: Global, visited: &Visited) -> Result<Report, AllocError>
    ensures { IfOk result (λ report. report ≡ walk_report_of visited.now) }
{
    let mut report = Report::with_lines(alloc, visited.len())?;
    report.put_walk(visited.room())?;
    Ok(report)
}
