// The report of a delivery.
ghost use Rattle.std.specs.Prelude.{◌≡◌, ◌++◌, IfOk, OnOk};
ghost use Rattle.stack_report.specs.Report.{cleanup_line, cleanup_lines, landing_line};
ghost use Rattle.stack_report.specs.Report.{outcome_name, outcome_line, report_of};

use crate::buffer::Report;
use crate::line::Line;
use crate::states::{put_fields, put_frames};
use stack_deliver::{Context, Delivery, Outcome, Room, Trail};
use std::alloc::{AllocError, Global};
use unwind_arch::x86_64::{RAX, RDX};

fn name_of(outcome: Outcome) -> &'static str
    ensures { result.now ≡ outcome_name outcome }
{
    match outcome {
        Outcome::Installed => "installed",
        Outcome::EndOfStack => "end of stack",
        Outcome::FatalPhase1 => "fatal phase 1",
        Outcome::FatalPhase2 => "fatal phase 2",
    }
}

#[tactic(auto, unfolding(crate::specs::Report::cleanup_line, crate::specs::Report::pad_line))]
fn put_cleanup(report: &mut Report, trail: Trail) -> Result<(), AllocError>
    ensures { OnOk result (report.new ≡ report.old ++ cleanup_line trail) }
{
    let mut line = Line::new();
    line.put_field("cleanup pad=", trail.pad);
    line.put_field(" sp=", trail.sp);
    line.put("\n");
    report.put_line(&line)
}

#[tactic(auto, unfolding(crate::specs::Report::landing_line, crate::specs::Report::handler_line, crate::specs::Report::fields_text))]
fn put_landing(report: &mut Report, state: &Context) -> Result<(), AllocError>
    ensures { OnOk result (report.new ≡ report.old ++ landing_line state.now) }
{
    let mut line = Line::new();
    line.put("landing");
    put_fields(&mut line, state);
    line.put_field(" rax=", state.registers[RAX]);
    line.put_field(" rdx=", state.registers[RDX]);
    line.put("\n");
    report.put_line(&line)
}

/// Puts the line that says how a delivery ended last.
pub(crate) fn put_outcome(report: &mut Report, outcome: Outcome) -> Result<(), AllocError>
    ensures { OnOk result (report.new ≡ report.old ++ outcome_line outcome) }
{
    report.put("outcome ")?;
    report.put(name_of(outcome))?;
    report.end_line()
}

fn put_cleanups(report: &mut Report, room: &Room) -> Result<(), AllocError>
    ensures { OnOk result (report.new ≡ report.old ++ cleanup_lines room.now.trail) }
{
    for index in 0..room.trail_len() {
        let trail = room.trail(index).unwrap();
        put_cleanup(report, trail)?;
    }
    Ok(())
}

/// The report of a delivery: a line for each visited state, a line for each cleanup, the state at
/// the handler where one accepted, and how the delivery ended.
///
/// # Errors
///
/// `AllocError` where memory ran out.
pub fn report_of(alloc: Global, delivery: &Delivery) -> Result<Report, AllocError>
    ensures { IfOk result (λ report. report ≡ report_of delivery.now) }
{
    let room = delivery.room();
    let lines = room.visited_len().saturating_add(room.trail_len());
    let mut report = Report::with_lines(alloc, lines)?;
    put_frames(&mut report, delivery.room())?;
    put_cleanups(&mut report, delivery.room())?;
    if let Some(state) = delivery.landing() {
        put_landing(&mut report, &state)?;
    }
    put_outcome(&mut report, delivery.outcome())?;
    Ok(report)
}
