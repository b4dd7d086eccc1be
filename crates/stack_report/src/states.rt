// The states of a stack as text.
ghost use Rattle.std.specs.Prelude.{◌≡◌, ◌+◌, ◌≤◌, ◌++◌, length, OnOk};
ghost use Rattle.stack_report.specs.Report.{fields_text, frame_line, frame_lines};

use crate::buffer::Report;
use crate::line::Line;
use stack_deliver::{Context, Room};
use std::alloc::AllocError;
use unwind_arch::x86_64::{R12, R13, R14, R15, RBP, RBX, RSP};

/// Puts the registers that calls keep.
#[tactic(auto, unfolding(crate::specs::Report::fields_text, crate::specs::Report::state_fields))]
pub(crate) fn put_fields(line: &mut Line, state: &Context)
    requires { length line.old + 182 ≤ 256 }
    ensures text { line.new ≡ line.old ++ fields_text state.now }
    ensures most { length line.new ≤ length line.old + 182 }
{
    line.put_field(" ra=", state.ra);
    line.put_field(" sp=", state.registers[RSP]);
    line.put_field(" rbx=", state.registers[RBX]);
    line.put_field(" rbp=", state.registers[RBP]);
    line.put_field(" r12=", state.registers[R12]);
    line.put_field(" r13=", state.registers[R13]);
    line.put_field(" r14=", state.registers[R14]);
    line.put_field(" r15=", state.registers[R15]);
}

/// Puts the line of a visited state.
#[tactic(auto, unfolding(crate::specs::Report::frame_line, crate::specs::Report::state_line, crate::specs::Report::fields_text))]
fn put_frame(report: &mut Report, index: usize, state: &Context) -> Result<(), AllocError>
    ensures { OnOk result (report.new ≡ report.old ++ frame_line index state.now) }
{
    let mut line = Line::new();
    line.put_count("frame ", index);
    put_fields(&mut line, state);
    line.put("\n");
    report.put_line(&line)
}

/// Puts a line for each state that was visited.
pub(crate) fn put_frames(report: &mut Report, room: &Room) -> Result<(), AllocError>
    ensures { OnOk result (report.new ≡ report.old ++ frame_lines 0 room.now.visited) }
{
    for index in 0..room.visited_len() {
        let state = room.visited(index).unwrap();
        put_frame(report, index, &state)?;
    }
    Ok(())
}
