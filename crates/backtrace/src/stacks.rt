// The backtrace of a stack.
ghost use Rattle.std.specs.Prelude.{◌≡◌, ◌≤◌, ◌+◌, ℕ, List, ◌++◌, length, OnOk};
ghost use Rattle.backtrace.specs.FramePointers.{AreGuesses};
ghost use Rattle.backtrace.specs.Lines.{contexts_of, pointed_text};
ghost use Rattle.backtrace.specs.Stacks.{IsStackText};
ghost use Rattle.backtrace.specs.Tracing.{TraceValue};

use crate::code::Places;
use crate::lines::{Form, form_of, pointed_form, put_end, put_states, put_walked};
use crate::options::Options;
use crate::tracing::{Trace, trace_stack};
use stack_deliver::{Context, Space};
use stack_report::Report;
use std::alloc::{AllocError, Global};

/// What the backtraces of stacks share.
#[derive(Clone, Copy)]
pub struct Shared<'a, 'm> {
    /// What the words ask for.
    pub options: Options,
    /// The memory and the modules that stacks are traced over.
    pub space: &'a Space<'m>,
    /// How many states a stack has places for, found by tables or by frame pointers.
    pub limit: u32,
    /// The files and the code without tables that lines name.
    pub places: &'a Places,
}

/// Puts the lines of the walks that go on from a trace by frame pointers, and last why the last of
/// them goes no further. All of them take one place after another.
fn put_guesses(
    report: &mut Report,
    shared: &Shared<'_, '_>,
    form: &Form<'_>,
    trace: &mut Trace,
) -> Result<(), AllocError>
    requires places { trace.old.places ≡ shared.now.limit }
    requires most { length trace.old.trace.states ≤ shared.now.limit }
    requires shown { form.now.places ≡ shared.now.places.now }
    ensures { OnOk result ((ts : List TraceValue) ×
        AreGuesses shared.now.options.frame_pointers shared.now.space.now
        shared.now.places.now.code shared.now.limit (length (contexts_of trace.old.trace))
        trace.old.trace ts ×
        (report.new ≡ report.old ++ pointed_text form.now
        (length (contexts_of trace.old.trace)) trace.old.trace.why ts)) }
{
    let limit = shared.limit as usize;
    let pointers = shared.options.frame_pointers;
    let places = shared.places;
    let code = &places.code;
    let mut count = trace.contexts_len();
    'walks: while let Some(caller) = trace.guess_after(pointers, shared.space, code) {
        let left = limit.saturating_sub(count) as u32;
        trace.walk_from(shared.space, &caller, left);
        put_walked(report, &pointed_form(form, count), count, trace)?;
        count += trace.walked_len();
    }
    put_end(report, places, trace.why())
}

/// Puts the backtrace of the stack whose innermost frame has the registers `start`: a line for each
/// frame, and last why there are no more. Where frame pointers are asked for it goes on by them.
pub fn put_stack(
    alloc: Global,
    report: &mut Report,
    shared: &Shared<'_, '_>,
    start: &Context,
    interrupted: bool,
) -> Result<(), AllocError>
    ensures { OnOk result ((own : List ℕ) × (report.new ≡ report.old ++ own) ×
        IsStackText shared.now.options shared.now.space.now shared.now.limit
        shared.now.places.now start.now interrupted own) }
{
    let places = shared.places;
    let mut trace = trace_stack(
        alloc,
        shared.space,
        &places.code,
        start,
        interrupted,
        shared.limit,
    )?;
    let form = form_of(shared.options.registers, interrupted, places, &trace);
    put_states(report, &form, &trace)?;
    put_guesses(report, shared, &form, &mut trace)
}
