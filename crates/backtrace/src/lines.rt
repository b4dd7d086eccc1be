// The lines of a backtrace.
ghost use Rattle.std.specs.Prelude.{◌≡◌, ◌^◌, ◌≤◌, ◌++◌, length, IfOk, OnOk, Some};
ghost use Rattle.stack_deliver.specs.StateViews.{state_of};
ghost use Rattle.backtrace.specs.Lines.{end_line, form_of, frame_line, pointed_form, pointed_mark};
ghost use Rattle.backtrace.specs.Lines.{frame_lines, frame_text, gap_text, guess_text, inside_of};
ghost use Rattle.backtrace.specs.Lines.{kept_text, limit_text, mark_text, no_module_text};
ghost use Rattle.backtrace.specs.Lines.{number_text};
ghost use Rattle.backtrace.specs.Lines.{origin_text, place_text, registers_text, rest_text};
ghost use Rattle.backtrace.specs.Lines.{contexts_of, shown_states};
ghost use Rattle.backtrace.specs.Lines.{undescribed_text, unread_text, usage_line};
ghost use Rattle.backtrace.specs.Lines.{code_text, name_text, thread_line, unheld_text, why_text};
ghost use Rattle.backtrace.specs.Code.{code_at};

use crate::code::{CodeRange, CodeRanges, Places};
use crate::tracing::Trace;
use stack_deliver::{Context, DeliverError, EndReason, Error};
use stack_report::{Report, error_name, line_of};
use stack_snapshot::{Origin, Origins};
use std::alloc::{AllocError, Global};
use std::marker::Model;
use unwind_arch::x86_64::{R12, R13, R14, R15, RBP, RBX, RSP};
use unwinding_frames::address_asked;

/// What the lines say beside the states.
#[derive(Drop)]
pub struct Form<'a> {
    /// Whether they have registers too.
    registers: bool,
    /// Whether the first state was interrupted, and doesn't stand after a call.
    interrupted: bool,
    /// Whether the second state was read from the stack.
    called: bool,
    /// The number of the state to which a frame pointer led, if one did.
    pointed: Option<usize>,
    /// Whether registers were kept that were popped at the first state.
    popped: bool,
    /// Which files and code the snapshot names.
    places: &'a Places,
}

impl<'a> Model for Form<'a> {
    ghost use Rattle.backtrace.specs.Lines.{FormValue};

    ghost Value = { FormValue };

    ghost view = { λ f. record {
      registers = f.registers;
      interrupted = f.interrupted;
      called = f.called;
      pointed = f.pointed;
      popped = f.popped;
      places = f.places.now;
    } };
}

/// What the lines of a trace say beside its states.
pub fn form_of<'a>(
    registers: bool,
    interrupted: bool,
    places: &'a Places,
    trace: &Trace,
) -> Form<'a>
    ensures { result ≡ form_of registers interrupted places.now trace.now.trace }
{
    Form {
        registers,
        interrupted,
        called: trace.first().is_some(),
        pointed: None,
        popped: trace.popped(),
        places,
    }
}

/// The same of a walk from a state to which a frame pointer led.
pub fn pointed_form<'a>(form: &Form<'a>, first: usize) -> Form<'a>
    ensures { result ≡ pointed_form form.now first }
{
    Form {
        registers: form.registers,
        interrupted: false,
        called: false,
        pointed: Some(first),
        popped: false,
        places: form.places,
    }
}

/// Puts an address's file, and its place in it.
fn put_origin(report: &mut Report, origin: &Origin, address: u64) -> Result<(), AllocError>
    ensures { OnOk result (report.new ≡ report.old ++ origin_text (Some origin.now) address) }
{
    report.put(" in ")?;
    report.put_bytes(origin.name())?;
    report.put_field("+", address.wrapping_sub(origin.bias()))
}

/// Puts an address, and where it lies in a file. The file is that of the module that holds `inside`.
#[tactic(auto, unfolding(crate::specs::Lines::place_text))]
fn put_place(
    report: &mut Report,
    origins: &Origins,
    address: u64,
    inside: u64,
) -> Result<(), AllocError>
    ensures { OnOk result (report.new ≡ report.old ++ place_text origins.now address inside) }
{
    report.put_word(address)?;
    match origins.at(inside) {
        Some(origin) => put_origin(report, origin, address),
        None => Ok(()),
    }
}

/// What is between a frame's number and its place.
fn gap_after(index: usize) -> &'static str
    ensures { result.now ≡ gap_text index }
{
    if index < 10 { "  " } else { " " }
}

/// Puts the frame's number, in two places at least.
fn put_number(report: &mut Report, index: usize) -> Result<(), AllocError>
    ensures { OnOk result (report.new ≡ report.old ++ number_text index) }
{
    report.put_count("#", index)?;
    report.put(gap_after(index))
}

/// Puts the stack pointer and the registers that calls keep.
#[tactic(auto, unfolding(crate::specs::Lines::kept_text))]
fn put_kept(report: &mut Report, state: &Context) -> Result<(), AllocError>
    ensures { OnOk result (report.new ≡ report.old ++ kept_text (state_of state.now)) }
{
    report.put_field(" sp=", state.registers[RSP])?;
    report.put_field(" rbx=", state.registers[RBX])?;
    report.put_field(" rbp=", state.registers[RBP])?;
    report.put_field(" r12=", state.registers[R12])?;
    report.put_field(" r13=", state.registers[R13])?;
    report.put_field(" r14=", state.registers[R14])?;
    report.put_field(" r15=", state.registers[R15])
}

/// Puts that a frame pointer led to the frame, where one did.
fn put_pointed_mark(
    report: &mut Report,
    pointed: Option<usize>,
    index: usize,
) -> Result<(), AllocError>
    ensures { OnOk result (report.new ≡ report.old ++ pointed_mark pointed index) }
{
    match pointed {
        Some(first) if first == index => report.put(" (a guess, by the frame pointer)"),
        _ => Ok(()),
    }
}

/// Puts that the frame was read from the stack, or that a frame pointer led there, where it was so.
fn put_guess(report: &mut Report, form: &Form<'_>, index: usize) -> Result<(), AllocError>
    ensures { OnOk result (report.new ≡ report.old ++ guess_text form.now index) }
{
    if form.called && index == 1 {
        report.put(" (return address on the stack)")
    } else {
        put_pointed_mark(report, form.pointed, index)
    }
}

/// Puts that popped registers were kept at the frame, or how it was found without a table, where it
/// was so.
fn put_mark(report: &mut Report, form: &Form<'_>, index: usize) -> Result<(), AllocError>
    ensures { OnOk result (report.new ≡ report.old ++ mark_text form.now index) }
{
    if form.popped && index == 0 {
        report.put(" (popped registers kept)")
    } else {
        put_guess(report, form, index)
    }
}

/// Puts the frame's registers, where they are asked for.
fn put_registers(report: &mut Report, form: &Form<'_>, state: &Context) -> Result<(), AllocError>
    ensures { OnOk result (report.new ≡ report.old ++ registers_text form.now (state_of state.now)) }
{
    if form.registers {
        put_kept(report, state)
    } else {
        Ok(())
    }
}

/// An address of the frame's instruction: its own where the thread was interrupted there, else a
/// byte of the call before it.
fn inside_of(form: &Form<'_>, index: usize, state: &Context) -> u64
    ensures { result ≡ inside_of form.now index (state_of state.now) }
{
    address_asked(state.ra, form.interrupted && index == 0)
}

/// Puts where a frame stands.
fn put_instruction(
    report: &mut Report,
    form: &Form<'_>,
    index: usize,
    state: &Context,
) -> Result<(), AllocError>
    ensures { OnOk result (report.new ≡ report.old ++
        place_text form.now.places.origins state.now.ra
        (inside_of form.now index (state_of state.now))) }
{
    let inside = inside_of(form, index, state);
    let places = form.places;
    put_place(report, &places.origins, state.ra, inside)
}

/// Puts what a frame's line has after its place.
#[tactic(auto, unfolding(crate::specs::Lines::rest_text))]
fn put_rest(
    report: &mut Report,
    form: &Form<'_>,
    index: usize,
    state: &Context,
) -> Result<(), AllocError>
    ensures { OnOk result (report.new ≡ report.old ++ rest_text form.now index (state_of state.now)) }
{
    put_mark(report, form, index)?;
    put_registers(report, form, state)
}

/// Puts the line of a frame.
#[tactic(auto, unfolding(crate::specs::Lines::frame_line))]
fn put_frame(
    report: &mut Report,
    form: &Form<'_>,
    index: usize,
    state: &Context,
) -> Result<(), AllocError>
    ensures { OnOk result (report.new ≡ report.old ++
        frame_line form.now index (state_of state.now)) }
{
    put_number(report, index)?;
    put_instruction(report, form, index, state)?;
    put_rest(report, form, index, state)?;
    report.end_line()
}

/// Puts the line of a state, unless it is outside of the outermost frame.
fn put_state(
    report: &mut Report,
    form: &Form<'_>,
    index: usize,
    state: &Context,
) -> Result<(), AllocError>
    ensures { OnOk result (report.new ≡ report.old ++
        frame_text form.now index (state_of state.now)) }
{
    if state.ra == 0 && 0 < index {
        Ok(())
    } else {
        put_frame(report, form, index, state)
    }
}

/// Puts the lines of the states of a walk, the first of which has this number.
pub fn put_walked(
    report: &mut Report,
    form: &Form<'_>,
    first: usize,
    trace: &Trace,
) -> Result<(), AllocError>
    requires first { first ≤ 2 ^ 32 }
    requires states { length trace.now.trace.states ≤ 2 ^ 32 }
    ensures { OnOk result (report.new ≡ report.old ++
        frame_lines form.now first (shown_states trace.now.trace.states)) }
{
    for place in 0..trace.walked_len() {
        let state = trace.walked(place).unwrap();
        put_state(report, form, first + place, &state)?;
    }
    Ok(())
}

/// Puts the lines of all states.
pub fn put_states(report: &mut Report, form: &Form<'_>, trace: &Trace) -> Result<(), AllocError>
    requires { length trace.now.trace.states ≤ 2 ^ 32 }
    ensures { OnOk result (report.new ≡ report.old ++ frame_lines form.now 0
        (shown_states (contexts_of trace.now.trace))) }
{
    match trace.first() {
        Some(start) => {
            put_state(report, form, 0, &start)?;
            put_walked(report, form, 1, trace)
        }
        None => put_walked(report, form, 0, trace),
    }
}

/// Puts why a frame has no caller.
fn put_refused(
    report: &mut Report,
    places: &Places,
    address: u64,
    error: DeliverError,
) -> Result<(), AllocError>
    ensures { OnOk result (report.new ≡ report.old ++
        why_text places.now (EndReason.Refused address error)) }
{
    report.put("no caller of ")?;
    put_place(report, &places.origins, address, address)?;
    report.put(": ")?;
    report.put_refusal(error)
}

/// Puts that no module holds an address.
#[tactic(auto, unfolding(crate::specs::Lines::no_module_text))]
fn put_no_module(report: &mut Report, address: u64) -> Result<(), AllocError>
    ensures { OnOk result (report.new ≡ report.old ++ no_module_text address) }
{
    report.put("no module holds ")?;
    report.put_word(address)
}

/// Puts the name of a file, where there is one.
fn put_name(report: &mut Report, name: &[u8]) -> Result<(), AllocError>
    ensures { OnOk result (report.new ≡ report.old ++ name_text name.now) }
{
    match name {
        [] => Ok(()),
        [_, ..] => {
            report.put(" in ")?;
            report.put_bytes(name)
        }
    }
}

/// Puts that an address lies in code without a table, and of which file that is.
#[tactic(auto, unfolding(crate::specs::Lines::code_text))]
fn put_code(report: &mut Report, code: &CodeRange, address: u64) -> Result<(), AllocError>
    ensures { OnOk result (report.new ≡ report.old ++ code_text code.now address) }
{
    report.put("code without a table at ")?;
    report.put_word(address)?;
    put_name(report, code.name())
}

/// Puts where an address lies that no module holds.
fn put_unheld(report: &mut Report, code: &CodeRanges, address: u64) -> Result<(), AllocError>
    ensures { OnOk result (report.new ≡ report.old ++
        unheld_text (code_at code.now address) address) }
{
    match code.at(address) {
        Some(range) => put_code(report, range, address),
        None => put_no_module(report, address),
    }
}

/// Puts that there are more frames.
#[tactic(auto, unfolding(crate::specs::Lines::limit_text))]
fn put_limit(report: &mut Report) -> Result<(), AllocError>
    ensures { OnOk result (report.new ≡ report.old ++ limit_text) }
{
    report.put("more frames than the limit")
}

/// Puts that no description of an address is found.
#[tactic(auto, unfolding(crate::specs::Lines::undescribed_text))]
fn put_undescribed(report: &mut Report, origins: &Origins, address: u64) -> Result<(), AllocError>
    ensures { OnOk result (report.new ≡ report.old ++ undescribed_text origins.now address) }
{
    report.put("no description of ")?;
    put_place(report, origins, address, address)
}

/// Puts why an entry of a frame table can't be read.
#[tactic(auto, unfolding(crate::specs::Lines::unread_text))]
fn put_unread(report: &mut Report, offset: u64, error: Error) -> Result<(), AllocError>
    ensures { OnOk result (report.new ≡ report.old ++ unread_text offset error) }
{
    report.put_field(", since the entry at ", offset)?;
    report.put(" of its frame table can't be read: ")?;
    report.put(error_name(error))
}

/// Puts why a walk goes no further.
fn put_why(report: &mut Report, places: &Places, why: EndReason) -> Result<(), AllocError>
    ensures { OnOk result (report.new ≡ report.old ++ why_text places.now why) }
{
    match why {
        EndReason::Outermost => report.put("the outermost frame, which returns to 0"),
        EndReason::NoModule(address) => put_unheld(report, &places.code, address),
        EndReason::NoDescription(address) => put_undescribed(report, &places.origins, address),
        EndReason::UnreadableTable {
            address,
            offset,
            error,
        } => {
            put_undescribed(report, &places.origins, address)?;
            put_unread(report, offset, error)
        }
        EndReason::Refused { address, error } => put_refused(report, places, address, error),
        EndReason::Limit => put_limit(report),
    }
}

/// Puts the last line.
pub fn put_end(report: &mut Report, places: &Places, why: EndReason) -> Result<(), AllocError>
    ensures { OnOk result (report.new ≡ report.old ++ end_line places.now why) }
{
    report.put("end: ")?;
    put_why(report, places, why)?;
    report.end_line()
}

/// Puts a thread's number last.
#[tactic(auto, unfolding(crate::specs::Lines::thread_line))]
pub fn put_thread_line(report: &mut Report, index: usize) -> Result<(), AllocError>
    ensures { OnOk result (report.new ≡ report.old ++ thread_line index) }
{
    report.put_count("thread ", index)?;
    report.end_line()
}

/// Says which words there are.
pub fn usage_line(alloc: Global) -> Result<Report, AllocError>
    ensures { IfOk result (λ report. report ≡ usage_line) }
{
    line_of(
        alloc,
        "usage: backtrace [--registers] [--samples] [--frame-pointers]",
    )
}
