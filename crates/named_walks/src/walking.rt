// The lines of walks.
ghost use Rattle.std.specs.Prelude.{◌≡◌, ◌≤◌, ◌++◌, ◌↔◌, ℕ, List, IfOk, IfSome, IsErrOf, IsSome};
ghost use Rattle.std.specs.Prelude.{OnOk, vec_capacity};
ghost use Rattle.core_file.specs.Left.{threads_left};
ghost use Rattle.mapped_files.specs.Files.{AreTold};
ghost use Rattle.stack_report.specs.Refusals.{refused_line};
ghost use Rattle.named_walks.specs.Named.{frame_head, named_line, named_lines, named_thread_text};
ghost use Rattle.stack_report.specs.Report.{end_line, fields_text};
ghost use Rattle.memory_image.specs.Results.{result_map};
ghost use Rattle.core_walks.specs.MappedWalks.{is_mapped};
ghost use Rattle.named_walks.specs.Marking.{AreMarkedMapped, marked_line_of, stopped_at};
ghost use Rattle.named_walks.specs.Named.{named_threads_text, named_walk_text};

use crate::marking::walk_marked;
use crate::names::FrameNames;
use core_file::Threads;
use core_walks::is_unmapped;
use mapped_files::{Files, PartError};
use stack_report::Report;
use stack_steps::{DeliverError, Space, Stepped};
use std::alloc::{AllocError, Global};
use unwind_arch::x86_64::{Context, R12, R13, R14, R15, RBP, RBX, RSP};

/// Puts the registers of a state last that calls keep.
fn put_fields(report: &mut Report, state: &Context) -> Result<(), AllocError>
    ensures { OnOk result (report.new ≡ report.old ++ fields_text state.now) }
{
    report.put_field(" ra=", state.ra)?;
    report.put_field(" sp=", state.registers[RSP])?;
    report.put_field(" rbx=", state.registers[RBX])?;
    report.put_field(" rbp=", state.registers[RBP])?;
    report.put_field(" r12=", state.registers[R12])?;
    report.put_field(" r13=", state.registers[R13])?;
    report.put_field(" r14=", state.registers[R14])?;
    report.put_field(" r15=", state.registers[R15])?;
    Ok(())
}

/// Puts the line of a state up to its end last.
fn put_head(report: &mut Report, index: usize, state: &Context) -> Result<(), AllocError>
    ensures { OnOk result (report.new ≡ report.old ++ frame_head index state.now) }
{
    report.put_count("frame ", index)?;
    put_fields(report, state)?;
    Ok(())
}

/// Puts the line of a state last, with its function.
fn put_state<F: Files>(
    report: &mut Report,
    names: &mut FrameNames<'_, F>,
    index: usize,
    state: &Stepped,
) -> Result<(), PartError>
    ensures told { (all : List ℕ → List ℕ) → AreTold (F.content names.old.files) all →
        OnOk result (report.new ≡ report.old ++ named_line all names.old.parts index state.now) }
    ensures fault { IsErrOf result PartError.Fault → F.may_fail names.old.files }
    ensures same { names.new ≡ names.old }
{
    put_head(report, index, &state.context)?;
    names.put_name(report, state.signal, state.context.ra)?;
    report.end_line()?;
    Ok(())
}

/// Puts the lines of states last.
fn put_states<F: Files>(
    report: &mut Report,
    names: &mut FrameNames<'_, F>,
    visited: &[Stepped],
) -> Result<(), PartError>
    ensures told { (all : List ℕ → List ℕ) → AreTold (F.content names.old.files) all →
        OnOk result (report.new ≡ report.old ++ named_lines all names.old.parts 0 visited.now) }
    ensures fault { IsErrOf result PartError.Fault → F.may_fail names.old.files }
    ensures same { names.new ≡ names.old }
{
    for index in 0..visited.len() {
        put_state(report, names, index, &visited[index])?;
    }
    Ok(())
}

/// Puts the lines of a walk last, and that there are no more.
fn put_walk<F: Files>(
    report: &mut Report,
    names: &mut FrameNames<'_, F>,
    visited: &[Stepped],
) -> Result<(), PartError>
    ensures told { (all : List ℕ → List ℕ) → AreTold (F.content names.old.files) all →
        OnOk result (report.new ≡ report.old ++
        (named_lines all names.old.parts 0 visited.now ++ end_line)) }
    ensures fault { IsErrOf result PartError.Fault → F.may_fail names.old.files }
    ensures same { names.new ≡ names.old }
{
    put_states(report, names, visited)?;
    report.put("end")?;
    report.end_line()?;
    Ok(())
}

/// Puts why a walk was refused as a line last.
fn put_refused(report: &mut Report, error: DeliverError) -> Result<(), AllocError>
    ensures { OnOk result (report.new ≡ report.old ++ refused_line error) }
{
    report.put("refused: ")?;
    report.put_refusal(error)?;
    report.end_line()
}

/// Puts what is written of a walk last.
fn put_walked<F: Files>(
    report: &mut Report,
    names: &mut FrameNames<'_, F>,
    walked: Result<(), DeliverError>,
    visited: &[Stepped],
) -> Result<(), PartError>
    ensures told { (all : List ℕ → List ℕ) → AreTold (F.content names.old.files) all →
        OnOk result (report.new ≡ report.old ++
        named_walk_text all names.old.parts (result_map (λ done. visited.now) walked)) }
    ensures fault { IsErrOf result PartError.Fault → F.may_fail names.old.files }
    ensures same { names.new ≡ names.old }
{
    match walked {
        Ok(()) => put_walk(report, names, visited),
        Err(error) => Ok(put_refused(report, error)?),
    }
}

/// Whether a walk met nothing that isn't mapped.
fn is_mapped(walked: Result<(), DeliverError>) -> bool
    ensures { result ≡ is_mapped walked }
{
    match walked {
        Ok(()) => true,
        Err(error) => !is_unmapped(error),
    }
}

/// Puts a thread's number and its walk last, or why there is none. It answers whether the walk met
/// nothing that isn't mapped.
#[tactic(auto, unfolding(crate::specs::Named::named_thread_text))]
fn put_thread<F: Files>(
    report: &mut Report,
    index: usize,
    space: &Space<'_>,
    thread: &Context,
    limit: u32,
    visited: &mut Vec<Stepped>,
    names: &mut FrameNames<'_, F>,
) -> Result<bool, PartError>
    requires { limit ≤ vec_capacity visited.old }
    ensures told { (all : List ℕ → List ℕ) → AreTold (F.content names.old.files) all →
        OnOk result (report.new ≡ report.old ++
        named_thread_text all names.old.parts space.now limit index thread.now) }
    ensures mapped { IfOk result (λ mapped. mapped ≡
        is_mapped (marked_line_of space.now limit (stopped_at thread.now))) }
    ensures fault { IsErrOf result PartError.Fault → F.may_fail names.old.files }
    ensures places { vec_capacity visited.new ≡ vec_capacity visited.old }
    ensures same { names.new ≡ names.old }
{
    let walked = walk_marked(space, thread, limit, visited);
    report.put_count("thread ", index)?;
    report.end_line()?;
    put_walked(report, names, walked, visited)?;
    Ok(is_mapped(walked))
}

/// The walks of threads over a space, each from the instruction at which the thread was stopped, with
/// the functions of their frames. A walk of more than `limit` states is refused.
///
/// # Errors
///
/// [`PartError::Fault`] where a read failed, and [`PartError::Memory`] where memory ran out.
pub fn named_walks_of_threads<F: Files>(
    alloc: Global,
    space: &Space<'_>,
    threads: Threads<'_>,
    limit: u32,
    names: &mut FrameNames<'_, F>,
) -> Result<Report, PartError>
    ensures told { (all : List ℕ → List ℕ) → AreTold (F.content names.old.files) all →
        IfOk result (λ report. report ≡
        named_threads_text all names.old.parts space.now limit 0 (threads_left threads.entry)) }
    ensures fault { IsErrOf result PartError.Fault → F.may_fail names.old.files }
    ensures same { names.new ≡ names.old }
{
    let mut report = Report::new(alloc);
    let mut visited = Vec::with_capacity(alloc, limit as usize)?;
    let mut threads = threads;
    let mut index = 0usize;
    while let Some(thread) = threads.next() {
        put_thread(
            &mut report,
            index,
            space,
            &thread,
            limit,
            &mut visited,
            names,
        )?;
        // Each thread makes the report longer. So it has fewer threads than bytes, and the number of
        // threads never comes to its most.
        let _ = report.bytes().len();
        index = index.saturating_add(1);
    }
    Ok(report)
}

/// The same, where none of the walks met something that isn't mapped. `None` where one did.
///
/// Over a part of the memory that holds the frame tables of all modules, which are ELF files, these are
/// the walks over all of it.
///
/// # Errors
///
/// Those of [`named_walks_of_threads`].
pub fn mapped_named_walks_of_threads<F: Files>(
    alloc: Global,
    space: &Space<'_>,
    threads: Threads<'_>,
    limit: u32,
    names: &mut FrameNames<'_, F>,
) -> Result<Option<Report>, PartError>
    ensures told { (all : List ℕ → List ℕ) → AreTold (F.content names.old.files) all →
        IfOk result (λ walked. IfSome walked (λ report. report ≡
        named_threads_text all names.old.parts space.now limit 0 (threads_left threads.entry))) }
    ensures mapped { IfOk result (λ walked. IsSome walked ↔
        AreMarkedMapped space.now limit (threads_left threads.entry)) }
    ensures fault { IsErrOf result PartError.Fault → F.may_fail names.old.files }
    ensures same { names.new ≡ names.old }
{
    let mut report = Report::new(alloc);
    let mut visited = Vec::with_capacity(alloc, limit as usize)?;
    let mut threads = threads;
    let mut index = 0usize;
    while let Some(thread) = threads.next() {
        if !put_thread(
            &mut report,
            index,
            space,
            &thread,
            limit,
            &mut visited,
            names,
        )? {
            return Ok(None);
        }
        // Each thread makes the report longer. So it has fewer threads than bytes, and the number of
        // threads never comes to its most.
        let _ = report.bytes().len();
        index = index.saturating_add(1);
    }
    Ok(Some(report))
}
