// The walks of threads.
ghost use Rattle.std.specs.Prelude.{◌≡◌, ◌≤◌, ◌++◌, ◌∷◌, ℕ, Bool, List, IfOk, OnOk, true, Some, slice_get};
ghost use Rattle.core_file.specs.Left.{threads_left};
ghost use Rattle.stack_walks.specs.Lines.{line_of};
ghost use Rattle.stack_report.specs.Refusals.{refused_line};
ghost use Rattle.stack_snapshot.specs.Cores.{core_space_of, threads_of};
ghost use Rattle.unwind_arch.specs.declared.x86_64.Context.{Context};
ghost use Rattle.core_walks.specs.Lines.{thread_text, threads_text, core_report_of};
ghost use Rattle.core_walks.specs.Lines.{lines_after, lines_before, stopped_text, text_after};
ghost use Rattle.core_walks.specs.Lines.{text_before};
ghost use Rattle.core_walks.specs.MappedWalks.{is_mapped};
ghost use Rattle.core_walks.specs.ThreadLines.{thread_lines};
ghost use Rattle.memory_image.specs.Image.{IsLaidOut};
ghost use Rattle.unwind_definitions.specs.State.{State};
ghost use Rattle.unwind_definitions.specs.Function.{Function};
ghost use Rattle.unwind_definitions.specs.Chain.{Call};
ghost use Rattle.stack_steps.specs.Modules.{AreApart};
ghost use Rattle.stack_steps.specs.Stopped.{StartsStopped};
ghost use Rattle.stack_walks.specs.KnownWalks.{StartsKnownStack};

use crate::mapped::is_unmapped;
use core_file::Threads;
use memory_image::{NoLedger, Steps};
use stack_deliver::{Context, DeliverError, Room, Space, walk_into};
use stack_report::Report;
use stack_snapshot::CoreSnapshot;
use std::alloc::{AllocError, Global};

/// The space of a core file, in which its modules are prepared where they can be. Nothing is answered
/// otherwise over it.
fn prepared_space(alloc: Global, snapshot: &CoreSnapshot) -> Result<Space<'_>, AllocError>
    ensures walk { IfOk result (λ space. (limit : ℕ) (c : Context) (interrupted : Bool) →
        line_of space limit c interrupted ≡
        line_of (core_space_of snapshot.now) limit c interrupted) }
    ensures apart { OnOk result (AreApart 0 (core_space_of snapshot.now).modules) }
    ensures laid_out { OnOk result (IsLaidOut 0 (core_space_of snapshot.now).image) }
{
    let mut space = snapshot.space(alloc)?;
    // No two of its modules share an address, as a space's type says.
    let _ = space.image();
    space.prepare()?;
    Ok(space)
}

/// Puts why a walk was refused as a line last.
fn put_refused(report: &mut Report, error: DeliverError) -> Result<(), AllocError>
    ensures { OnOk result (report.new ≡ report.old ++ refused_line error) }
{
    report.put("refused: ")?;
    report.put_refusal(error)?;
    report.end_line()
}

/// Puts a thread's number and its walk last, or why there is none. It answers whether the walk met
/// nothing that isn't mapped.
#[tactic(auto, unfolding(crate::specs::Lines::thread_text))]
pub(crate) fn put_thread(
    report: &mut Report,
    index: usize,
    space: &Space<'_>,
    thread: &Context,
    limit: u32,
    room: &mut Room,
) -> Result<bool, AllocError>
    requires { limit ≤ room.old.limit }
    ensures text { OnOk result (report.new ≡ report.old ++ thread_text space.now limit index thread.now) }
    ensures mapped { IfOk result (λ mapped. mapped ≡ is_mapped (line_of space.now limit thread.now true)) }
    ensures places { room.new.limit ≡ room.old.limit }
{
    let walked = walk_into(space, thread, true, limit, room, &mut Steps::new(NoLedger));
    report.put_count("thread ", index)?;
    report.end_line()?;
    match walked {
        Ok(()) => {
            report.put_walk(room)?;
            Ok(true)
        }
        Err(error) => {
            put_refused(report, error)?;
            Ok(!is_unmapped(error))
        }
    }
}

/// Puts each thread's number and walk.
fn threads_report(
    alloc: Global,
    space: &Space<'_>,
    threads: Threads<'_>,
    limit: u32,
) -> Result<Report, AllocError>
    ensures { IfOk result (λ report. report ≡ threads_text space.now limit 0 (threads_left threads.entry)) }
{
    let mut report = Report::new(alloc);
    let mut room = Room::new(alloc, limit)?;
    let mut threads = threads;
    let mut index = 0usize;
    while let Some(thread) = threads.next() {
        put_thread(&mut report, index, space, &thread, limit, &mut room)?;
        // Each thread makes the report longer: it has fewer threads than bytes.
        let _ = report.bytes().len();
        index += 1;
    }
    Ok(report)
}

/// The walks of threads over a space, each from the instruction at which the thread was stopped.
///
/// # Errors
///
/// `AllocError` where memory ran out.
pub fn walks_of_threads(
    alloc: Global,
    space: &Space<'_>,
    threads: Threads<'_>,
    limit: u32,
) -> Result<Report, AllocError>
    ensures text { IfOk result (λ report.
        report ≡ threads_text space.now limit 0 (threads_left threads.entry)) }
    // Where a described function was stopped at an instruction, and its caller begins a described
    // chain that the limit has room for, a thread's lines are those of that state and of the chain.
    ensures stopped { IfOk result (λ report. (index : ℕ) (thread : Context)
        (functions : List Function) (s : State) (call : Call) (calls : List Call) →
        slice_get (threads_left threads.entry) index ≡ Some thread →
        StartsStopped space.now thread limit functions s call calls →
        report ≡ lines_before space.now limit (threads_left threads.entry) index
        ++ stopped_text index s (call ∷ calls)
        ++ lines_after space.now limit (threads_left threads.entry) index) }
    // Where it begins a stack of each of whose frames it is known how its caller's state follows,
    // they are those of the stack.
    ensures known { IfOk result (λ report. (index : ℕ) (thread : Context) (s : State)
        (callers : List State) →
        slice_get (threads_left threads.entry) index ≡ Some thread →
        StartsKnownStack space.now thread limit true s callers →
        report ≡ lines_before space.now limit (threads_left threads.entry) index
        ++ thread_lines index (s ∷ callers)
        ++ lines_after space.now limit (threads_left threads.entry) index) }
{
    // No two of its modules share an address, as a space's type says.
    let _ = space.image();
    threads_report(alloc, space, threads, limit)
}

/// The walks of all threads of a core file, each from the instruction at which the thread was stopped.
///
/// # Errors
///
/// `AllocError` where memory ran out.
pub fn core_report_of(alloc: Global, snapshot: &CoreSnapshot) -> Result<Report, AllocError>
    ensures text { IfOk result (λ report. report ≡ core_report_of snapshot.now) }
    // Where a described function was stopped at an instruction of its body, of the prologue where it is
    // of an ELF or a PE module, or in an epilog of a PE function, and its caller begins a described
    // chain that the limit has room for, a thread's lines are those of that state and of the chain.
    ensures stopped { IfOk result (λ report. (index : ℕ) (thread : Context)
        (functions : List Function) (s : State) (call : Call) (calls : List Call) →
        slice_get (threads_of snapshot.now.file) index ≡ Some thread →
        StartsStopped (core_space_of snapshot.now) thread snapshot.now.limit functions s call
        calls →
        report ≡ text_before snapshot.now index ++ stopped_text index s (call ∷ calls)
        ++ text_after snapshot.now index) }
    // Where it begins a stack of each of whose frames it is known how its caller's state follows, in
    // an ELF module by facts that its tables say, at any address, and through a signal's frame to the
    // state that was interrupted, they are those of the stack.
    ensures known { IfOk result (λ report. (index : ℕ) (thread : Context) (s : State)
        (callers : List State) →
        slice_get (threads_of snapshot.now.file) index ≡ Some thread →
        StartsKnownStack (core_space_of snapshot.now) thread snapshot.now.limit true s callers →
        report ≡ text_before snapshot.now index ++ thread_lines index (s ∷ callers)
        ++ text_after snapshot.now index) }
{
    let space = prepared_space(alloc, snapshot)?;
    threads_report(alloc, &space, snapshot.threads(), snapshot.limit())
}
