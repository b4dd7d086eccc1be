// The backtraces of samples.
ghost use Rattle.std.specs.Prelude.{◌≡◌, ℕ, List, ◌++◌, IfOk, OnOk};
ghost use Rattle.backtrace.specs.Threads.{AreThreads, IsThread, IsThreadsOf};

use crate::code::Places;
use crate::lines::put_thread_line;
use crate::options::Options;
use crate::stacks::{Shared, put_stack};
use folded_stacks::Sample;
use stack_report::Report;
use stack_snapshot::SampledSnapshot;
use std::alloc::{AllocError, Global};

/// Puts the number and the backtrace of a thread last.
fn put_thread(
    alloc: Global,
    report: &mut Report,
    shared: &Shared<'_, '_>,
    index: usize,
    sample: &Sample,
) -> Result<(), AllocError>
    ensures { OnOk result ((own : List ℕ) × (report.new ≡ report.old ++ own) ×
        IsThread shared.now.options shared.now.space.now shared.now.limit shared.now.places.now
        index sample.now own) }
{
    let interrupted = sample.interrupted;
    put_thread_line(report, index)?;
    put_stack(alloc, report, shared, &sample.start, interrupted)
}

/// The number and the backtrace of each thread, in the order of the samples.
pub fn threads_text(
    alloc: Global,
    options: Options,
    snapshot: &SampledSnapshot,
    places: &Places,
) -> Result<Report, AllocError>
    ensures { IfOk result (λ report. IsThreadsOf options snapshot.now places.now report) }
{
    let space = snapshot.space(alloc)?;
    let shared = Shared {
        options,
        space: &space,
        limit: snapshot.limit(),
        places,
    };
    let mut report = Report::new(alloc);
    for (index, sample) in snapshot.samples().as_slice().iter().enumerate() {
        put_thread(alloc, &mut report, &shared, index, sample)?;
    }
    Ok(report)
}
