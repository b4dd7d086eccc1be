// One run of the program, from its words and its input to its output.
ghost use Rattle.std.specs.Prelude.{◌≡◌, ◌≢◌, ◌⊎◌, ◌+◌, ◌^◌, ◌≤◌, ◌<◌, [], ◌∷◌, ℕ, List, IfOk, IfSome};
ghost use Rattle.std.specs.Prelude.{IsFalse, IsSome, MatchResult, None, Some, Err, length, true, ⊤};
ghost use Rattle.std.specs.Io.KnownBytes.{Appends, Keeps};
ghost use Rattle.memory_image.specs.Ends.{Rose};
ghost use Rattle.command_ends.specs.Answers.{AnswersBytes, KeepsToEnds, LeavesSource};
ghost use Rattle.command_ends.specs.Verdicts.{Tells, IsReady, IsReadyOrFailed, verdict};
ghost use Rattle.command_ends.specs.Verdicts.{ComesExactly};
ghost use Rattle.stack_snapshot.specs.declared.errors.Field.{Field};
ghost use Rattle.stack_snapshot.specs.Content.{Content, space_of};
ghost use Rattle.stack_snapshot.specs.Answers.{content_of, value_of};
ghost use Rattle.stack_snapshot.specs.Described.{DescribesStop, DescribesWalk};
ghost use Rattle.backtrace.specs.Code.{PlacesValue, places_by};
ghost use Rattle.unwind_definitions.specs.State.{State};
ghost use Rattle.unwind_definitions.specs.Function.{Function};
ghost use Rattle.unwind_definitions.specs.Chain.{Call};
ghost use Rattle.backtrace.specs.KnownStacks.{BeginsByCallToNowhere, BeginsKnownStack};
ghost use Rattle.backtrace.specs.KnownStacks.{called_stack_text, stack_text};
ghost use Rattle.backtrace.specs.Options.{options_of};
ghost use Rattle.backtrace.specs.Tracing.{TraceValue, keeps_popped};
ghost use Rattle.stack_walks.specs.declared.walk_end.EndReason.{EndReason};
ghost use Rattle.stack_walks.specs.WalkEnds.{ComesTo};
ghost use Rattle.backtrace.specs.PoppedStacks.{BeginsPoppedStack, PopsAtStart, kept_of};
ghost use Rattle.backtrace.specs.PoppedStacks.{popped_stack_text, popped_text};
ghost use Rattle.backtrace.specs.Lines.{usage_line};
ghost use Rattle.backtrace.specs.Due.{Asks, IsBacktrace, IsBacktraceBy, IsBacktraceOf, IsTraceOf};
ghost use Rattle.backtrace.specs.Due.{IsPlainTraceOf};
ghost use Rattle.backtrace.specs.Due.{DescribesCallToNowhere, called_text, chain_text, text_of};
ghost use Rattle.backtrace.specs.Due.{bytes_due, content_due, due_of, read_due};
ghost use Rattle.backtrace.specs.Due.{AsksSamples, IsBacktraceIn, IsFaulty, IsOfSamples};
ghost use Rattle.backtrace.specs.Due.{AreGuessesOf, AsksPointers, IsOfSnapshot, guessed_text_of};
ghost use Rattle.backtrace.specs.Threads.{IsThreadsOf};
ghost use Rattle.stack_snapshot.specs.Sampled.{SampledContent, sampled_in};

use crate::code::{Places, read_placed_samples, read_placed_snapshot};
use crate::lines::usage_line;
use crate::options::{Options, options_of};
use crate::stacks::{Shared, put_stack};
use crate::threads::threads_text;
use command_ends::{Answer, Status, Words, fault_answer, read_input, text_answer, write_answer};
use memory_image::{Sink, Source};
use stack_report::Report;
use stack_snapshot::{Snapshot, SnapshotError};
use std::alloc::{AllocError, Global};

/// The backtrace of a snapshot.
fn backtrace_text(
    alloc: Global,
    options: Options,
    snapshot: &Snapshot,
    places: &Places,
) -> Result<Report, AllocError>
    ensures { IfOk result (λ report. IsBacktraceOf options snapshot.now places.now report) }
{
    let space = snapshot.space(alloc)?;
    let shared = Shared {
        options,
        space: &space,
        limit: snapshot.limit(),
        places,
    };
    let start = snapshot.start();
    let interrupted = snapshot.interrupted();
    let mut report = Report::new(alloc);
    put_stack(alloc, &mut report, &shared, &start, interrupted)?;
    Ok(report)
}

/// The answer to all bytes of the source, as a snapshot. They are let go before anything is traced.
fn snapshot_answer(alloc: Global, options: Options, bytes: Vec<u8>) -> Answer
    ensures answer { AnswersBytes (content_due result.text (content_of bytes.items)) result.status
        result.text }
    ensures backtrace { result.status ≡ Status.Done → IsOfSnapshot options
        (content_of bytes.items) (places_by (value_of bytes.items)) result.text }
    ensures kind { (result.status ≢ Status.TooLong) × (result.status ≢ Status.Refused) }
{
    let read = read_placed_snapshot(alloc, &bytes);
    drop(bytes);
    match read {
        Ok((snapshot, places)) => text_answer(
            alloc,
            Status::Done,
            backtrace_text(alloc, options, &snapshot, &places),
        ),
        Err(error) => fault_answer(alloc, error),
    }
}

/// The same as samples.
fn samples_answer(alloc: Global, options: Options, bytes: Vec<u8>) -> Answer
    ensures answer { AnswersBytes (content_due result.text (sampled_in bytes.items)) result.status
        result.text }
    ensures backtrace { result.status ≡ Status.Done → IsOfSamples options
        (sampled_in bytes.items) (places_by (value_of bytes.items)) result.text }
    ensures kind { (result.status ≢ Status.TooLong) × (result.status ≢ Status.Refused) }
{
    let read = read_placed_samples(alloc, &bytes);
    drop(bytes);
    match read {
        Ok((samples, places)) => text_answer(
            alloc,
            Status::Done,
            threads_text(alloc, options, &samples, &places),
        ),
        Err(error) => fault_answer(alloc, error),
    }
}

/// The answer to all bytes of the source, by what the words ask for.
fn bytes_answer(alloc: Global, options: Options, bytes: Vec<u8>) -> Answer
    ensures answer { AnswersBytes (read_due options.samples result.text bytes.items) result.status
        result.text }
    ensures backtrace { result.status ≡ Status.Done →
        IsBacktraceIn options.samples options bytes.items result.text }
    ensures kind { (result.status ≢ Status.TooLong) × (result.status ≢ Status.Refused) }
{
    if options.samples {
        samples_answer(alloc, options, bytes)
    } else {
        snapshot_answer(alloc, options, bytes)
    }
}

fn input_answer<I: Source>(alloc: Global, options: Options, input: &mut I) -> Answer
    ensures answer { IfSome (I.left input.old)
        (λ bytes. IsReadyOrFailed (bytes_due options result.text bytes) result.status
        result.text) }
    ensures backtrace { result.status ≡ Status.Done → IfSome (I.left input.old)
        (λ bytes. IsBacktraceBy (Some options) bytes result.text) }
    ensures kind { (result.status ≢ Status.Usage) × (result.status ≢ Status.WriteFault) ×
        (result.status ≢ Status.Refused) }
    ensures leaves { LeavesSource ⊤ result.status result.text
        (Rose (I.faults input.old) (I.faults input.new)) (I.left input.old) (I.left input.new) }
{
    match read_input(alloc, input) {
        Ok(bytes) => bytes_answer(alloc, options, bytes),
        Err(answer) => answer,
    }
}

fn decide<I: Source>(alloc: Global, words: &Words, input: &mut I) -> Answer
    ensures answer { IfSome (I.left input.old)
        (λ bytes. IsReadyOrFailed (due_of words.now bytes result.text) result.status result.text) }
    ensures backtrace { result.status ≡ Status.Done → IfSome (I.left input.old)
        (λ bytes. IsBacktrace words.now bytes result.text) }
    ensures usage { options_of words.now ≡ None →
        IsReady (verdict Status.Usage usage_line) result.status result.text }
    ensures no_other { result.status ≡ Status.Usage → options_of words.now ≡ None }
    ensures leaves { LeavesSource (IsSome (options_of words.now)) result.status result.text
        (Rose (I.faults input.old) (I.faults input.new)) (I.left input.old) (I.left input.new) }
    ensures unread { options_of words.now ≡ None →
        (result.status ≢ Status.ReadFault) × Keeps (I.left input.old) (I.left input.new) }
    ensures kind { (result.status ≢ Status.WriteFault) × (result.status ≢ Status.Refused) }
{
    match options_of(words) {
        Some(options) => input_answer(alloc, options, input),
        None => text_answer(alloc, Status::Usage, usage_line(alloc)),
    }
}

/// Writes the backtrace of the snapshot that the input is, or the backtraces of samples, or why there
/// are none, to the output.
///
/// The input is read to its end, but for at most one byte after the 67,108,864th, and not at all
/// where the words name no options. The checks go in this order: words, reading, JSON, snapshot,
/// writing. A walk that comes to a fault is no failure: the last line says it. Running out of
/// memory at any of them is `Memory`.
pub fn run<I, O>(alloc: Global, words: &Words, input: &mut I, output: &mut O) -> Status
where
    I: Source,
    O: Sink,
    // What is due for the words and the source's bytes is answered and written: by the one
    // backtrace of the snapshot, if they ask for one.
    ensures told { IfSome (I.left input.old)
        (λ bytes. (text : List ℕ) → IsBacktrace words.now bytes text →
        Tells (due_of words.now bytes text) result (O.holds output.old) (O.holds output.new)) }
    // Where all was written, a backtrace is what was.
    ensures done { result ≡ Status.Done → IfSome (I.left input.old)
        (λ bytes. (text : List ℕ) × IsBacktrace words.now bytes text ×
        Appends (O.holds output.old) (O.holds output.new) text) }
    // Of a snapshot's trace the lines are written: of each frame, and why there are no more.
    ensures traced { (o : Options) (s : Content) (places : PlacesValue) (t : TraceValue) →
        Asks o words.now (I.left input.old) s places → IsTraceOf s places t →
        Tells (verdict Status.Done (text_of o s places t)) result (O.holds output.old)
        (O.holds output.new) }
    // Where no popped register is kept, that trace is the one of the tables alone, over the
    // snapshot's memory as it is.
    ensures plain { (o : Options) (s : Content) (places : PlacesValue) (t : TraceValue) →
        Asks o words.now (I.left input.old) s places → IsPlainTraceOf s places t →
        IsFalse (keeps_popped (space_of s) s.limit s.start s.interrupted) →
        Tells (verdict Status.Done (text_of o s places t)) result (O.holds output.old)
        (O.holds output.new) }
    // Where its thread was interrupted after registers were popped whose slots, below the stack
    // pointer, aren't mapped, the step from its start is refused. These are then the lines of the
    // walk over the memory in which the slots hold what the registers hold, and the first frame
    // is marked.
    ensures popped { (o : Options) (s : Content) (places : PlacesValue) (why : EndReason) →
        Asks o words.now (I.left input.old) s places → PopsAtStart s →
        ComesTo why (kept_of s) s.limit s.start true →
        Tells (verdict Status.Done (popped_text o s places why)) result (O.holds output.old)
        (O.holds output.new) }
    // With frame pointers these are, and then of each caller to which a frame pointer leads from where
    // no table describes the code, marked as a guess, and of the walk by tables from there; last why
    // the last of these walks goes no further.
    ensures guessed { (o : Options) (s : Content) (places : PlacesValue) (t : TraceValue)
        (ts : List TraceValue) →
        AsksPointers o words.now (I.left input.old) s places → IsTraceOf s places t →
        AreGuessesOf s places t ts →
        Tells (verdict Status.Done (guessed_text_of o s places t ts)) result
        (O.holds output.old) (O.holds output.new) }
    // Of samples the number and the backtrace of each thread are written, in order.
    ensures threads { (o : Options) (s : SampledContent) (places : PlacesValue)
        (text : List ℕ) →
        AsksSamples o words.now (I.left input.old) s places → IsThreadsOf o s places text →
        Tells (verdict Status.Done text) result (O.holds output.old) (O.holds output.new) }
    // Where its unwind tables describe a chain of calls, through modules of whatever format, these are
    // the lines of the chain's states, and the last says why its outermost state has no caller.
    ensures chain { (o : Options) (s : Content) (places : PlacesValue)
        (functions : List Function) (start : State) (calls : List Call) →
        Asks o words.now (I.left input.old) s places →
        DescribesWalk s functions start calls →
        Tells (verdict Status.Done (chain_text o s places start calls)) result
        (O.holds output.old) (O.holds output.new) }
    // So they are where it was stopped at an instruction of a described function, of its state and
    // of those of the chain that begins with its caller's.
    ensures stop { (o : Options) (s : Content) (places : PlacesValue)
        (functions : List Function) (start : State) (call : Call) (calls : List Call) →
        Asks o words.now (I.left input.old) s places →
        DescribesStop s functions start call calls →
        Tells (verdict Status.Done (chain_text o s places start (call ∷ calls))) result
        (O.holds output.old) (O.holds output.new) }
    // And where it was interrupted right after a call to 0 or to where no code is, of its state and of
    // those of the chain that begins with its caller's, whose return address the stack names.
    ensures called { (o : Options) (s : Content) (places : PlacesValue)
        (functions : List Function) (start caller : State) (calls : List Call) →
        Asks o words.now (I.left input.old) s places →
        DescribesCallToNowhere s places functions start caller calls →
        Tells (verdict Status.Done (called_text o s places start caller calls)) result
        (O.holds output.old) (O.holds output.new) }
    // Where its start begins a stack of each of whose frames it is known how its caller's state
    // follows, in an ELF module by facts that its tables say, at any address of code, and through a
    // signal's frame to the state that was interrupted, these are the lines of the states of that
    // stack, and the last says why its outermost state has no caller.
    ensures known { (o : Options) (s : Content) (places : PlacesValue) (start : State)
        (callers : List State) →
        Asks o words.now (I.left input.old) s places →
        (begins : BeginsKnownStack s places start callers) →
        Tells (verdict Status.Done (stack_text o s places start callers begins)) result
        (O.holds output.old) (O.holds output.new) }
    // So they are, with the start before them, where it was interrupted right after a call to 0 or to
    // where no code is and its caller's state begins such a stack.
    ensures known_call { (o : Options) (s : Content) (places : PlacesValue)
        (start caller : State) (callers : List State) →
        Asks o words.now (I.left input.old) s places →
        (begins : BeginsByCallToNowhere s places start caller callers) →
        Tells (verdict Status.Done (called_stack_text o s places start caller callers begins)) result
        (O.holds output.old) (O.holds output.new) }
    // And so they are, with a mark at the first, where registers were popped at its start, and
    // over the memory that keeps them it begins such a stack.
    ensures known_popped { (o : Options) (s : Content) (places : PlacesValue) (start : State)
        (callers : List State) →
        Asks o words.now (I.left input.old) s places →
        (begins : BeginsPoppedStack s start callers) →
        Tells (verdict Status.Done (popped_stack_text o s places start callers begins)) result
        (O.holds output.old) (O.holds output.new) }
    // Whatever the source tells, words that name no options are answered so, and no others.
    ensures usage { ComesExactly result Status.Usage (options_of words.now ≡ None) }
    ensures usage_told { options_of words.now ≡ None →
        Tells (verdict Status.Usage usage_line) result (O.holds output.old) (O.holds output.new) }
    ensures unread { options_of words.now ≡ None →
        (result ≢ Status.ReadFault) × Keeps (I.left input.old) (I.left input.new) }
    // Without memory, and after a fault of the source, nothing is written; a fault is answered only
    // where one rose; and the source is read to its end where the status says so.
    ensures ends { KeepsToEnds (IsSome (options_of words.now)) result
        (Rose (I.faults input.old) (I.faults input.new))
        (Rose (O.faults output.old) (O.faults output.new)) (I.left input.old) (I.left input.new)
        (O.holds output.old) (O.holds output.new) }
    ensures too_long { IfSome (I.left input.old)
        (λ bytes. ComesExactly result Status.TooLong (IsSome (options_of words.now) ×
        (2 ^ 26 < length bytes))) }
    ensures not_json { IfSome (I.left input.old)
        (λ bytes. ComesExactly result Status.NotJson
        (IsFaulty words.now bytes SnapshotError.NotJson)) }
    ensures bad_snapshot { IfSome (I.left input.old)
        (λ bytes. ComesExactly result Status.BadSnapshot
        ((field : Field) × IsFaulty words.now bytes (SnapshotError.Bad field))) }
    ensures no_refusal { result ≢ Status.Refused }
{
    let answer = decide(alloc, words, input);
    write_answer(output, answer.status, answer.text.bytes())
}
