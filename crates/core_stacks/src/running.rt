// One run of the program, from its words and the files to its output.
ghost use Rattle.std.specs.Prelude.{◌≡◌, ◌≢◌, ◌⊎◌, [], ℕ, List, None, IfOk, IsErrOf, MatchResult};
ghost use Rattle.std.specs.Prelude.{map, ◌∷◌, Ok, Some, slice_get, true};
ghost use Rattle.std.specs.Option.{option_map};
ghost use Rattle.std.specs.Io.KnownBytes.{Appends};
ghost use Rattle.memory_image.specs.Ends.{Rose};
ghost use Rattle.core_file.specs.Left.{threads_left};
ghost use Rattle.core_file.specs.CoreValue.{CoreValue, core_of};
ghost use Rattle.core_file.specs.MappedParts.{mapped_parts};
ghost use Rattle.core_file.specs.MappedViews.{parts_left};
ghost use Rattle.unwind_arch.specs.declared.x86_64.Context.{Context};
ghost use Rattle.unwind_definitions.specs.State.{State};
ghost use Rattle.unwind_definitions.specs.Function.{Function};
ghost use Rattle.unwind_definitions.specs.Chain.{Call};
ghost use Rattle.stack_steps.specs.Stopped.{StartsStopped};
ghost use Rattle.stack_walks.specs.KnownWalks.{StartsKnownStack};
ghost use Rattle.core_walks.specs.Lines.{stopped_text, threads_text};
ghost use Rattle.core_walks.specs.ThreadLines.{thread_lines};
ghost use Rattle.command_ends.specs.Verdicts.{IsReadyOrFailed, Tells, verdict};
ghost use Rattle.mapped_files.specs.Files.{AreTold};
ghost use Rattle.mapped_modules.specs.Loading.{loaded_value};
ghost use Rattle.mapped_modules.specs.Spaces.{space_of_core};
ghost use Rattle.core_stacks.specs.Due.{Asks, AsksNames, bytes_due, core_asked, core_due, due_of};
ghost use Rattle.core_stacks.specs.Due.{lines_due, lines_with, modules_in, most_states, space_in};
ghost use Rattle.mapped_names.specs.Places.{parts_of};
ghost use Rattle.named_walks.specs.Named.{named_threads_text};

use crate::asked::core_asked;
use crate::lines::usage_line;
use crate::parts::lines_by_parts;
use command_ends::{Answer, Status, Words, silent_answer, text_answer, write_answer};
use core_file::{CoreFile, MappedParts, mapped_parts};
use core_walks::{core_refused_line, walks_of_threads};
use mapped_files::{Files, PartError};
use mapped_modules::{LoadedModule, loaded_modules, space_of_core};
use memory_image::Sink;
use named_walks::{FrameNames, named_walks_of_threads};
use stack_report::{Report, line_of};
use std::alloc::{AllocError, Global};

/// The most states of a walk.
pub(crate) const MOST_STATES: u32 = 1_048_576;

/// The most bytes of a core.
pub(crate) const MOST_BYTES: u64 = 1 << 32;

/// The walks of a core's threads, over its memory and these modules.
fn walks_over(
    alloc: Global,
    core: &CoreFile<'_>,
    loaded: &[LoadedModule],
) -> Result<Report, AllocError>
    ensures { IfOk result (λ report. report ≡ threads_text
        (space_of_core (map loaded_value loaded.now) core.now.segments) most_states 0
        core.now.threads) }
{
    let space = space_of_core(alloc, loaded, core)?;
    walks_of_threads(alloc, &space, core.threads(), MOST_STATES)
}

/// The same with the functions of their frames, by the files that were mapped.
fn named_walks_over<F: Files>(
    alloc: Global,
    files: &F,
    parts: Option<MappedParts<'_>>,
    core: &CoreFile<'_>,
    loaded: &[LoadedModule],
) -> Result<Report, PartError>
    ensures told { (all : List ℕ → List ℕ) → AreTold (F.content files.now) all →
        IfOk result (λ report. report ≡ named_threads_text all
        (parts_of (option_map parts_left parts.entry))
        (space_of_core (map loaded_value loaded.now) core.now.segments) most_states 0
        core.now.threads) }
    ensures fault { IsErrOf result PartError.Fault → F.may_fail files.now }
{
    let space = space_of_core(alloc, loaded, core)?;
    let mut names = FrameNames::new(alloc, files, parts)?;
    named_walks_of_threads(alloc, &space, core.threads(), MOST_STATES, &mut names)
}

/// The modules of the files that a core says were mapped, none where it doesn't say.
pub(crate) fn modules_in<F: Files>(
    alloc: Global,
    files: &F,
    parts: Option<MappedParts<'_>>,
) -> Result<Vec<LoadedModule>, PartError>
    ensures told { (all : List ℕ → List ℕ) → AreTold (F.content files.now) all →
        IfOk result (λ loaded. map loaded_value loaded.items ≡
        modules_in all (option_map parts_left parts.entry)) }
    ensures fault { IsErrOf result PartError.Fault → F.may_fail files.now }
{
    match parts {
        Some(parts) => loaded_modules(alloc, files, parts),
        None => Ok(Vec::new(alloc)),
    }
}

/// The answer where a file can't be read.
fn failed_answer(alloc: Global, error: PartError) -> Answer
    ensures text { result.text ≡ [] }
    ensures fault { result.status ≡ Status.ReadFault → error ≡ PartError.Fault }
    ensures kind { (result.status ≡ Status.ReadFault) ⊎ (result.status ≡ Status.Memory) }
{
    match error {
        PartError::Fault => silent_answer(alloc, Status::ReadFault),
        PartError::Memory => silent_answer(alloc, Status::Memory),
    }
}

/// The answer with the text, unless a read failed or memory ran out.
fn report_answer(alloc: Global, text: Result<Report, PartError>) -> Answer
    ensures { MatchResult text (λ report. (result.status ≡ Status.Done) × (result.text ≡ report))
        (λ error. (result.text ≡ []) ×
        ((result.status ≡ Status.ReadFault) × (error ≡ PartError.Fault)
        ⊎ (result.status ≡ Status.Memory))) }
{
    match text {
        Ok(text) => Answer {
            status: Status::Done,
            text,
        },
        Err(error) => failed_answer(alloc, error),
    }
}

/// The lines of a core's threads, over these modules, with the functions of their frames where they
/// are asked for.
fn lines_over<F: Files>(
    alloc: Global,
    files: &F,
    names: bool,
    bytes: &[u8],
    core: &CoreFile<'_>,
    loaded: &[LoadedModule],
) -> Result<Report, PartError>
    ensures told { (all : List ℕ → List ℕ) → AreTold (F.content files.now) all →
        map loaded_value loaded.now ≡ modules_in all (mapped_parts bytes.now) →
        IfOk result (λ report. report ≡ lines_due names all bytes.now core.now) }
    ensures fault { IsErrOf result PartError.Fault → F.may_fail files.now }
{
    if names {
        named_walks_over(alloc, files, mapped_parts(bytes), core, loaded)
    } else {
        Ok(walks_over(alloc, core, loaded)?)
    }
}

/// The lines of a core's threads.
fn lines_of<F: Files>(
    alloc: Global,
    files: &F,
    names: bool,
    bytes: &[u8],
    core: &CoreFile<'_>,
) -> Result<Report, PartError>
    ensures told { (all : List ℕ → List ℕ) → AreTold (F.content files.now) all →
        IfOk result (λ report. report ≡ lines_due names all bytes.now core.now) }
    ensures fault { IsErrOf result PartError.Fault → F.may_fail files.now }
{
    let loaded = modules_in(alloc, files, mapped_parts(bytes))?;
    lines_over(alloc, files, names, bytes, core, &loaded)
}

/// The answer to a core.
fn walked_answer<F: Files>(
    alloc: Global,
    files: &F,
    names: bool,
    bytes: &[u8],
    core: &CoreFile<'_>,
) -> Answer
    requires { core_of bytes.now ≡ Ok core.now }
    ensures told { (all : List ℕ → List ℕ) → AreTold (F.content files.now) all →
        IsReadyOrFailed (core_due names all bytes.now (core_of bytes.now)) result.status result.text }
    ensures silent { (result.status ≡ Status.Memory) ⊎ (result.status ≡ Status.ReadFault) →
        result.text ≡ [] }
    ensures fault { result.status ≡ Status.ReadFault → F.may_fail files.now }
    ensures kind { (result.status ≢ Status.Usage) × (result.status ≢ Status.WriteFault) }
{
    report_answer(alloc, lines_of(alloc, files, names, bytes, core))
}

/// The answer to bytes that are read as a core.
fn core_answer<F: Files>(alloc: Global, files: &F, names: bool, bytes: &[u8]) -> Answer
    ensures told { (all : List ℕ → List ℕ) → AreTold (F.content files.now) all →
        IsReadyOrFailed (core_due names all bytes.now (core_of bytes.now)) result.status result.text }
    ensures silent { (result.status ≡ Status.Memory) ⊎ (result.status ≡ Status.ReadFault) →
        result.text ≡ [] }
    ensures fault { result.status ≡ Status.ReadFault → F.may_fail files.now }
    ensures kind { (result.status ≢ Status.Usage) × (result.status ≢ Status.WriteFault) }
{
    match CoreFile::parse(bytes) {
        Ok(core) => walked_answer(alloc, files, names, bytes, &core),
        Err(error) => text_answer(alloc, Status::Refused, core_refused_line(alloc, error)),
    }
}

/// The answer to the bytes of a file, of which one more than are read as a core may be there.
fn bytes_answer<F: Files>(alloc: Global, files: &F, names: bool, bytes: &[u8]) -> Answer
    ensures told { (all : List ℕ → List ℕ) → AreTold (F.content files.now) all →
        IsReadyOrFailed (bytes_due names all bytes.now) result.status result.text }
    ensures silent { (result.status ≡ Status.Memory) ⊎ (result.status ≡ Status.ReadFault) →
        result.text ≡ [] }
    ensures fault { result.status ≡ Status.ReadFault → F.may_fail files.now }
    ensures kind { (result.status ≢ Status.Usage) × (result.status ≢ Status.WriteFault) }
{
    if bytes.len() as u64 > MOST_BYTES {
        return text_answer(alloc, Status::TooLong, line_of(alloc, "too long"));
    }
    core_answer(alloc, files, names, bytes)
}

/// The answer to the file of a path, which is read whole.
#[tactic(auto, using(crate::proofs::Cutting::cut_due))]
fn whole_answer<F: Files>(alloc: Global, files: &F, names: bool, path: &[u8]) -> Answer
    ensures told { (all : List ℕ → List ℕ) → AreTold (F.content files.now) all →
        IsReadyOrFailed (bytes_due names all (all path.now)) result.status result.text }
    ensures silent { (result.status ≡ Status.Memory) ⊎ (result.status ≡ Status.ReadFault) →
        result.text ≡ [] }
    ensures fault { result.status ≡ Status.ReadFault → F.may_fail files.now }
    ensures kind { (result.status ≢ Status.Usage) × (result.status ≢ Status.WriteFault) }
{
    match files.read_part(alloc, path, 0, MOST_BYTES + 1) {
        Ok(bytes) => bytes_answer(alloc, files, names, &bytes),
        Err(error) => failed_answer(alloc, error),
    }
}

/// The answer to the file of a path, by parts of it where they suffice.
fn file_answer<F: Files>(alloc: Global, files: &F, names: bool, path: &[u8]) -> Answer
    ensures told { (all : List ℕ → List ℕ) → AreTold (F.content files.now) all →
        IsReadyOrFailed (bytes_due names all (all path.now)) result.status result.text }
    ensures silent { (result.status ≡ Status.Memory) ⊎ (result.status ≡ Status.ReadFault) →
        result.text ≡ [] }
    ensures fault { result.status ≡ Status.ReadFault → F.may_fail files.now }
    ensures kind { (result.status ≢ Status.Usage) × (result.status ≢ Status.WriteFault) }
{
    match lines_by_parts(alloc, files, names, path) {
        Ok(Some(text)) => Answer {
            status: Status::Done,
            text,
        },
        Ok(None) => whole_answer(alloc, files, names, path),
        Err(error) => failed_answer(alloc, error),
    }
}

fn decide<F: Files>(alloc: Global, words: &Words, files: &F) -> Answer
    ensures told { (all : List ℕ → List ℕ) → AreTold (F.content files.now) all →
        IsReadyOrFailed (due_of all words.now) result.status result.text }
    ensures silent { (result.status ≡ Status.Memory) ⊎ (result.status ≡ Status.ReadFault) →
        result.text ≡ [] }
    ensures fault { result.status ≡ Status.ReadFault → F.may_fail files.now }
    ensures kind { result.status ≢ Status.WriteFault }
    ensures usage { result.status ≡ Status.Usage → core_asked words.now ≡ None }
{
    match core_asked(words) {
        Some(asked) => file_answer(alloc, files, asked.names, asked.path.as_bytes()),
        None => text_answer(alloc, Status::Usage, usage_line(alloc)),
    }
}

/// Writes the walks of all threads of the core file that the words name to the output, or why there are none.
///
/// Of the core the front is read, and a window of memory for each thread's stack; where a walk leaves
/// these, larger ones. Where that doesn't suffice, as where the front has more than 64 MiB, the core is
/// read whole, but for what follows its 4,294,967,297th byte. The answer is the same. Of each file that it says was mapped the front is read,
/// and the segment that has its frame table; for names also the symbols of the files in which frames
/// stand. Running out of memory is `Memory`.
pub fn run<F: Files, O: Sink>(alloc: Global, words: &Words, files: &F, output: &mut O) -> Status
    // What is due for the words and for what the files have is answered and written.
    ensures told { (all : List ℕ → List ℕ) → AreTold (F.content files.now) all →
        Tells (due_of all words.now) result (O.holds output.old) (O.holds output.new) }
    // Where a thread of a core was stopped in a described function, and its caller begins a described
    // chain that the limit has room for, its lines are those of that state and of the chain.
    ensures stopped { (all : List ℕ → List ℕ) → AreTold (F.content files.now) all →
        (bytes : List ℕ) (core : CoreValue) (index : ℕ) (thread : Context)
        (functions : List Function) (s : State) (call : Call) (calls : List Call) →
        Asks all words.now bytes core → slice_get core.threads index ≡ Some thread →
        StartsStopped (space_in all bytes core) thread most_states functions s call calls →
        Tells (verdict Status.Done (lines_with (space_in all bytes core) core index
        (stopped_text index s (call ∷ calls)))) result (O.holds output.old) (O.holds output.new) }
    // Where it begins a stack of each of whose frames it is known how its caller's state follows, in
    // an ELF module by facts that its tables say, at any address, they are those of the stack.
    ensures known { (all : List ℕ → List ℕ) → AreTold (F.content files.now) all →
        (bytes : List ℕ) (core : CoreValue) (index : ℕ) (thread : Context) (s : State)
        (callers : List State) →
        Asks all words.now bytes core → slice_get core.threads index ≡ Some thread →
        StartsKnownStack (space_in all bytes core) thread most_states true s callers →
        Tells (verdict Status.Done (lines_with (space_in all bytes core) core index
        (thread_lines index (s ∷ callers)))) result (O.holds output.old) (O.holds output.new) }
    // Where names are asked for, each frame's line has the function of the frame, by the symbols of
    // the file that was mapped there.
    ensures named { (all : List ℕ → List ℕ) → AreTold (F.content files.now) all →
        (bytes : List ℕ) (core : CoreValue) → AsksNames all words.now bytes core →
        Tells (verdict Status.Done (named_threads_text all (parts_of (mapped_parts bytes))
        (space_in all bytes core) most_states 0 core.threads)) result (O.holds output.old)
        (O.holds output.new) }
    // Words that don't name one core are answered so, and no others.
    ensures usage { result ≡ Status.Usage → core_asked words.now ≡ None }
    // Without memory, and after a fault of a file, nothing is written; a fault is answered only where
    // a read may fail, or one of the output rose.
    ensures silent { (result ≡ Status.Memory) ⊎ (result ≡ Status.ReadFault) →
        Appends (O.holds output.old) (O.holds output.new) [] }
    ensures fault { result ≡ Status.ReadFault → F.may_fail files.now }
    ensures write { result ≡ Status.WriteFault → Rose (O.faults output.old) (O.faults output.new) }
{
    let answer = decide(alloc, words, files);
    write_answer(output, answer.status, answer.text.bytes())
}
