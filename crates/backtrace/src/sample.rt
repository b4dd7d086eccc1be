// Laws of backtraces, and worked examples that meet what the clauses ask for.
ghost use Rattle.std.specs.Prelude.{◌≡◌, ◌≢◌, ℕ, List, [], ◌∷◌, Some, None, Ok, true, false, codes};
ghost use Rattle.std.specs.Prelude.{◌%◌, Bool, slice_get, IsFalse, IsTrue};
ghost use Rattle.unwind_definitions.specs.State.{IsState, Shows};
ghost use Rattle.unwind_definitions.specs.Entered.{IsEntered};
ghost use Rattle.unwind_definitions.specs.Stopped.{StandsAfter};
ghost use Rattle.unwind_laws.specs.Pushing.{function, start};
ghost use Rattle.unwind_laws.specs.Three as three;
ghost use Rattle.frame_facts_laws.specs.SampleProgram as layouts;
ghost use Rattle.frame_facts_laws.specs.SignalProgram as signals;
ghost use Rattle.unwind_arch.specs.ContextViews.{columns_of};
ghost use Rattle.stack_steps.specs.StopSample.{after_the_push};
ghost use Rattle.stack_snapshot.specs.Content.{Content, space_of};
ghost use Rattle.backtrace.specs.Code.{CodeValue, PlacesValue, code_at, without_code};
ghost use Rattle.backtrace.specs.Lines.{code_text, no_module_text, why_text};
ghost use Rattle.backtrace.specs.Tracing.{TraceValue, IsCutAtStart, IsPlainTrace, IsTrace};
ghost use Rattle.backtrace.specs.Tracing.{keeps_popped};
ghost use Rattle.stack_walks.specs.declared.walk_end.EndReason.TheVariants.{NoModule, Outermost};
ghost use Rattle.stack_walks.specs.Lines.{line_of};
ghost use Rattle.stack_walks.specs.WalkEnds.{ComesTo};
ghost use Rattle.unwind_arch.specs.declared.x86_64.Context.{Context};
ghost use Rattle.backtrace.specs.PoppedStacks.{BeginsPoppedStack, PopsAtStart, kept_of};
ghost use Rattle.backtrace.specs.PoppedStacks.{popped_stack_text, popped_text};
ghost use Rattle.backtrace.specs.PoppedTraceSample as popped;
ghost use Rattle.popped_registers.specs.PoppedSample as popped_stack;
ghost use Rattle.stack_snapshot.specs.Sampled.{SampledContent, sampled_in};
ghost use Rattle.folded_stacks.specs.declared.samples.Sample.{Sample};
ghost use Rattle.unwind_definitions.specs.Chain.{Call};
ghost use Rattle.unwind_definitions.specs.Function.{Function};
ghost use Rattle.unwind_definitions.specs.State.{State};
ghost use Rattle.stack_snapshot.specs.Described.{DescribesStop, DescribesWalk};
ghost use Rattle.backtrace.specs.declared.options.Options.{Options};
ghost use Rattle.backtrace.specs.Options.{options_of, plain};
ghost use Rattle.backtrace.specs.Tracing.{IsNowhere};
ghost use Rattle.backtrace.specs.ChainSample as sample;
ghost use Rattle.backtrace.specs.PointedSample as pointed;
ghost use Rattle.backtrace.specs.FramePointers.{AreGuesses, frame_pointer_steps, is_called_code};
ghost use Rattle.stack_steps.specs.Modules.{SpaceValue};
ghost use Rattle.backtrace.specs.Due.{Asks, AsksSamples, DescribesCallToNowhere, IsBacktrace};
ghost use Rattle.backtrace.specs.Due.{IsPlainTraceOf, IsTraceOf, AreGuessesOf, AsksPointers};
ghost use Rattle.backtrace.specs.Due.{guessed_text_of};
ghost use Rattle.backtrace.specs.Due.{called_text, chain_text, error_in, text_of};
ghost use Rattle.backtrace.specs.Threads.{HasThread, IsThreadsOf, alone};
ghost use Rattle.backtrace.specs.KnownSample as known;
ghost use Rattle.backtrace.specs.SignalSample as signal;
ghost use Rattle.backtrace.specs.KnownStacks.{BeginsByCallToNowhere, BeginsKnownStack};
ghost use Rattle.backtrace.specs.KnownStacks.{called_stack_text, stack_text};
ghost use Rattle.backtrace.specs.Sample.{callee, caller, entry, json, samples, samples_json};
ghost use Rattle.backtrace.specs.Sample.{code_json, code_places, code_trace, in_code, in_code_text};
ghost use Rattle.backtrace.specs.Sample.{snapshot, text, threads, trace};

/// Words and bytes have one answer, where they ask for one: the backtrace of a snapshot, or those of
/// samples.
pub fn a_backtrace_is_one()
    ensures { (words : List (List ℕ)) (bytes x y : List ℕ) (o : Options) →
        options_of words ≡ Some o → error_in o.samples bytes ≡ None →
        IsBacktrace words bytes x → IsBacktrace words bytes y → x ≡ y }
{}

/// And they have one, whatever the bytes say.
pub fn a_backtrace_is_there()
    ensures { (words : List (List ℕ)) (bytes : List ℕ) (o : Options) →
        options_of words ≡ Some o → (text : List ℕ) × IsBacktrace words bytes text }
{}

/// A walk that comes to an address which no module holds ends by a line of its own where that lies in
/// code without a table. The line names the first range of code that holds the address.
pub fn code_ends_a_backtrace()
    ensures code { (places : PlacesValue) (c : CodeValue) (a : ℕ) → code_at places.code a ≡ Some c →
        why_text places (NoModule a) ≡ code_text c a }
    ensures none { (places : PlacesValue) (a : ℕ) → code_at places.code a ≡ None →
        why_text places (NoModule a) ≡ no_module_text a }
{}

/// Of a thread that stands in code without a table no caller is read from the stack.
pub fn nothing_is_guessed_in_code()
    ensures { (s : Content) (places : PlacesValue) (c : CodeValue) (t : TraceValue) →
        code_at places.code s.start.ra ≡ Some c → IsTraceOf s places t → t.first ≡ None }
{}

/// A trace without a mark is that of the tables alone, over the memory as it is; and that one is
/// the trace where no popped register is kept.
pub fn an_unmarked_trace_is_plain()
    ensures plain { (space : SpaceValue) (code : List CodeValue) (c : Context)
        (interrupted : Bool) (limit : ℕ) (t : TraceValue) →
        IsTrace space code c interrupted limit t → t.popped ≡ false →
        IsPlainTrace space code c interrupted limit t }
    ensures trace { (space : SpaceValue) (code : List CodeValue) (c : Context)
        (interrupted : Bool) (limit : ℕ) (t : TraceValue) →
        keeps_popped space limit c interrupted ≡ false →
        IsPlainTrace space code c interrupted limit t → IsTrace space code c interrupted limit t }
{}

/// Where a trace is marked, its thread was interrupted, and the step from its start meets what
/// isn't mapped: without popped registers its stack is cut at its first frame.
pub fn only_a_cut_stack_is_marked()
    ensures { (space : SpaceValue) (code : List CodeValue) (c : Context)
        (interrupted : Bool) (limit : ℕ) (t : TraceValue) →
        IsTrace space code c interrupted limit t → t.popped ≡ true →
        IsCutAtStart space c interrupted }
{}

/// Of a stack that is walked whole by tables alone no trace is marked.
pub fn a_whole_stack_is_unmarked()
    ensures { (space : SpaceValue) (code : List CodeValue) (c : Context)
        (interrupted : Bool) (limit : ℕ) (t : TraceValue) (states : List Context) →
        IsTrace space code c interrupted limit t →
        line_of space limit c interrupted ≡ Ok states → t.popped ≡ false }
{}

/// Of a thread whose start begins a stack of each of whose frames it is known how its caller's state
/// follows, the lines of samples have, in their place, its number and the lines of that stack.
pub fn a_known_thread_has_its_lines()
    ensures { (o : Options) (bytes : List ℕ) (s : SampledContent) (places : PlacesValue)
        (index : ℕ) (x : Sample) (start : State) (callers : List State) (text : List ℕ) →
        o.frame_pointers ≡ false → sampled_in bytes ≡ Ok s → slice_get s.samples index ≡ Some x →
        (begins : BeginsKnownStack (alone s x) places start callers) → IsThreadsOf o s places text →
        HasThread o s places index
        (stack_text o (alone s x) places start callers begins) text }
{}

/// So they have of one that was interrupted after registers were popped, and that begins such a
/// stack over the memory that keeps them. The line of its first frame is marked.
pub fn a_popped_thread_has_its_lines()
    ensures { (o : Options) (bytes : List ℕ) (s : SampledContent) (places : PlacesValue)
        (index : ℕ) (x : Sample) (start : State) (callers : List State) (text : List ℕ) →
        o.frame_pointers ≡ false → sampled_in bytes ≡ Ok s → slice_get s.samples index ≡ Some x →
        (begins : BeginsPoppedStack (alone s x) start callers) → IsThreadsOf o s places text →
        HasThread o s places index
        (popped_stack_text o (alone s x) places start callers begins) text }
{}

/// So it has of one that begins a described chain.
pub fn a_thread_of_a_chain_has_its_lines()
    ensures { (o : Options) (bytes : List ℕ) (s : SampledContent) (places : PlacesValue)
        (index : ℕ) (x : Sample) (functions : List Function) (start : State) (calls : List Call)
        (text : List ℕ) → o.frame_pointers ≡ false →
        sampled_in bytes ≡ Ok s → slice_get s.samples index ≡ Some x →
        DescribesWalk (alone s x) functions start calls → IsThreadsOf o s places text →
        HasThread o s places index (chain_text o (alone s x) places start calls) text }
{}

/// A snapshot that was taken after a call through a null pointer meets what `run` asks of one whose
/// trace is written, and this text is then written.
pub fn null_call_is_traced()
    ensures asked { Asks plain [] (Some json) snapshot (without_code []) }
    ensures traced { IsTraceOf snapshot (without_code []) trace }
    ensures backtrace { IsBacktrace [] json text }
    ensures written { text_of plain snapshot (without_code []) trace ≡ text }
{}

/// So does one that was taken in code without a table, though the same word stands at its stack
/// pointer: it has one frame, and the last line names the code's file. No popped register is kept
/// there, and that is the trace by tables alone.
pub fn stop_in_code_is_traced()
    ensures asked { Asks plain [] (Some code_json) in_code code_places }
    ensures traced { IsTraceOf in_code code_places code_trace }
    ensures plain { IsPlainTraceOf in_code code_places code_trace }
    ensures unmarked { IsFalse (keeps_popped (space_of in_code) in_code.limit in_code.start true) }
    ensures written { text_of plain in_code code_places code_trace ≡ in_code_text }
{}

/// So does one whose thread stands in such code with RBP as its frame pointer, and words that ask for
/// frame pointers: the caller to which RBP leads is marked, and tables lead on from there.
pub fn frame_pointer_is_followed()
    ensures asked { AsksPointers (record plain { frame_pointers = true })
        (codes "--frame-pointers" ∷ []) (Some pointed.json) pointed.snapshot pointed.places }
    ensures traced { IsTraceOf pointed.snapshot pointed.places pointed.trace }
    ensures goes_on { AreGuessesOf pointed.snapshot pointed.places pointed.trace (pointed.walk ∷ []) }
    ensures written { guessed_text_of (record plain { frame_pointers = true }) pointed.snapshot
        pointed.places pointed.trace (pointed.walk ∷ []) ≡ pointed.text }
{}

/// It meets what `caller_by_pointer` asks too: RBP was pushed, and is the frame pointer.
pub fn frame_pointer_leads_to_a_caller()
    ensures entered { IsEntered (space_of pointed.snapshot).image false frame_pointer_steps
        three.second pointed.callee }
    ensures state { IsState three.second }
    ensures words { three.second.sp % 8 ≡ 0 }
    ensures called { IsTrue (is_called_code (space_of pointed.snapshot) pointed.places.code
        three.second.ra) }
    ensures shows { Shows (columns_of pointed.snapshot.start) pointed.callee }
{}

/// A snapshot that was taken at the return of a function that pushes RBX, after the pop, with the
/// stack from its stack pointer on, meets what `run` asks of one whose start keeps popped
/// registers, from its bytes on; and over the memory that keeps RBX it begins a stack of each of
/// whose frames it is known how its caller's state follows. This text is then written.
pub fn popped_register_is_traced()
    ensures asked { Asks plain [] (Some popped.json) popped.snapshot popped.places }
    ensures pops { PopsAtStart popped.snapshot }
    ensures ends { ComesTo Outermost (kept_of popped.snapshot) popped.snapshot.limit
        popped.snapshot.start true }
    ensures begins { BeginsPoppedStack popped.snapshot popped_stack.at_return
        popped_stack.callers }
    ensures traced { IsTraceOf popped.snapshot popped.places popped.trace }
    ensures written { text_of plain popped.snapshot popped.places popped.trace ≡ popped.text }
    ensures kept { popped_text plain popped.snapshot popped.places Outermost ≡ popped.text }
    ensures known { (begins : BeginsPoppedStack popped.snapshot popped_stack.at_return
        popped_stack.callers) →
        popped_stack_text plain popped.snapshot popped.places popped_stack.at_return
        popped_stack.callers begins ≡ popped.text }
{}

/// As a sample it meets what `run` asks of samples, from their bytes on, and these lines are then
/// written.
pub fn popped_sample_is_traced()
    ensures asked { AsksSamples (record plain { samples = true }) (codes "--samples" ∷ [])
        (Some popped.samples_json) popped.samples popped.places }
    ensures traced { IsThreadsOf (record plain { samples = true }) popped.samples popped.places
        popped.threads }
{}

/// Where frame pointers aren't asked for, no walk goes on by one.
pub fn no_guess_is_taken_unasked()
    ensures { (space : SpaceValue) (code : List CodeValue) (limit n : ℕ) (t : TraceValue)
        (ts : List TraceValue) → AreGuesses false space code limit n t ts → ts ≡ [] }
{}

/// Samples of the first of these and of one that stands after a call in no module meet what `run` asks of
/// samples, from their bytes on, and these lines are then written.
pub fn samples_are_traced()
    ensures asked { AsksSamples (record plain { samples = true }) (codes "--samples" ∷ [])
        (Some samples_json) samples (without_code []) }
    ensures traced { IsThreadsOf (record plain { samples = true }) samples (without_code []) threads }
{}

/// A snapshot of three functions that call one another meets what `run` asks of a described chain,
/// from its bytes on, and this text is then written.
pub fn chain_is_described()
    ensures asked { Asks (record plain { registers = true }) (codes "--registers" ∷ [])
        (Some sample.calling_json) sample.calling sample.calling_places }
    ensures described { DescribesWalk sample.calling three.functions three.start three.calls }
    ensures written { chain_text (record plain { registers = true }) sample.calling
        sample.calling_places three.start three.calls ≡ sample.calling_text }
{}

/// A snapshot that was stopped after the push of a function that pushes RBX meets what `run` asks of
/// a stop in a described function.
pub fn stop_is_described()
    ensures asked { Asks plain [] (Some sample.stopped_json)
        sample.stopped sample.stopped_places }
    ensures described { DescribesStop sample.stopped (function ∷ []) start after_the_push [] }
    ensures written { chain_text plain sample.stopped
        sample.stopped_places start (after_the_push ∷ []) ≡ sample.stopped_text }
{}

/// It meets what `called_from` asks too: it was entered by a call, and stands before the first step
/// of a function.
pub fn null_call_is_entered()
    ensures nowhere { IsNowhere (space_of snapshot) [] snapshot.start true }
    ensures entered { IsEntered (space_of snapshot).image false [] caller callee }
    ensures stands { StandsAfter (space_of snapshot).image entry [] [] caller callee }
    ensures state { IsState caller }
    ensures returns { caller.ra ≢ 0 }
    ensures shows { Shows (columns_of snapshot.start) callee }
{}

/// And what `run` asks of a call to nowhere: its caller, in no module either, is a chain by itself.
/// The text that is written is said by the states.
pub fn null_call_is_described()
    ensures described { DescribesCallToNowhere snapshot (without_code []) [] callee caller [] }
    ensures written { called_text plain snapshot (without_code []) callee caller [] ≡
        text }
{}

/// A snapshot of a program that was stopped in an epilogue after two pops meets what `run` asks of a
/// stack of each of whose frames it is known how its caller's state follows, from its bytes on. The
/// stack goes through a part of a function that lies apart from it, a frame with pushed arguments
/// and a realigned one, to `_start`. This text is then written.
pub fn stop_in_an_epilogue_is_known()
    ensures asked { Asks plain [] (Some known.json) known.snapshot
        known.places }
    ensures begins { BeginsKnownStack known.snapshot known.places layouts.popped layouts.states }
    ensures written { (begins : BeginsKnownStack known.snapshot known.places layouts.popped layouts.states) →
        stack_text plain known.snapshot known.places layouts.popped
        layouts.states begins ≡ known.text }
{}

/// So does one of a program that was stopped in a function that a signal's handler called, whose stack
/// goes through the signal's frame to the function that the signal interrupted at its first
/// instruction.
pub fn stop_in_a_signal_handler_is_known()
    ensures asked { Asks plain [] (Some signal.json) signal.snapshot signal.places }
    ensures begins { BeginsKnownStack signal.snapshot signal.places signals.in_work signals.callers }
    ensures written { (begins : BeginsKnownStack signal.snapshot signal.places signals.in_work signals.callers) →
        stack_text plain signal.snapshot signal.places signals.in_work signals.callers begins ≡
        signal.text }
{}

/// The snapshot that was taken after a call through a null pointer meets what `run` asks where the
/// caller's state begins such a stack: it is one by itself.
pub fn null_call_is_known()
    ensures begins { BeginsByCallToNowhere snapshot (without_code []) callee caller [] }
    ensures written { (begins : BeginsByCallToNowhere snapshot (without_code []) callee caller []) →
        called_stack_text plain snapshot (without_code []) callee caller [] begins ≡
        text }
{}
