// Snapshots whose tables describe a chain, that of the stored run and others, and what is due for
// them.
ghost use Rattle.std.specs.Prelude.{◌≡◌, [], ◌∷◌, ◌++◌, Some, None, IsFalse, IsTrue, codes, slice_get};
ghost use Rattle.std.specs.List.{Contains};
ghost use Rattle.unwind_definitions.specs.State.{Shows};
ghost use Rattle.unwind_definitions.specs.Chain.{states_of};
ghost use Rattle.unwind_definitions.specs.Delivery.{delivery_of};
ghost use Rattle.unwind_laws.specs.Pushing.{function, start, calls};
ghost use Rattle.unwind_laws.specs.Storing as storing;
ghost use Rattle.frame_facts_laws.specs.SampleProgram as layouts;
ghost use Rattle.unwind_laws.specs.Three as three;
ghost use Rattle.unwind_arch.specs.ContextViews.{columns_of};
ghost use Rattle.format_definitions.specs.Calls.{IsDescribedCall};
ghost use Rattle.stack_steps.specs.SpaceViews.{formats_of};
ghost use Rattle.stack_snapshot.specs.Content.{space_of};
ghost use Rattle.unwind_cli.specs.declared.command.Task.TheVariants as task;
ghost use Rattle.unwind_cli.specs.Due.{Asks};
ghost use Rattle.stack_snapshot.specs.Described.{DescribesChain, DescribesStop, DescribesWalk};
ghost use Rattle.stack_report.specs.Report.{delivery_text, walk_text};
ghost use Rattle.unwind_cli.specs.Sample.{json, snapshot, text, walked};
ghost use Rattle.stack_snapshot.specs.Answers.{content_of};
ghost use Rattle.unwind_cli.specs.FramePointer as frame_pointer;
ghost use Rattle.unwind_cli.specs.Allocated as allocated;
ghost use Rattle.unwind_cli.specs.Caught as caught;
ghost use Rattle.unwind_cli.specs.Formats as formats;
ghost use Rattle.unwind_cli.specs.Handled as handled;
ghost use Rattle.format_samples.specs.Handlers as handlers;
ghost use Rattle.unwind_cli.specs.KnownSample as known;
ghost use Rattle.unwind_cli.specs.Landings as landings;
ghost use Rattle.fact_deliveries.specs.LandingProgram as program;
ghost use Rattle.fact_deliveries.specs.GuardedProgram as guarded;
ghost use Rattle.fact_deliveries.specs.GuardedThrow as thrown;
ghost use Rattle.stack_deliver.specs.KnownThrows as throws;
ghost use Rattle.stack_deliver.specs.KnownThrows.{StartsKnownThrow};
ghost use Rattle.stack_snapshot.specs.Thrown.{languages_in};
ghost use Rattle.unwind_cli.specs.Guarded as behind;
ghost use Rattle.frame_facts.specs.FactDeliveries.{delivery_to};
ghost use Rattle.stack_deliver.specs.KnownDeliveries.{StartsKnownDelivery};
ghost use Rattle.format_laws.specs.Sample as mixed;
ghost use Rattle.core_walks.specs.Lines.{stopped_text, text_before, text_after};
ghost use Rattle.folded_stacks.specs.Folding.{chain_stack};
ghost use Rattle.folded_stacks.specs.FoldSample.{sample_at};
ghost use Rattle.stack_report.specs.Folds.{fold_report_of};
ghost use Rattle.stack_snapshot.specs.Cores.{core_space_of, threads_of};
ghost use Rattle.stack_snapshot.specs.Sampled.{sampled_space};
ghost use Rattle.stack_steps.specs.Stopped.{StartsStopped};
ghost use Rattle.stack_steps.specs.StopSample.{after_the_push, stopped_at};
ghost use Rattle.stack_walks.specs.KnownWalks.{StartsKnownStack};
ghost use Rattle.stack_walks.specs.Walking.{StartsChain};
ghost use Rattle.table_check.specs.declared.verdict.Verdict.TheVariants.{Yes};
ghost use Rattle.claim_checks.specs.Claimed.{Describes};
ghost use Rattle.unwind_cli.specs.Checked.{claimed, claimed_json};
ghost use Rattle.unwind_cli.specs.Due.{AsksAudit, AsksCheck, AsksCore, AsksFold, AsksThrow};
ghost use Rattle.unwind_cli.specs.Due.{checked_due, differences_due, fold_from};
ghost use Rattle.unwind_cli.specs.AuditedSample as audited;
ghost use Rattle.fact_claims.specs.Code.{claims_of, image_in, refusal_in};
ghost use Rattle.frame_facts.specs.Claims.{SaysClaims};
ghost use Rattle.table_check.specs.Modules.{module_of};
ghost use Rattle.unwind_cli.specs.Stopped.{stopped, stopped_json, core, core_json, core_text};
ghost use Rattle.unwind_cli.specs.Stopped.{stopped_sample, sampled};
ghost use Rattle.unwind_cli.specs.Stopped.{sampled_json, sampled_text};

/// The snapshot of the stored run meets what `run` asks of a described chain, and the text that is
/// then due is this one.
pub fn stored_run_is_described()
    ensures described { DescribesChain snapshot (function ∷ []) start calls }
    ensures written { delivery_text (delivery_of 0 start calls) ≡ text }
{}

/// The stored run's bytes are that snapshot, so that it meets the other premise of `run`'s clauses
/// too.
pub fn stored_run_is_read()
    ensures read { content_of json ≡ Ok snapshot }
    ensures delivered { Asks task.Deliver (codes "deliver" ∷ []) (Some json) snapshot }
    ensures walked { Asks task.Walk (codes "walk" ∷ []) (Some json) snapshot }
{}

/// The same of a walk over it.
pub fn stored_run_is_walked()
    ensures described { DescribesWalk snapshot (function ∷ []) start calls }
    ensures written { walk_text (states_of start calls) ≡ walked }
{}

/// A snapshot where a function that stores R12 into its frame is called by one that sets RBP as its
/// frame pointer meets what `run` asks of a described chain too, and this text is then due.
pub fn frame_pointer_is_described()
    ensures described { DescribesChain frame_pointer.snapshot storing.functions storing.start
        storing.calls }
    ensures written { delivery_text (delivery_of 0 storing.start storing.calls) ≡
        frame_pointer.text }
{}

/// A snapshot of three functions, two of them with language tables, meets what `run` asks of a
/// described chain too: the innermost call throws, a cleanup runs in between, and the outermost
/// function catches. This text is then due.
pub fn caught_exception_is_described()
    ensures described { DescribesChain caught.snapshot three.functions three.start three.calls }
    ensures written { delivery_text (delivery_of three.exception three.start three.calls) ≡
        caught.text }
{}

/// The same where the module names the header of its frame table, which lists the three
/// descriptions.
pub fn functions_by_a_header_are_described()
    ensures described { DescribesChain caught.by_header three.functions three.start three.calls }
    ensures walked { DescribesWalk caught.by_header three.functions three.start three.calls }
    ensures written { delivery_text (delivery_of three.exception three.start three.calls) ≡
        caught.text }
{}

/// The same where the functions lie in two modules.
pub fn functions_in_two_modules_are_described()
    ensures described { DescribesChain caught.in_two_modules three.functions three.start
        three.calls }
    ensures written { delivery_text (delivery_of three.exception three.start three.calls) ≡
        caught.text }
{}

/// The same where the function between calls itself twice: its cleanup runs three times.
pub fn three_cleanups_are_described()
    ensures described { DescribesChain caught.deep three.functions three.deep_start
        three.deep_calls }
    ensures written { delivery_text (delivery_of three.exception three.deep_start three.deep_calls)
        ≡ caught.deep_text }
{}

/// The same where the outermost function is left at an address that no call site holds: the program
/// ends.
pub fn unlisted_call_is_described()
    ensures described { DescribesChain caught.unlisted three.functions three.start
        three.unlisted_calls }
    ensures written { delivery_text (delivery_of three.exception three.start three.unlisted_calls) ≡
        caught.unlisted_text }
{}

/// A chain that ends where no module is: the innermost of these functions, alone in its module.
pub fn call_from_outside_is_described()
    ensures described { DescribesChain caught.first (three.fa ∷ []) three.start
        (three.first_call ∷ []) }
    ensures written { delivery_text
        (delivery_of three.exception three.start (three.first_call ∷ [])) ≡ caught.first_text }
{}

/// A snapshot of modules of three formats meets what `run` asks of one whose modules describe a
/// chain, from its bytes on: of a delivery and of a walk. These texts are then due.
pub fn calls_through_formats_are_described()
    ensures read { content_of formats.json ≡ Ok formats.snapshot }
    ensures delivered { Asks task.Deliver (codes "deliver" ∷ []) (Some formats.json)
        formats.snapshot }
    ensures walked { Asks task.Walk (codes "walk" ∷ []) (Some formats.json) formats.snapshot }
    ensures described { DescribesChain formats.snapshot mixed.functions mixed.caught_start
        mixed.caught_calls }
    ensures walk_described { DescribesWalk formats.snapshot mixed.functions
        mixed.caught_start mixed.caught_calls }
    ensures delivery_text { delivery_text
        (delivery_of three.exception mixed.caught_start mixed.caught_calls) ≡ formats.text }
    ensures walk_text { walk_text (states_of mixed.caught_start mixed.caught_calls) ≡
        formats.walked }
{}

/// A snapshot of modules of three formats, in each of which the function that was called has a handler
/// for the exception, meets what `run` asks of a described chain, from its bytes on. The innermost one
/// takes the exception, and this text is then due.
pub fn handlers_of_three_formats_are_described()
    ensures read { content_of handled.json ≡ Ok handled.snapshot }
    ensures delivered { Asks task.Deliver (codes "deliver" ∷ []) (Some handled.json)
        handled.snapshot }
    ensures described { DescribesChain handled.snapshot handlers.functions handlers.in_macho
        handlers.calls_from_macho }
    ensures written { delivery_text
        (delivery_of three.exception handlers.in_macho handlers.calls_from_macho) ≡ handled.text }
{}

/// The same where the function of the PE module is the innermost one.
pub fn handler_of_a_pe_function_is_described()
    ensures read { content_of handled.pe_json ≡ Ok handled.pe_snapshot }
    ensures delivered { Asks task.Deliver (codes "deliver" ∷ []) (Some handled.pe_json)
        handled.pe_snapshot }
    ensures described { DescribesChain handled.pe_snapshot handlers.functions handlers.in_pe
        handlers.calls_from_pe }
    ensures written { delivery_text
        (delivery_of three.exception handlers.in_pe handlers.calls_from_pe) ≡ handled.pe_text }
{}

/// What a step asks of a call that it undoes is met by that function, which pushes, sets a frame
/// pointer and allocates.
pub fn pushed_call_is_described()
    ensures call { IsDescribedCall (space_of caught.first).image (formats_of (space_of caught.first))
        (three.fa ∷ []) three.start three.first_call }
    ensures shows { Shows (columns_of caught.first.start) three.start }
{}

/// And by one that allocates and stores a register.
pub fn stored_call_is_described()
    ensures call { IsDescribedCall (space_of frame_pointer.snapshot).image
        (formats_of (space_of frame_pointer.snapshot)) storing.functions storing.start
        (record { callee = storing.storing; caller = storing.caller }) }
    ensures shows { Shows (columns_of frame_pointer.snapshot.start) storing.start }
{}

/// And where that function is alone in its module and its frame table, and returns into itself: the
/// caller is at the same return address, 32 bytes further up, with the R12 that was stored.
pub fn allocated_call_is_described()
    ensures call { IsDescribedCall (space_of allocated.snapshot).image
        (formats_of (space_of allocated.snapshot)) (storing.storing ∷ []) allocated.start
        allocated.call }
    ensures shows { Shows (columns_of allocated.snapshot.start) allocated.start }
    ensures caller { allocated.call.caller ≡ record allocated.start { sp = 0x7020; r12 = 0xc12 } }
{}

/// And by a function whose module names the header of its frame table.
pub fn listed_call_is_described()
    ensures call { IsDescribedCall (space_of caught.by_header).image
        (formats_of (space_of caught.by_header)) three.functions three.start three.first_call }
    ensures shows { Shows (columns_of caught.by_header.start) three.start }
{}

/// A snapshot that was stopped after the push of a function that pushes RBX meets what `run` asks of
/// a stop in a described function, from its bytes on.
pub fn stop_is_described()
    ensures read { Asks task.Walk (codes "walk" ∷ []) (Some stopped_json) stopped }
    ensures described { DescribesStop stopped (function ∷ []) start after_the_push [] }
    ensures written { walk_text (states_of start (after_the_push ∷ [])) ≡ walked }
{}

/// So does a thread of a core file, and the text that is then due is this one.
pub fn stopped_thread_is_described()
    ensures read { AsksCore (codes "core" ∷ []) (Some core_json) core }
    ensures thread { slice_get (threads_of core.file) 0 ≡ Some (stopped_at 0x401006) }
    ensures described { StartsStopped (core_space_of core) (stopped_at 0x401006) core.limit
        (function ∷ []) start after_the_push [] }
    ensures written { text_before core 0 ++ stopped_text 0 start (after_the_push ∷ [])
        ++ text_after core 0 ≡ core_text }
{}

/// So does one of three samples; another stands after a call in the body of the function, and meets
/// what is asked of a described chain. The text that is due is this one.
pub fn samples_are_described()
    ensures read { AsksFold (codes "fold" ∷ []) (Some sampled_json) sampled }
    ensures called { Contains sampled.samples (sample_at 0x401006) ×
        IsFalse (sample_at 0x401006).interrupted ×
        StartsChain (sampled_space sampled) (sample_at 0x401006).start sampled.limit
        (function ∷ []) start (after_the_push ∷ []) }
    ensures stopped { Contains sampled.samples stopped_sample ×
        IsTrue stopped_sample.interrupted ×
        StartsStopped (sampled_space sampled) stopped_sample.start sampled.limit
        (function ∷ []) start after_the_push [] }
    ensures stack { chain_stack start (after_the_push ∷ []) ≡ 0x401006 ∷ [] }
    ensures written { fold_report_of (fold_from sampled) ≡ sampled_text }
{}

/// The function that pushes RBX, claimed so, meets what `run` asks of functions that a module
/// describes, from its bytes on, and this text is then due.
pub fn claimed_push_is_described()
    ensures read { AsksCheck (codes "check" ∷ []) (Some claimed_json) claimed }
    ensures described { Describes claimed }
    ensures written { (checked_due Yes).text ≡ codes "yes\n" }
{}

/// Claims of a small program's code meet what `run` asks of claims that a module's tables say, from
/// their bytes on, and this text is then due.
pub fn claimed_code_is_said()
    ensures read { AsksAudit (codes "audit" ∷ []) (Some audited.json) audited.code }
    ensures taken { refusal_in audited.code ≡ None }
    ensures said { SaysClaims (image_in audited.code) (module_of 0x401000 0x401197
        audited.code.frame) (claims_of audited.code) }
    ensures written { (differences_due audited.code []).text ≡
        codes "claims 4\ndiffer 0\nwithout a row 0\n" }
{}

/// A snapshot of a program that was stopped in an epilogue after two pops meets what `run` asks of a
/// stack of each of whose frames it is known how its caller's state follows, from its bytes on. The
/// stack goes through a part of a function that lies apart from it, a frame with pushed arguments
/// and a realigned one, to `_start`.
pub fn stop_in_an_epilogue_is_known()
    ensures read { Asks task.Walk (codes "walk" ∷ []) (Some known.json) known.snapshot }
    ensures starts { StartsKnownStack (space_of known.snapshot) known.snapshot.start
        known.snapshot.limit known.snapshot.interrupted layouts.popped layouts.states }
    ensures written { walk_text (layouts.popped ∷ layouts.states) ≡ known.text }
{}

/// A snapshot of a small C++ program where an exception is raised meets what `run` asks of a delivery
/// to a stack that is known frame by frame, from its bytes on. A cleanup and a handler are entered
/// past two pushed arguments each, and the cleanup goes on in a part of its function that lies apart
/// from it. This text is then due.
pub fn landings_past_arguments_are_known()
    ensures read { Asks task.Deliver (codes "deliver" ∷ []) (Some landings.json)
        landings.snapshot }
    ensures starts { StartsKnownDelivery (space_of landings.snapshot) landings.snapshot.start
        landings.snapshot.resumes landings.snapshot.limit program.in_raises program.callers
        program.asked }
    ensures written { delivery_text (delivery_to landings.snapshot.exception
        (program.in_raises ∷ program.callers) program.asked) ≡ landings.text }
{}

/// A snapshot of a small C++ program where its innermost frame would raise an exception meets what
/// `run` asks of a stack of each of whose frames it is known what its language table says, from its
/// bytes on. The frame that takes the exception does so by the third record of one chain: the first is
/// a cleanup's, and the second a handler's of another type. This text is then due.
pub fn a_handler_after_a_cleanup_is_known()
    ensures read { AsksThrow (codes "throw" ∷ []) (Some behind.json) behind.thrown }
    ensures starts { StartsKnownThrow (languages_in behind.thrown) (space_of behind.snapshot)
        behind.snapshot.start behind.snapshot.resumes behind.snapshot.limit guarded.in_raises
        guarded.callers thrown.asking }
    ensures written { delivery_text (throws.delivery_to behind.snapshot.exception
        (guarded.in_raises ∷ guarded.callers) thrown.asking) ≡ behind.text }
{}
